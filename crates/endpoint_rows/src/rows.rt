//! Each row takes its steps with endpoints of its own.
use crate::arrivals::requests;
use crate::differs::Differs;
use crate::joint::take_both;
use crate::joint_tables::{COUNTED, NEWEST_FIRST, TAGGED};
use crate::links::{busy_link, failing_link, giving_link};
use crate::makers::{client_over, counting_server, newest_server, plain_client, plain_server};
use crate::step::Step;
use crate::steps::did;
use crate::tables::{ASK_FOUR, FAULT, FOUR_SENT, MOST_ARRIVALS, RECEIVING_FAULT};
use endpoint_loop::{LinkFault, Turn};
use memory_count::Memory;
use rpc_outside::MemLink;
use std::alloc::Global;

/// One more datagram than a turn receives.
const ARRIVALS: u8 = 65;

/// How many calls are asked at once.
const CALLS: u32 = 4;

fn client_row(memory: Memory, link: MemLink, steps: &[Step]) -> Result<(), Differs> {
    let mut client = client_over(memory, link)?;
    client.take_all(steps)
}

/// A client takes these steps over a link that takes all.
pub fn plain(alloc: Global, steps: &[Step]) -> Result<(), Differs> {
    let mut client = plain_client(alloc)?;
    client.take_all(steps)
}

/// The first call of a link fails.
pub fn fault(alloc: Global) -> Result<(), Differs> {
    let mut memory = Memory::new(alloc);
    let link = failing_link(&mut memory, 0)?;
    client_row(memory, link, &FAULT)
}

/// More datagrams come than a turn receives.
pub fn turns(alloc: Global) -> Result<(), Differs> {
    let mut memory = Memory::new(alloc);
    let arrivals = requests(&mut memory, ARRIVALS)?;
    let link = giving_link(&mut memory, arrivals, Vec::new(alloc))?;
    client_row(memory, link, &MOST_ARRIVALS)
}

/// The first call of a link, which receives, fails.
pub fn receiving_fault(alloc: Global) -> Result<(), Differs> {
    let mut memory = Memory::new(alloc);
    let arrivals = requests(&mut memory, 1)?;
    let first = memory.copied(&[0u64])?;
    let link = giving_link(&mut memory, arrivals, first)?;
    client_row(memory, link, &RECEIVING_FAULT)
}

// Four calls are asked; the first poll answers so, and leaves all but so many to the second one.
fn send_four(
    memory: Memory,
    link: MemLink,
    first: Result<Turn, LinkFault>,
    sent: u32,
) -> Result<(), Differs> {
    let mut client = client_over(memory, link)?;
    client.take_all(&ASK_FOUR)?;
    client.expect_poll(first)?;
    client.expect_poll(did(0, CALLS.saturating_sub(sent)))?;
    client.take_all(&FOUR_SENT)
}

/// A busy link stops the sending, and the next poll sends the rest.
pub fn busy(alloc: Global) -> Result<(), Differs> {
    for send in 0..5u32 {
        let sent = send.min(CALLS);
        let first = Turn {
            handled: 0,
            sent,
            busy: send < CALLS,
        };
        let mut memory = Memory::new(alloc);
        let link = busy_link(&mut memory, u64::from(send))?;
        send_four(memory, link, Ok(first), sent)?;
    }
    Ok(())
}

/// A fault stops the sending too, and the poll answers it.
pub fn failing(alloc: Global) -> Result<(), Differs> {
    for call in 0..8u32 {
        let mut memory = Memory::new(alloc);
        let link = failing_link(&mut memory, u64::from(call))?;
        if call < CALLS {
            send_four(memory, link, Err(LinkFault), call)?;
        } else {
            send_four(memory, link, did(0, CALLS), CALLS)?;
        }
    }
    Ok(())
}

/// A service with a state of its own.
pub fn counted(alloc: Global) -> Result<(), Differs> {
    let mut client = plain_client(alloc)?;
    let mut server = counting_server(alloc)?;
    take_both(&mut client, &mut server, &COUNTED)
}

/// What was handed in with a call comes back with its end.
pub fn tagged(alloc: Global) -> Result<(), Differs> {
    let mut client = plain_client(alloc)?;
    let mut server = plain_server(alloc)?;
    take_both(&mut client, &mut server, &TAGGED)
}

/// Workers that finish jobs in another order than they were given.
pub fn newest_first(alloc: Global) -> Result<(), Differs> {
    let mut client = plain_client(alloc)?;
    let mut server = newest_server(alloc)?;
    take_both(&mut client, &mut server, &NEWEST_FIRST)
}
