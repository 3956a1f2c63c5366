//! A crew is made: its memory first, then its hands.
ghost use Rattle.std.specs.Prelude.{◌≡◌, ◌≤◌, ◌<◌, ◌-◌, ◌+◌, ◌++◌, ◌↔◌, [], length, true, false};
ghost use Rattle.std.specs.Prelude.{IfOk};
ghost use Rattle.std.specs.Prelude.{OnErr, vec_len, vec_capacity, ℕ, List};
ghost use Rattle.std.specs.VecDeque.{deque_capacity};
ghost use Rattle.memory_count.specs.Faults.{HasCause, HasRisenBy};
ghost use Rattle.worker_crew.specs.Crews.{AreOut, AreStarted, KeepsTo};
ghost use Rattle.worker_crew.specs.Crews.{has_hands, kept_by, names};
ghost use Rattle.worker_crew.specs.Places.{TookNoneBack};
ghost use Rattle.worker_crew.specs.Dispatching.{jobs_in};
ghost use Rattle.worker_crew.specs.Hands.{HandName};
ghost use Rattle.worker_crew.specs.Starting.{HaveGoneOut, SameJobs, Shared};

use super::Crew;
use crate::dispatcher::Dispatcher;
use crate::hand::Hand;
use crate::manner::Manner;
use crate::spawner::Spawner;
use crate::workers::Finished;
use circular_buffer::HeapCircularBuffer;
use memory_count::{Memory, NoMemory};
use place_queue::Wakers;
use rpc_outside::Duty;
use std::alloc::Global;
use std::collections::VecDeque;
use std::sync::{Arc, Wait};
use worker_board::{MOST_PLACES, Ticket};

/// A crew has no more hands.
pub const MOST_HANDS: u8 = 16;

// Room for so many tickets that find the queue full.
fn no_tickets(memory: &mut Memory, room: usize) -> Result<HeapCircularBuffer<Ticket>, NoMemory>
    ensures empty { IfOk result (λ later. later.items ≡ []) }
    ensures room { IfOk result (λ later. later.capacity ≡ room) }
    ensures cause { HasCause memory.old memory.new result }
{
    let made = HeapCircularBuffer::with_capacity(memory.alloc(), room);
    memory.of(made)
}

// Makes hands with the numbers from 0 on, each with a parker of its own.
fn make_hands<D: Duty + Drop>(
    memory: &mut Memory,
    dispatcher: &mut Dispatcher<D>,
    duty: &Arc<D, Global>,
    wakers: &mut Wakers,
    count: u8,
) -> Result<VecDeque<Hand<D>>, NoMemory>
    requires new { HaveGoneOut 0 [] dispatcher.old dispatcher.old }
    ensures made { IfOk result (λ made. HaveGoneOut count (names made.items) dispatcher.old
        dispatcher.new) }
    ensures cause { HasCause memory.old memory.new result }
{
    let mut made = memory.queue(count as usize)?;
    for number in 0..count {
        let sleeper = wakers.sleeper(memory)?;
        let hand = dispatcher.hand(memory, duty, sleeper, number)?;
        made.push_back_reserved(hand);
    }
    Ok(made)
}

// Offers each hand to the spawner, and keeps those that it hands back.
fn start_each<D: Duty + Drop, P: Spawner<Hand<D>>>(
    made: VecDeque<Hand<D>>,
    kept: &mut Vec<Hand<D>>,
    spawner: &mut P,
)
    requires none { (kept.old.items ≡ []) × (P.hands_out spawner.old ≡ []) }
    requires room { length made.items ≤ vec_capacity kept.old }
    ensures shared { Shared (names made.items) (P.hands_out spawner.new)
        (names kept.new.items) }
    ensures refused { HasRisenBy (vec_len kept.new) (P.refused spawner.old)
        (P.refused spawner.new) }
{
    let mut made = made;
    while let Some(hand) = made.pop_front() {
        if let Err(hand) = spawner.start(hand) {
            kept.push_reserved(hand);
        }
    }
}

// Takes in hands that were handed back.
pub(super) fn retire_each<D: Duty + Drop>(dispatcher: &mut Dispatcher<D>, hands: Vec<Hand<D>>)
    requires { AreOut dispatcher.old.board dispatcher.old.view.out (names hands.items) }
    ensures out { dispatcher.new.view.out ≡ [] }
    ensures jobs { SameJobs dispatcher.old dispatcher.new }
    ensures used { dispatcher.new.view.used ≡ dispatcher.old.view.used }
{
    let mut hands = hands;
    while let Some(hand) = hands.pop() {
        dispatcher.retire(hand);
    }
}

// Offers the hands to the spawner. Where none was started they are taken in.
fn share_out<D: Duty + Drop, P: Spawner<Hand<D>>>(
    dispatcher: &mut Dispatcher<D>,
    duty: Arc<D, Global>,
    made: VecDeque<Hand<D>>,
    kept: Vec<Hand<D>>,
    spawner: &mut P,
) -> Manner<D>
    requires out { AreOut dispatcher.old.board dispatcher.old.view.out (names made.items) }
    requires new { TookNoneBack dispatcher.old.view }
    requires unput { dispatcher.old.put ≡ [] }
    requires none { (kept.items ≡ []) × (P.hands_out spawner.old ≡ []) }
    requires room { length made.items ≤ vec_capacity kept }
    ensures jobs { SameJobs dispatcher.old dispatcher.new }
    ensures used { dispatcher.new.view.used ≡ dispatcher.old.view.used }
    ensures started { AreOut dispatcher.new.board dispatcher.new.view.out
        (P.hands_out spawner.new ++ kept_by result) }
    ensures many { length (P.hands_out spawner.new) ≤ length made.items }
    ensures shared { has_hands result ≡ true
        → length (P.hands_out spawner.new) + length (kept_by result) ≡ length made.items }
    ensures beside { (has_hands result ≡ true) ↔ (0 < length (P.hands_out spawner.new)) }
    ensures refused { HasRisenBy (length made.items - length (P.hands_out spawner.new))
        (P.refused spawner.old) (P.refused spawner.new) }
    ensures keeps { KeepsTo (record {
      dispatching = dispatcher.new;
      by_hands = has_hands result;
      kept = kept_by result;
      later = [];
    }) }
{
    let mut kept = kept;
    let count = made.len();
    start_each(made, &mut kept, spawner);
    if kept.len() < count {
        Manner::ByHands(kept)
    } else {
        retire_each(dispatcher, kept);
        Manner::Alone(duty)
    }
}

impl<D: Duty + Drop, R: Wait> Crew<D, R> {
    /// Makes a crew that takes `jobs` jobs, 1 to 1,024, and offers each of `hands` hands, at most
    /// 16, to the spawner, which has no hand out. Hands that are handed back stay with the crew;
    /// where no hand was started they are retired, and the crew works by itself. Its memory is
    /// taken before a hand is started; where there is none the spawner is as before.
    pub fn start<P: Spawner<Hand<D>>>(
        memory: &mut Memory,
        rt: R,
        duty: Arc<D, Global>,
        jobs: u32,
        hands: u8,
        spawner: &mut P,
    ) -> Result<Crew<D, R>, NoMemory>
    where
        R: Drop,
        requires jobs { (0 < jobs) × (jobs ≤ MOST_PLACES) }
        requires hands { hands ≤ MOST_HANDS }
        requires none { P.hands_out spawner.old ≡ [] }
        ensures limit { IfOk result (λ c. c.dispatching.places ≡ jobs) }
        ensures given { IfOk result (λ c. c.dispatching.given ≡ 0) }
        ensures empty { IfOk result (λ c. jobs_in c.dispatching ≡ []) }
        ensures made { IfOk result (λ c. length c.dispatching.view.used ≡ hands) }
        ensures started { IfOk result (λ c. AreStarted c (P.hands_out spawner.new)) }
        ensures shared { IfOk result (λ c. c.by_hands ≡ true
            → length (P.hands_out spawner.new) + length c.kept ≡ hands) }
        ensures beside { IfOk result (λ c. (c.by_hands ≡ true)
            ↔ (0 < length (P.hands_out spawner.new))) }
        ensures refused { IfOk result (λ c. HasRisenBy (hands - length (P.hands_out spawner.new))
            (P.refused spawner.old) (P.refused spawner.new)) }
        ensures unput { IfOk result (λ c. (c.dispatching.put ≡ []) × (c.later ≡ [])) }
        ensures keeps { IfOk result (λ c. KeepsTo c) }
        ensures wanting { OnErr result (spawner.new ≡ spawner.old) }
        ensures cause { HasCause memory.old memory.new result }
    {
        let mut dispatcher = Dispatcher::new(memory, jobs)?;
        let mut wakers = Wakers::new(memory, hands)?;
        let later = no_tickets(memory, jobs as usize)?;
        let left = memory.queue(jobs as usize)?;
        let kept = memory.list(hands as usize)?;
        let made = make_hands(memory, &mut dispatcher, &duty, &mut wakers, hands)?;
        let manner = share_out(&mut dispatcher, duty, made, kept, spawner);
        Ok(Crew {
            rt,
            dispatcher,
            manner,
            wakers,
            later,
            left,
        })
    }
}
