//! Two hands at once: one job waits in its handler until another was answered.
ghost use Rattle.std.specs.Prelude.{◌≡◌, [], map, IfOk, length};
ghost use Rattle.memory_count.specs.Faults.{HasCause};
ghost use Rattle.worker_crew.specs.Hands.{name_of};
ghost use Rattle.worker_crew.specs.Jobs.{HasRoom};
ghost use Rattle.worker_crew.specs.Spawning.{Started, CameBack};

use crate::crews::take_one;
use crate::jobs::no_memory;
use memory_count::{Memory, NoMemory};
use message_buffer::MsgBuf;
use rpc_base::{RequestNo, SessionNo};
use rpc_outside::Duty;
use std::sync::atomic::{AtomicBool, Ordering};
use std::sync::{Arc, Wait};
use std::thread::Threads;
use std::{io, thread};
use worker_board::Parcel;
use worker_crew::{Crew, Hand, Spawner, Workers};

/// A handler looks so often for the other's end.
const TURNS: u32 = 50_000_000;

/// An echo. A request of type 1 waits until one of another type was answered.
#[derive(Drop)]
struct Gate {
    is_open: AtomicBool,
    was_late: AtomicBool,
}

impl Gate {
    fn pass(&self) {
        for _ in 0..TURNS {
            if self.is_open.load(Ordering::SeqCst) {
                return;
            }
            thread::yield_now();
        }
        self.was_late.store(true, Ordering::SeqCst);
    }
}

impl Duty for Gate {
    ghost answer = { λ _ ask. ask };

    fn handle(&self, req_type: u8, ask: &[u8], out: &mut [u8])
        requires room { length ask.now ≡ length out.old }
        ensures answer { out.new ≡ ask.now }
    {
        if req_type == 1 {
            self.pass();
        }
        out.copy_from_slice(ask);
        self.is_open.store(true, Ordering::SeqCst);
    }
}

/// An echo of one byte.
fn echo_of(memory: &mut Memory, req_type: u8) -> Result<Parcel, NoMemory>
    ensures room { IfOk result (HasRoom (λ _ ask. ask)) }
    ensures cause { HasCause memory.old memory.new result }
{
    let mut ask = MsgBuf::new(memory, 1)?;
    ask.set_len(1);
    let mut out = MsgBuf::new(memory, 1)?;
    out.set_len(1);
    Ok(Parcel {
        session: SessionNo(0),
        request: RequestNo::of(0, 0),
        req_type,
        ask,
        out,
    })
}

/// Keeps each hand as started, and runs it nowhere.
#[derive(Drop)]
struct Shelf {
    hands: Vec<Hand<Gate>>,
    refused: u64,
}

impl Spawner<Hand<Gate>> for Shelf {
    ghost refused = { λ s. s.refused };

    ghost hands_out = { λ s. map (λ (h : _). name_of h) s.hands.items };

    fn start(&mut self, hand: Hand<Gate>) -> Result<(), Hand<Gate>>
        ensures { Started name_of (name_of hand) self.old.refused self.new.refused
            (map (λ (h : _). name_of h) self.old.hands.items)
            (map (λ (h : _). name_of h) self.new.hands.items) result }
    {
        if self.hands.try_reserve(1).is_err() {
            self.refused = self.refused.saturating_add(1);
            return Err(hand);
        }
        self.hands.push_reserved(hand);
        Ok(())
    }

    fn finish(&mut self) -> Option<Hand<Gate>>
        ensures { CameBack name_of self.old.refused self.new.refused
            (map (λ (h : _). name_of h) self.old.hands.items)
            (map (λ (h : _). name_of h) self.new.hands.items) result }
    {
        let hand = self.hands.pop()?;
        Some(hand)
    }
}

/// Works one job; false where none came.
fn work_one<D: Duty + Drop, R: Wait>(rt: &R, hand: Hand<D>) -> bool {
    let mut hand = hand;
    for _ in 0..TURNS {
        if hand.step(rt) {
            return true;
        }
        thread::yield_now();
    }
    false
}

/// Takes two jobs, each once it is done, and tells their types.
fn take_two<D: Duty + Drop, R: Wait + Drop>(crew: Crew<D, R>) -> (Option<u8>, Option<u8>) {
    let mut crew = crew;
    let first = take_one(&mut crew).map(|finished| finished.parcel.req_type);
    let second = take_one(&mut crew).map(|finished| finished.parcel.req_type);
    (first, second)
}

/// Two hands work on threads of their own, while the crew's jobs are taken.
fn work_two<D: Duty + Drop + Send + Sync + 'static, R: Threads + Wait + Sync + Drop>(
    rt: &R,
    one: Hand<D>,
    two: Hand<D>,
    crew: Crew<D, R>,
) -> (Option<u8>, Option<u8>) {
    let (_, (_, taken)) = thread::join(
        rt,
        || work_one(rt, one),
        || thread::join(rt, || work_one(rt, two), || take_two(crew)),
    );
    taken
}

// Gives two jobs to a crew of two hands, the first of which waits for the second, and takes both.
fn give_two<R: Print + Threads + Wait + Copy + Send + Sync + 'static>(
    memory: &mut Memory,
    rt: R,
    crew: Crew<Gate, R>,
    shelf: &mut Shelf,
    late: &Gate,
) -> io::Result<()> {
    let mut crew = crew;
    let (Ok(first), Ok(second)) = (echo_of(memory, 1), echo_of(memory, 2)) else {
        return Err(no_memory());
    };
    let given = crew.give(first).is_ok() && crew.give(second).is_ok();
    let (Some(one), Some(two)) = (shelf.finish(), shelf.finish()) else {
        return println!(rt; "  fewer than two hands");
    };
    let (first, second) = work_two(&rt, one, two, crew);
    let (least, most) = (first.min(second), first.max(second));
    let was_late = late.was_late.load(Ordering::SeqCst);
    println!(rt; "  given: {given}, worked: {least:?} and {most:?}, too late: {was_late}")
}

/// Tells whether both come back worked.
pub fn two_hands<R: Print + Threads + Wait + Copy + Send + Sync + 'static>(
    memory: &mut Memory,
    rt: R,
) -> io::Result<()> {
    let mut shelf = Shelf {
        hands: Vec::new(memory.alloc()),
        refused: 0,
    };
    let gate = Gate {
        is_open: AtomicBool::new(false),
        was_late: AtomicBool::new(false),
    };
    let gate = Arc::new(memory.alloc(), gate)?;
    let seen = Arc::try_clone(&gate)?;
    let Ok(crew) = Crew::start(memory, rt, gate, 2, 2, &mut shelf) else {
        return Err(no_memory());
    };
    give_two(memory, rt, crew, &mut shelf, &seen)
}
