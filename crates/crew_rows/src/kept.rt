//! A crew of one hand, which is stepped when a row says so.
ghost use Rattle.std.specs.Prelude.{◌≡◌, [], map, option_to_list};
ghost use Rattle.worker_crew.specs.Crews.{SameHands};
ghost use Rattle.worker_crew.specs.Hands.{name_of};
ghost use Rattle.worker_crew.specs.Spawning.{CameBack, Started};

use crate::crews::{PlainCrew, call, tell_left};
use crate::jobs::no_memory;
use crate::step::Step;
use memory_count::Memory;
use rpc_outside::PlainDuty;
use std::io;
use std::sync::{Arc, Wait};
use worker_board::MOST_PLACES;
use worker_crew::{Crew, Hand, Spawner};

/// Keeps one hand as started, and runs it nowhere.
#[derive(Drop)]
struct Keeper {
    hand: Option<Hand<PlainDuty>>,
    refused: u64,
}

impl Spawner<Hand<PlainDuty>> for Keeper {
    ghost refused = { λ k. k.refused };

    ghost hands_out = { λ k. map (λ (h : _). name_of h) (option_to_list k.hand) };

    fn start(&mut self, hand: Hand<PlainDuty>) -> Result<(), Hand<PlainDuty>>
        ensures { Started name_of (name_of hand) self.old.refused self.new.refused
            (map (λ (h : _). name_of h) (option_to_list self.old.hand))
            (map (λ (h : _). name_of h) (option_to_list self.new.hand)) result }
    {
        if self.hand.is_some() {
            self.refused = self.refused.saturating_add(1);
            return Err(hand);
        }
        self.hand = Some(hand);
        Ok(())
    }

    fn finish(&mut self) -> Option<Hand<PlainDuty>>
        ensures { CameBack name_of self.old.refused self.new.refused
            (map (λ (h : _). name_of h) (option_to_list self.old.hand))
            (map (λ (h : _). name_of h) (option_to_list self.new.hand)) result }
    {
        self.hand.take()
    }
}

// Whether the kept hand worked a ticket.
fn step<R: Wait>(rt: &R, keeper: &mut Keeper) -> bool
    ensures { map (λ (h : _). name_of h) (option_to_list keeper.new.hand)
        ≡ map (λ (h : _). name_of h) (option_to_list keeper.old.hand) }
{
    match &mut keeper.hand {
        Some(hand) => hand.step(rt),
        None => false,
    }
}

// Tells what each call answers, of the crew or of its hand.
fn call_all<R: Print + Wait>(
    memory: &mut Memory,
    rt: &R,
    crew: &mut PlainCrew<R>,
    keeper: &mut Keeper,
    calls: &str,
) -> io::Result<()>
    ensures crew { SameHands crew.old crew.new }
    ensures hand { map (λ (h : _). name_of h) (option_to_list keeper.new.hand)
        ≡ map (λ (h : _). name_of h) (option_to_list keeper.old.hand) }
{
    for line in calls.lines() {
        print!(rt; "  {line}: ")?;
        if line == "step" {
            let worked = step(rt, keeper);
            println!(rt; "{worked}")?;
        } else {
            call(memory, rt, crew, Step::read(line))?;
        }
    }
    Ok(())
}

/// Makes a crew, calls it and its hand, and stops it.
pub fn drive<R: Print + Wait + Copy>(
    memory: &mut Memory,
    rt: R,
    jobs: u32,
    calls: &str,
) -> io::Result<()> {
    if jobs == 0 || MOST_PLACES < jobs {
        return println!(rt; "no such crew");
    }
    let duty = Arc::new(memory.alloc(), PlainDuty)?;
    let mut keeper = Keeper {
        hand: None,
        refused: 0,
    };
    let Ok(mut crew) = Crew::start(memory, rt, duty, jobs, 1, &mut keeper) else {
        return Err(no_memory());
    };
    let told = call_all(memory, &rt, &mut crew, &mut keeper, calls);
    let mut left = crew.stop(&mut keeper);
    tell_left(&rt, &mut left)?;
    told
}
