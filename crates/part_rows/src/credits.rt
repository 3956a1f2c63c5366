//! The book of credits: `charge SLOT`, `back SLOT`, `roll SLOT` and `show SLOT`.
use crate::part::{Part, call_all, tell_no_call};
use crate::step::Step;
use credit_book::CreditBook;
use memory_count::Memory;
use rpc_base::MOST_CREDITS;
use std::io;

/// The slots of a session.
const SLOTS: u8 = 8;

/// Makes a book of this limit, and tells the free credits and the slot's packets after each call.
pub fn drive(rt: &impl Print, memory: &mut Memory, limit: u16, calls: &str) -> io::Result<()> {
    if limit < 1 || MOST_CREDITS < limit {
        return println!(rt; "no such book");
    }
    call_all(rt, memory, &mut CreditBook::new(limit), calls)
}

fn show(rt: &impl Print, book: &CreditBook, slot: u8) -> io::Result<()> {
    let slot = slot % SLOTS;
    println!(rt;
        "free {}, slot {slot} has {}",
        book.free(),
        book.unanswered(slot)
    )
}

fn charge(rt: &impl Print, book: &mut CreditBook, slot: u8) -> io::Result<()> {
    let slot = slot % SLOTS;
    if book.free() == 0 {
        return println!(rt; "no credit");
    }
    book.charge(slot);
    show(rt, book, slot)
}

fn give_back(rt: &impl Print, book: &mut CreditBook, slot: u8) -> io::Result<()> {
    let slot = slot % SLOTS;
    if book.unanswered(slot) == 0 {
        return println!(rt; "no packet");
    }
    book.give_back(slot);
    show(rt, book, slot)
}

fn roll(rt: &impl Print, book: &mut CreditBook, slot: u8) -> io::Result<()> {
    let slot = slot % SLOTS;
    let count = book.roll(slot);
    print!(rt; "{count} came, ")?;
    show(rt, book, slot)
}

impl Part for CreditBook {
    fn call<R: Print>(&mut self, rt: &R, _memory: &mut Memory, step: Step) -> io::Result<()> {
        match step.name {
            "charge" => charge(rt, self, step.byte(0)),
            "back" => give_back(rt, self, step.byte(0)),
            "roll" => roll(rt, self, step.byte(0)),
            "show" => show(rt, self, step.byte(0)),
            _ => tell_no_call(rt),
        }
    }
}
