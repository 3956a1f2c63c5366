//! The calls of a session that aren't over: those that began lie apart from those that wait.
ghost use Rattle.std.specs.Prelude.{◌≡◌, ◌==◌, ◌≤◌, ◌<◌, ◌+◌, ◌++◌, [], length, slice_get, Some};
ghost use Rattle.std.specs.Prelude.{OnOk};
ghost use Rattle.std.specs.List.{AllByRecursion, list_any, position};
ghost use Rattle.std.specs.Borrow.{sem};
ghost use Rattle.memory_count.specs.Faults.{HasCause};
ghost use Rattle.rpc_base.specs.Tables.{at_first, without_first};
ghost use Rattle.rpc_laws.specs.BegunPart.{IsBegunAt, IsBegunPart, IsWaiting, with_progress};
ghost use Rattle.rpc_laws.specs.Calls.{asking, is_call, is_waiting};

use crate::tables::{Asking, Call, Progress};
use memory_count::{Memory, NoMemory};
use rpc_base::CallNo;
use std::alloc::Global;
use std::collections::VecDeque;
use std::marker::Model;

/// The calls of a session that aren't over, in the order in which they were accepted. Contracts see
/// their list. It is kept in two parts, so that what is asked of the calls that began costs no more
/// where many wait behind them: those up to the last that began, at most eight where each rule is
/// kept, and those behind it.
#[derive(Debug, Drop)]
pub struct Calls {
    begun: Vec<Call>,
    waiting: VecDeque<Call>,
}

impl Model for Calls {
    ghost use Rattle.std.specs.Prelude.{List, ◌++◌};
    ghost use Rattle.std.specs.List.{AllByRecursion};
    ghost use Rattle.rpc_laws.specs.declared.tables.Call.{Call};
    ghost use Rattle.rpc_laws.specs.BegunPart.{IsWaiting};

    ghost Value = { List Call };

    ghost view = { λ c. c.begun.items ++ c.waiting.items };

    ghost invariant = { λ c. AllByRecursion IsWaiting c.waiting.items };
}

// So many of the calls that wait go over to those that began, in their order.
fn bring(
    memory: &mut Memory,
    begun: &mut Vec<Call>,
    waiting: &mut VecDeque<Call>,
    count: usize,
) -> Result<(), NoMemory>
    requires { count ≤ length waiting.old.items }
    ensures calls { OnOk result
        (begun.new.items ++ waiting.new.items ≡ begun.old.items ++ waiting.old.items) }
    ensures count { OnOk result (length begun.new.items ≡ length begun.old.items + count) }
    ensures waits { AllByRecursion IsWaiting waiting.old.items
        → AllByRecursion IsWaiting waiting.new.items }
    ensures cause { HasCause memory.old memory.new result }
{
    for _i in 0..count {
        let Some(call) = waiting.pop_front() else {
            unreachable!()
        };
        memory.push(begun, call)?;
    }
    Ok(())
}

// Where the call of this number stands among those that began.
fn place_among(begun: &[Call], number: CallNo) -> Option<usize>
    ensures { result ≡ position (is_call number) begun.now }
{
    begun.iter().position(|call| call.what.number.0 == number.0)
}

// Where it stands among those that wait.
fn place_behind(waiting: &VecDeque<Call>, number: CallNo) -> Option<usize>
    ensures { result ≡ position (is_call number) waiting.now.items }
{
    waiting
        .iter()
        .position(|call| call.what.number.0 == number.0)
}

// Where the first stands that waits, among those that began.
fn waiting_among(begun: &[Call]) -> Option<usize>
    ensures { result ≡ position is_waiting begun.now }
{
    begun.iter().position(|call| call.progress.is_none())
}

// Where it stands behind them.
fn waiting_behind(waiting: &VecDeque<Call>) -> Option<usize>
    ensures { result ≡ position is_waiting waiting.now.items }
{
    waiting.iter().position(|call| call.progress.is_none())
}

// The call of this number, if it waits, is over.
fn end_behind(waiting: &mut VecDeque<Call>, number: CallNo)
    ensures { waiting.new.items ≡ without_first (is_call number) waiting.old.items }
{
    if let Some(place) = place_behind(waiting, number) {
        waiting.remove(place);
    }
}

impl Calls {
    ghost use Rattle.rpc_laws.specs.CallsLoan.{lends_call};

    /// No call. It takes no memory yet.
    pub fn new(alloc: Global) -> Calls
        ensures { result ≡ [] }
    {
        Calls {
            begun: Vec::new(alloc),
            waiting: VecDeque::new(alloc),
        }
    }

    /// How many calls there are.
    pub fn len(&self) -> usize
        ensures { result ≡ length self.now }
    {
        self.begun.len() + self.waiting.len()
    }

    pub fn is_empty(&self) -> bool
        ensures { result ≡ (length self.now == 0) }
    {
        self.len() == 0
    }

    /// Lends call `i`, which has to be there.
    pub fn at(&self, i: usize) -> &Call
        requires { i < length self.now }
        ensures { slice_get self.now i ≡ Some result.now }
    {
        let begun = self.begun.len();
        if i < begun {
            return &self.begun[i];
        }
        &self.waiting[i - begun]
    }

    /// Lends the calls up to the last that began: each behind them waits.
    pub fn begun(&self) -> &[Call]
        ensures { IsBegunPart result.now self.now }
    {
        self.begun.as_slice()
    }

    /// Where the first call stands that waits.
    pub fn place_of_waiting(&self) -> Option<usize>
        ensures { result ≡ position is_waiting self.now }
    {
        match waiting_among(self.begun.as_slice()) {
            Some(place) => Some(place),
            None => match waiting_behind(&self.waiting) {
                Some(place) => Some(self.begun.len() + place),
                None => None,
            },
        }
    }

    /// Where the call of this number stands.
    pub fn place_of(&self, number: CallNo) -> Option<usize>
        ensures { result ≡ position (is_call number) self.now }
    {
        match place_among(self.begun.as_slice(), number) {
            Some(place) => Some(place),
            None => match place_behind(&self.waiting, number) {
                Some(place) => Some(self.begun.len() + place),
                None => None,
            },
        }
    }

    /// Whether the call of this number is there.
    pub fn has(&self, number: CallNo) -> bool
        ensures { result ≡ list_any (is_call number) self.now }
    {
        self.place_of(number).is_some()
    }

    /// A call more, which waits. `NoMemory` comes only where memory was refused.
    pub fn ask(&mut self, memory: &mut Memory, what: Asking) -> Result<(), NoMemory>
        ensures calls { OnOk result (self.new ≡ asking what self.old) }
        ensures cause { HasCause memory.old memory.new result }
    {
        let call = Call {
            what,
            progress: None,
        };
        memory
            .push_back(&mut self.waiting, call)
            .map_err(|_call| NoMemory)
    }

    /// The call of this number, if it is there, begins with this progress. `NoMemory` comes only
    /// where memory was refused, and then it isn't told what the calls are.
    pub fn begin(
        &mut self,
        memory: &mut Memory,
        number: CallNo,
        progress: Progress,
    ) -> Result<(), NoMemory>
        ensures calls { OnOk result
            (self.new ≡ at_first (is_call number) (with_progress progress) self.old) }
        ensures cause { HasCause memory.old memory.new result }
    {
        let Some(place) = self.place_of(number) else {
            return Ok(());
        };
        let count = (place + 1).saturating_sub(self.begun.len());
        bring(memory, &mut self.begun, &mut self.waiting, count)?;
        self.begun[place].progress = Some(progress);
        Ok(())
    }

    /// Lends call `i`, which has to have begun, to be changed.
    pub fn at_mut(&mut self, i: usize) -> &mut Call
        requires { IsBegunAt i self.old }
        ensures* writes_back { sem 𝓛 (lends_call self.entry i result) }
        ensures value { slice_get self.old i ≡ Some result.now }
    {
        &mut self.begun[i]
    }

    /// The call of this number, if it is there, is over.
    pub fn end(&mut self, number: CallNo)
        ensures { self.new ≡ without_first (is_call number) self.old }
    {
        if let Some(place) = place_among(self.begun.as_slice(), number) {
            self.begun.remove(place);
            return;
        }
        end_behind(&mut self.waiting, number);
    }
}
