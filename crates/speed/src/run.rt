//! A run: a client, its link, what is at the link's other end, and the clock.
use crate::fault::Fault;
use crate::json::Json;
use crate::options::Options;
use crate::report::{Report, Second};
use crate::server::Other;
use call_load::{Caller, Standing, Tally};
use memory_count::Memory;
use rpc_outside::Link;
use std::io::Write;
use std::time;

/// The nanoseconds of a second.
const SECOND: u64 = 1_000_000_000;

/// How long a run waits for its sessions, and for calls that are pending at its end.
const PATIENCE: u64 = 5 * SECOND;

/// How long a turn without packets waits while sessions open or close, in microseconds.
const NAP: u32 = 1_000;

// A line on standard error.
fn tell_second(rt: &HostRuntime, second: &Second) -> Result<(), Fault> {
    eprintln!(rt; "{second}").map_err(|_fault| Fault::Write)
}

// A line of JSON on standard output, or else lines on standard error.
fn tell(rt: &HostRuntime, is_json: bool, report: Report) -> Result<(), Fault> {
    let told = if is_json {
        println!(rt; "{}", Json(report))
    } else {
        eprintln!(rt; "{report}")
    };
    told.map_err(|_fault| Fault::Write)
}

/// What a run has.
pub struct Run<'a, L: Link, S: Other<L>, T: time::Clock> {
    memory: Memory,
    caller: Caller,
    link: L,
    other: S,
    clock: &'a T,
    // The time, in nanoseconds, as the clock told it last.
    now: u64,
}

// Written by hand, so that whoever lets one go makes a call.
impl<'a, L: Link + Drop, S: Other<L> + Drop, T: time::Clock> Drop for Run<'a, L, S, T> {
    fn drop(self) {
        let Run {
            memory: _memory,
            caller: _caller,
            link: _link,
            other: _other,
            clock: _,
            now: _,
        } = self;
    }
}

impl<'a, L: Link + Drop, S: Other<L> + Drop, T: time::Clock> Run<'a, L, S, T> {
    /// The client isn't connected yet.
    pub fn new(
        memory: Memory,
        caller: Caller,
        link: L,
        other: S,
        clock: &'a T,
    ) -> Run<'a, L, S, T> {
        Run {
            memory,
            caller,
            link,
            other,
            clock,
            now: 0,
        }
    }

    // Looks at the clock. Where it doesn't tell the time, no time went by.
    fn look(&mut self) {
        if let Ok(time) = self.clock.monotonic() {
            let now = u64::try_from(time.as_nanos()).unwrap_or(u64::MAX);
            self.now = self.now.max(now);
        }
    }

    // A turn of the client, and one of the link's other end. Whether the client handled packets.
    fn turn(&mut self) -> Result<bool, Fault> {
        let has_some = self
            .caller
            .turn(&mut self.memory, self.now, &mut self.link)?;
        self.other.turn(&mut self.memory, self.now, &mut self.link);
        self.look();
        if !self.caller.count(self.now) {
            return Err(Fault::NoMemory);
        }
        Ok(has_some)
    }

    // A turn that waits where nothing came.
    fn nap(&mut self) -> Result<(), Fault> {
        if !self.turn()? && !self.other.is_here() {
            self.link.wait(NAP);
            self.look();
        }
        Ok(())
    }

    // Binds the link, and opens the sessions.
    fn open(&mut self, options: &Options) -> Result<(), Fault> {
        if self.link.bind(options.bind).is_err() {
            return Err(Fault::Link);
        }
        let Ok(peer) = self.link.peer(options.addr) else {
            return Err(Fault::Link);
        };
        if options.numbers.frame > 0 {
            self.link.pack(peer, options.numbers.frame);
        }
        let credits = options.aim()?.credits;
        if !self.caller.connect(&mut self.memory, peer, credits) {
            return Err(Fault::NoMemory);
        }
        self.look();
        let end = self.now.saturating_add(PATIENCE);
        for _turn in 0..u64::MAX {
            match self.caller.standing() {
                Standing::Open => return Ok(()),
                Standing::Opening if self.now < end => self.nap()?,
                _ => return Err(Fault::NoServer),
            }
        }
        Err(Fault::NoServer)
    }

    // Asks calls until this time, or until all are over where there is a number of them.
    fn go_until(&mut self, end: u64) -> Result<(), Fault> {
        for _turn in 0..u64::MAX {
            if self.now >= end || self.caller.is_done() {
                break;
            }
            self.caller.ask_all(&mut self.memory, self.now);
            let _some = self.turn()?;
        }
        match self.caller.standing() {
            Standing::Open => Ok(()),
            _ => Err(Fault::Lost),
        }
    }

    // Waits for what is pending, and closes the sessions.
    fn end(&mut self) -> Result<(), Fault> {
        let end = self.now.saturating_add(PATIENCE);
        for _turn in 0..u64::MAX {
            if self.now >= end || self.caller.counts.tally.pending == 0 {
                break;
            }
            self.nap()?;
        }
        self.caller.close();
        for _turn in 0..u64::MAX {
            if self.now >= end || self.caller.standing() != Standing::Over {
                break;
            }
            self.nap()?;
        }
        Ok(())
    }

    // Counts calls until `end`, and tells of them as this second.
    fn count_second(&mut self, number: u32, end: u64) -> Result<Second, Fault> {
        let from = self.now;
        self.caller.counts.newest.clear();
        self.go_until(end)?;
        Ok(Second::of(&self.caller, number, self.now.saturating_sub(from)))
    }

    // Asks calls without counting them, then counts those of so many seconds, with a line each, and
    // tells what came.
    fn measure(&mut self, rt: &HostRuntime, options: &Options) -> Result<(), Fault> {
        let warm = u64::from(options.numbers.warm) * SECOND;
        self.go_until(self.now.saturating_add(warm))?;
        self.caller.begin(self.now);
        let began = self.now;
        for number in 0..options.numbers.secs {
            let end = began.saturating_add((u64::from(number) + 1) * SECOND);
            let second = self.count_second(number, end)?;
            if !options.json {
                tell_second(rt, &second)?;
            }
        }
        let report = Report::of(&self.caller, self.now.saturating_sub(began));
        self.end()?;
        tell(rt, options.json, report)
    }

    // Asks its number of calls.
    fn ask_all(&mut self) -> Result<(), Fault> {
        self.caller.begin(self.now);
        self.go_until(self.now.saturating_add(PATIENCE))?;
        self.end()
    }

    /// Opens the sessions, asks a row's calls or measures, and tells how the calls ended.
    pub fn go(&mut self, rt: &HostRuntime, options: &Options) -> Result<Tally, Fault> {
        self.open(options)?;
        if options.is_row {
            self.ask_all()?;
        } else {
            self.measure(rt, options)?;
        }
        Ok(self.caller.counts.tally)
    }
}
