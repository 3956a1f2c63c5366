//! A client's endpoint, its sessions and its calls.
ghost use Rattle.std.specs.Prelude.{◌≡◌, ◌<◌, ◌≤◌, ◌↔◌, true, IfOk, IsTrue, MatchBool, OnErr};
ghost use Rattle.call_load.specs.Aims.{IsInRange};
ghost use Rattle.call_load.specs.Callers.{AllConnected, AreAsked, AreOver, AsksMore, EndsSome};
ghost use Rattle.call_load.specs.Callers.{answered_of, asked_of};
ghost use Rattle.call_load.specs.Counts.{AsksOne, BeginsAnew, CountsNone, CountsTurn};
ghost use Rattle.call_load.specs.declared.tally.TheConstants.{MOST_CALLS};
ghost use Rattle.endpoint_loop.specs.declared.endpoint.poll.Turn.{Turn};
ghost use Rattle.memory_count.specs.Faults.{HasCause};

use crate::aim::Aim;
use crate::counts::Counts;
use crate::ended::Ended;
use crate::slots::{Ready, Slots};
use crate::tally::Ending;
use crate::watch::Watch;
use client_core::Done;
use endpoint_loop::{Endpoint, LinkFault};
use memory_count::{Memory, NoMemory};
use packet_header::{FIRST_LIFE, Life};
use rpc_base::{
    Limits, MOST_CREDITS, NodeId, Peer, SessionNo, SessionState, USUAL_JOBS, USUAL_RING,
};
use rpc_outside::{Link, PlainDuty, PlainService};
use worker_crew::LocalWorkers;

/// The nanoseconds of a microsecond, in which an endpoint counts, and of a second.
const MICROSECOND: u64 = 1_000;

const SECOND: u64 = 1_000_000_000;

type PlainNode = Endpoint<PlainService, LocalWorkers<PlainDuty>>;

/// How far the sessions are.
#[derive(Clone, Copy, Debug, PartialEq, Eq)]
pub enum Standing {
    /// One isn't connected yet.
    Opening,
    /// Each is connected.
    Open,
    /// Each is over, or begins to close.
    Over,
    /// One failed or lost its peer.
    Broken,
}

/// A client's endpoint, with its sessions, its calls, and what came of them.
pub struct Caller {
    endpoint: PlainNode,
    aim: Aim,
    slots: Slots,
    ended: Ended,
    // When the next call is to be asked, where they have set times, in nanoseconds.
    due: u64,
    /// What the endpoint noted.
    pub watch: Watch,
    /// What came of the calls.
    pub counts: Counts,
}

// Written by hand, so that whoever lets one go makes a call.
impl Drop for Caller {
    fn drop(self) {
        let Caller {
            endpoint: _endpoint,
            aim: _,
            slots: _slots,
            ended: _ended,
            due: _,
            watch: _,
            counts: _counts,
        } = self;
    }
}

fn plain_node(memory: &mut Memory, timeout: u64) -> Result<PlainNode, NoMemory>
    requires some { 1 ≤ timeout }
    requires most { timeout ≤ 60000000 }
    ensures cause { HasCause memory.old memory.new result }
{
    let workers = LocalWorkers::new(memory, PlainDuty, USUAL_JOBS)?;
    let limits = Limits {
        ring: USUAL_RING,
        jobs: USUAL_JOBS,
        timeout,
    };
    let (life, service) = (Life(FIRST_LIFE), PlainService::new());
    match Endpoint::new(memory, NodeId(0), life, limits, service, workers) {
        Ok(endpoint) => Ok(endpoint),
        Err(_workers) => Err(NoMemory),
    }
}

impl Caller {
    /// An endpoint without sessions, and all buffers of its calls.
    pub fn new(memory: &mut Memory, aim: Aim) -> Result<Caller, NoMemory>
        requires { IsInRange aim }
        ensures aim { IfOk result (λ c. c.aim ≡ aim) }
        ensures counts { IfOk result (λ c. CountsNone c.counts) }
        ensures cause { HasCause memory.old memory.new result }
    {
        let slots = Slots::new(memory, &aim)?;
        let ended = Ended::new(memory, aim.pending)?;
        let counts = Counts::new(memory)?;
        let endpoint = plain_node(memory, aim.timeout)?;
        Ok(Caller {
            endpoint,
            aim,
            slots,
            ended,
            due: 0,
            watch: Watch::new(),
            counts,
        })
    }

    /// Opens its sessions with the server at this peer, each with these credits. Whether each was
    /// opened.
    pub fn connect(&mut self, memory: &mut Memory, peer: Peer, credits: u16) -> bool
        requires some { 1 ≤ credits }
        requires most { credits ≤ MOST_CREDITS }
        ensures aim { self.new.aim ≡ self.old.aim }
        ensures counts { self.new.counts ≡ self.old.counts }
    {
        let mut is_whole = true;
        'sessions: for _session in 0..self.aim.sessions {
            let opened = self
                .endpoint
                .connect(memory, peer, credits, 0, &mut self.watch);
            is_whole = is_whole && opened.is_ok();
        }
        is_whole
    }

    // Whether each session is connected.
    fn is_open(&self) -> bool
        ensures { result ≡ true → AllConnected self.now }
    {
        'sessions: for number in 0..self.aim.sessions {
            match self.endpoint.state(SessionNo(number)) {
                SessionState::Connected => {}
                _ => return false,
            }
        }
        true
    }

    // Whether a session failed or lost its peer.
    fn is_broken(&self) -> bool {
        'sessions: for number in 0..self.aim.sessions {
            match self.endpoint.state(SessionNo(number)) {
                SessionState::Failed | SessionState::Broken => return true,
                _ => {}
            }
        }
        false
    }

    // Whether a session is over, or begins to close.
    fn is_over(&self) -> bool {
        'sessions: for number in 0..self.aim.sessions {
            match self.endpoint.state(SessionNo(number)) {
                SessionState::Closed | SessionState::Closing => return true,
                _ => {}
            }
        }
        false
    }

    /// How far its sessions are.
    pub fn standing(&self) -> Standing
        ensures { result ≡ Standing.Open → AllConnected self.now }
    {
        if self.is_broken() {
            return Standing::Broken;
        }
        if self.is_open() {
            return Standing::Open;
        }
        if self.is_over() {
            Standing::Over
        } else {
            Standing::Opening
        }
    }

    /// Counts anew: of what was counted so far only the calls that are pending stay. Calls with set
    /// times are asked from `now` on, in nanoseconds.
    pub fn begin(&mut self, now: u64)
        ensures aim { self.new.aim ≡ self.old.aim }
        ensures counts { BeginsAnew self.old.counts self.new.counts }
        ensures due { self.new.due ≡ now }
    {
        self.counts.begin();
        self.watch = Watch::new();
        self.due = now;
    }

    // Whether there is a number of calls, and all of them were asked.
    fn is_asked(&self) -> bool
        ensures { IsTrue result ↔ AreAsked self.now.aim self.now.counts.tally }
    {
        self.aim.calls > 0 && self.counts.tally.asked >= u64::from(self.aim.calls)
    }

    /// Whether there is a number of calls, and all of them are over.
    pub fn is_done(&self) -> bool
        ensures { IsTrue result ↔ AreOver self.now.aim self.now.counts.tally }
    {
        self.is_asked() && self.counts.tally.pending == 0
    }

    /// How many bytes a call asks, and how many it is answered with.
    pub fn bytes_of_call(&self) -> (u32, u32)
        ensures asked { result.0 ≡ asked_of self.now.aim }
        ensures answered { result.1 ≡ answered_of self.now.aim }
    {
        (self.aim.asked_bytes(), self.aim.answer_bytes())
    }

    // The time between two calls that are asked at set times: 0 where they aren't.
    fn pause(&self) -> u64 {
        match self.aim.rate {
            0 => 0,
            rate => SECOND / u64::from(rate),
        }
    }

    // Asks this call. It comes back where it is refused.
    fn ask(&mut self, memory: &mut Memory, ready: Ready, since: u64) -> bool
        requires { self.old.counts.tally.asked < MOST_CALLS }
        ensures aim { self.new.aim ≡ self.old.aim }
        ensures asks { MatchBool result (AsksOne self.old.counts self.new.counts)
            (self.new.counts ≡ self.old.counts) }
    {
        let Ready {
            place,
            session,
            req,
            resp,
        } = ready;
        let (tag, req_type) = (u64::from(place), self.aim.req_type);
        let asked = self
            .endpoint
            .ask(memory, session, req_type, req, resp, tag, &mut self.watch);
        match asked {
            Ok(_call) => {
                self.slots.set_since(place, since);
                self.counts.ask();
                true
            }
            Err(back) => {
                self.slots.put(Ready {
                    place,
                    session,
                    req: back.req,
                    resp: back.resp,
                });
                false
            }
        }
    }

    // Asks a call, if one is to be asked at `now`.
    fn ask_next(&mut self, memory: &mut Memory, now: u64) -> bool
        ensures aim { self.new.aim ≡ self.old.aim }
        ensures asks { MatchBool result (AsksOne self.old.counts self.new.counts)
            (self.new.counts ≡ self.old.counts) }
    {
        let pause = self.pause();
        if self.counts.tally.is_full() || self.is_asked() || (pause > 0 && self.due > now) {
            return false;
        }
        let Some(ready) = self.slots.take() else {
            return false;
        };
        let since = if pause > 0 { self.due } else { now };
        self.due = self.due.saturating_add(pause);
        self.ask(memory, ready, since)
    }

    /// Asks the calls that are to be asked at `now`, in nanoseconds: until so many are pending as
    /// may be, or, where they have set times, those whose time has come. A call's time counts from
    /// its set time, so that waiting for an older one isn't hidden.
    pub fn ask_all(&mut self, memory: &mut Memory, now: u64)
        ensures aim { self.new.aim ≡ self.old.aim }
        ensures asks { AsksMore self.old.aim.pending self.old.counts self.new.counts }
    {
        'calls: for _call in 0..self.aim.pending {
            if !self.ask_next(memory, now) {
                return;
            }
        }
    }

    // A call is over.
    fn end(&mut self, done: Done, now: u64)
        ensures aim { self.new.aim ≡ self.old.aim }
        ensures ends { EndsSome 1 self.old.counts self.new.counts }
    {
        let place = u32::try_from(done.tag).unwrap_or(0);
        let is_right = self.aim.is_right(done.req.bytes(), done.resp.bytes());
        let since = self.slots.since(place);
        self.counts.time(now.saturating_sub(since));
        self.counts.end(Ending::of(done.outcome, is_right));
        let Done {
            session,
            req,
            resp,
            ..
        } = done;
        self.slots.put(Ready {
            place,
            session,
            req,
            resp,
        });
    }

    /// Counts the calls that were over in a turn that ended at `now`, in nanoseconds. Whether there
    /// was memory for each.
    pub fn count(&mut self, now: u64) -> bool
        ensures aim { self.new.aim ≡ self.old.aim }
        ensures ends { EndsSome self.old.aim.pending self.old.counts self.new.counts }
    {
        'calls: for _call in 0..self.aim.pending {
            let Some(done) = self.ended.take() else {
                return self.ended.whole();
            };
            self.end(done, now);
        }
        self.ended.whole()
    }

    /// Makes a turn of the endpoint at `now`, in nanoseconds, and tells whether it handled packets.
    /// `LinkFault` comes exactly where a fault of the link came.
    pub fn turn<L: Link>(
        &mut self,
        memory: &mut Memory,
        now: u64,
        link: &mut L,
    ) -> Result<bool, LinkFault>
        ensures aim { self.new.aim ≡ self.old.aim }
        ensures counts { IfOk result (λ some. (turn : Turn)
            × CountsTurn turn self.old.counts self.new.counts
            × (IsTrue some ↔ (0 < turn.handled))) }
        ensures fault { OnErr result (self.new.counts ≡ self.old.counts) }
        ensures cause { HasCause (L.faults link.old) (L.faults link.new) result }
    {
        let turn = self.endpoint.turn(
            memory,
            now / MICROSECOND,
            link,
            &mut self.ended,
            &mut self.watch,
        )?;
        self.counts.turn(&turn);
        Ok(turn.handled > 0)
    }

    /// Begins to close the sessions that have no call.
    pub fn close(&mut self)
        ensures aim { self.new.aim ≡ self.old.aim }
        ensures counts { self.new.counts ≡ self.old.counts }
    {
        'sessions: for number in 0..self.aim.sessions {
            let _closing = self.endpoint.disconnect(SessionNo(number), &mut self.watch);
        }
    }
}
