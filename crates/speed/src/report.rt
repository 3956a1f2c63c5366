//! What a run tells: numbers with their names, times in nanoseconds.
ghost use Rattle.std.specs.Prelude.{◌≤◌};

use call_load::{Caller, Tally, Turns, Watch};
use std::fmt;
use time_histogram::Histogram;

/// The nanoseconds of a second.
const SECOND: u128 = 1_000_000_000;

/// How long calls took, in nanoseconds.
#[derive(Clone, Copy)]
struct Times {
    least: u64,
    mean: u64,
    // Of a hundred calls 50, 90 and 99 took no longer, and of a thousand 999.
    p50: u64,
    p90: u64,
    p99: u64,
    p999: u64,
    most: u64,
}

fn share(times: &Histogram, hundred_thousandths: u32) -> u64
    requires { hundred_thousandths ≤ 100000 }
{
    match times.percentile(hundred_thousandths) {
        Some(span) => span.most.min(times.most().unwrap_or(0)),
        None => 0,
    }
}

impl Times {
    fn of(times: &Histogram) -> Times {
        Times {
            least: times.least().unwrap_or(0),
            mean: times.mean().unwrap_or(0),
            p50: share(times, 50_000),
            p90: share(times, 90_000),
            p99: share(times, 99_000),
            p999: share(times, 99_900),
            most: times.most().unwrap_or(0),
        }
    }

    fn put<W: fmt::Write>(&self, form: &Form, f: &mut fmt::Formatter<W>) -> fmt::Result {
        form.put("least_ns", self.least, f)?;
        form.put("mean_ns", self.mean, f)?;
        form.put("p50_ns", self.p50, f)?;
        form.put("p90_ns", self.p90, f)?;
        form.put("p99_ns", self.p99, f)?;
        form.put("p999_ns", self.p999, f)?;
        form.put("most_ns", self.most, f)
    }
}

// So many in a second, of what came in so many nanoseconds.
fn each_second(count: u64, nanos: u64) -> u64 {
    let each = u128::from(count) * SECOND / u128::from(nanos.max(1));
    u64::try_from(each).unwrap_or(u64::MAX)
}

/// How numbers stand in a text: what is before the first one's name, before each other one's, and
/// between a name and its number, and what is behind all.
#[derive(Drop)]
pub struct Form {
    pub first: &'static str,
    pub before: &'static str,
    pub between: &'static str,
    pub close: &'static str,
}

// Each number on a line of its own.
const LINES: Form = Form {
    first: "",
    before: "\n",
    between: " ",
    close: "",
};

// All numbers on one line.
const LINE: Form = Form {
    first: "",
    before: " ",
    between: " ",
    close: "",
};

impl Form {
    // A number behind its name.
    fn put_named<W: fmt::Write>(
        &self,
        name: &str,
        number: u64,
        f: &mut fmt::Formatter<W>,
    ) -> fmt::Result {
        f.write_str(name)?;
        f.write_str(self.between)?;
        write!(f, "{number}")
    }

    // The first number.
    fn put_first<W: fmt::Write>(
        &self,
        name: &str,
        number: u64,
        f: &mut fmt::Formatter<W>,
    ) -> fmt::Result {
        f.write_str(self.first)?;
        self.put_named(name, number, f)
    }

    // A further one.
    fn put<W: fmt::Write>(
        &self,
        name: &str,
        number: u64,
        f: &mut fmt::Formatter<W>,
    ) -> fmt::Result {
        f.write_str(self.before)?;
        self.put_named(name, number, f)
    }
}

/// What came in the time that was measured.
#[derive(Clone, Copy)]
pub struct Report {
    // How long it was, in nanoseconds.
    nanos: u64,
    tally: Tally,
    turns: Turns,
    watch: Watch,
    times: Times,
    // Calls a second, and the bytes that they asked and were answered with.
    calls: u64,
    asked_bytes: u64,
    answer_bytes: u64,
}

impl Report {
    /// Of the calls since the caller began, so many nanoseconds ago.
    pub fn of(caller: &Caller, nanos: u64) -> Report {
        let tally = caller.counts.tally;
        let calls = each_second(tally.right.saturating_add(tally.wrong), nanos);
        let (asked, answered) = caller.bytes_of_call();
        Report {
            nanos,
            tally,
            turns: caller.counts.turns,
            watch: caller.watch,
            times: Times::of(&caller.counts.times),
            calls,
            asked_bytes: calls.saturating_mul(u64::from(asked)),
            answer_bytes: calls.saturating_mul(u64::from(answered)),
        }
    }

    fn put_rates<W: fmt::Write>(&self, form: &Form, f: &mut fmt::Formatter<W>) -> fmt::Result {
        form.put("calls_a_second", self.calls, f)?;
        form.put("asked_bytes_a_second", self.asked_bytes, f)?;
        form.put("answer_bytes_a_second", self.answer_bytes, f)
    }

    fn put_ends<W: fmt::Write>(&self, form: &Form, f: &mut fmt::Formatter<W>) -> fmt::Result {
        form.put("asked", self.tally.asked, f)?;
        form.put("pending", self.tally.pending, f)?;
        form.put("right", self.tally.right, f)?;
        form.put("wrong", self.tally.wrong, f)?;
        form.put("small", self.tally.small, f)?;
        form.put("lost", self.tally.lost, f)
    }

    fn put_noted<W: fmt::Write>(&self, form: &Form, f: &mut fmt::Formatter<W>) -> fmt::Result {
        form.put("rolled", self.watch.rolled, f)?;
        form.put("overflowed", self.watch.overflowed, f)?;
        form.put("bad", self.watch.bad, f)?;
        let reasons = self.watch.reasons();
        for told in &reasons {
            f.write_str(form.before)?;
            f.write_str("dropped_")?;
            form.put_named(told.0, told.1, f)?;
        }
        Ok(())
    }

    fn put_turns<W: fmt::Write>(&self, form: &Form, f: &mut fmt::Formatter<W>) -> fmt::Result {
        let packets = self.turns.handled.saturating_mul(100) / self.turns.made.max(1);
        form.put("turns", self.turns.made, f)?;
        form.put("empty", self.turns.empty, f)?;
        form.put("busy", self.turns.busy, f)?;
        form.put("handled", self.turns.handled, f)?;
        form.put("sent", self.turns.sent, f)?;
        form.put("packets_in_hundred_turns", packets, f)
    }

    /// Writes all its numbers in this form.
    pub fn put<W: fmt::Write>(&self, form: &Form, f: &mut fmt::Formatter<W>) -> fmt::Result {
        form.put_first("nanoseconds", self.nanos, f)?;
        self.put_rates(form, f)?;
        self.times.put(form, f)?;
        self.put_ends(form, f)?;
        self.put_noted(form, f)?;
        self.put_turns(form, f)?;
        f.write_str(form.close)
    }
}

impl fmt::Display for Report {
    fn fmt<W: fmt::Write>(&self, f: &mut fmt::Formatter<W>) -> fmt::Result {
        self.put(&LINES, f)
    }
}

/// What is told of a second.
#[derive(Clone, Copy)]
pub struct Second {
    number: u32,
    calls: u64,
    times: Times,
}

impl Second {
    /// Of the calls since the newest times were cleared, so many nanoseconds ago.
    pub fn of(caller: &Caller, number: u32, nanos: u64) -> Second {
        Second {
            number,
            calls: each_second(caller.counts.newest.count(), nanos),
            times: Times::of(&caller.counts.newest),
        }
    }
}

impl fmt::Display for Second {
    fn fmt<W: fmt::Write>(&self, f: &mut fmt::Formatter<W>) -> fmt::Result {
        LINE.put_first("second", u64::from(self.number), f)?;
        LINE.put("calls_a_second", self.calls, f)?;
        self.times.put(&LINE, f)
    }
}
