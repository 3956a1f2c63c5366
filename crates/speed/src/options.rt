//! The words of a run.
ghost use Rattle.std.specs.Prelude.{IfOk};
ghost use Rattle.call_load.specs.Aims.{IsInRange};

use crate::fault::Fault;
use call_load::Aim;
use rpc_base::USUAL_TIMEOUT;

/// The longest run, and the longest time before it, in seconds.
const MOST_SECS: u32 = 3_600;

/// The numbers of the options.
#[derive(Clone, Copy)]
pub struct Numbers {
    sessions: u32,
    credits: u32,
    pending: u32,
    calls: u32,
    req_type: u32,
    size: u32,
    rate: u32,
    timeout: u64,
    /// How long calls are counted, and for how long they are asked before, in seconds.
    pub secs: u32,
    pub warm: u32,
    /// Packets go several in a datagram of at most so many bytes; 0: each goes alone.
    pub frame: u32,
}

impl Numbers {
    // Without words: one session of 32 credits with eight calls, of 64 bytes.
    fn usual() -> Numbers {
        Numbers {
            sessions: 1,
            credits: 32,
            pending: 8,
            calls: 0,
            req_type: 1,
            size: 64,
            rate: 0,
            timeout: USUAL_TIMEOUT,
            secs: 2,
            warm: 1,
            frame: 0,
        }
    }

    // The number of the option of this name; false where there is none.
    fn set(&mut self, name: &str, number: u32) -> bool {
        match name {
            "--sessions" => self.sessions = number,
            "--credits" => self.credits = number,
            "--pending" => self.pending = number,
            "--calls" => self.calls = number,
            "--type" => self.req_type = number,
            "--size" => self.size = number,
            "--rate" => self.rate = number,
            "--timeout" => self.timeout = u64::from(number),
            "--secs" => self.secs = number.min(MOST_SECS),
            "--warm" => self.warm = number.min(MOST_SECS),
            "--frame" => self.frame = number,
            _ => return false,
        }
        true
    }
}

/// What the words ask for.
#[derive(Drop)]
pub struct Options<'a> {
    /// The server's address, and the client's own.
    pub addr: &'a str,
    pub bind: &'a str,
    pub numbers: Numbers,
    /// Whether one line of JSON is written.
    pub json: bool,
    /// Whether a number of calls is asked, of which no times are told.
    pub is_row: bool,
}

impl<'a> Options<'a> {
    /// What is asked. `Words` comes exactly where a number of it isn't in its range.
    pub fn aim(&self) -> Result<Aim, Fault>
        ensures { IfOk result (λ aim. IsInRange aim) }
    {
        let numbers = self.numbers;
        let Ok(req_type) = u8::try_from(numbers.req_type) else {
            return Err(Fault::Words);
        };
        let aim = Aim {
            // One that is too large becomes 0, which is out of its range too.
            sessions: u16::try_from(numbers.sessions).unwrap_or(0),
            credits: u16::try_from(numbers.credits).unwrap_or(0),
            pending: numbers.pending,
            calls: numbers.calls,
            req_type,
            size: numbers.size,
            rate: numbers.rate,
            timeout: numbers.timeout,
        };
        if !aim.fits() {
            return Err(Fault::Words);
        }
        Ok(aim)
    }

    // An option with its value; false where there is none of this name, or its value is no number.
    fn set(&mut self, name: &str, value: &'a str) -> bool {
        if name == "--bind" {
            self.bind = value;
            return true;
        }
        match value.parse::<u32>() {
            Ok(number) => self.numbers.set(name, number),
            Err(_) => false,
        }
    }
}

/// Reads the words after the server's address, for a row or a measurement. `Words` comes where one
/// isn't an option, has no value, or has one that isn't a number where one is wanted.
pub fn read<'a>(addr: &'a str, words: &'a [String], is_row: bool) -> Result<Options<'a>, Fault> {
    let mut options = Options {
        addr,
        bind: "127.0.0.1:0",
        numbers: Numbers::usual(),
        json: false,
        is_row,
    };
    let mut name = None;
    for word in words {
        match name.take() {
            Some(name) => {
                if !options.set(name, word.as_str()) {
                    return Err(Fault::Words);
                }
            }
            None if word.as_str() == "--json" => options.json = true,
            None => name = Some(word.as_str()),
        }
    }
    match name {
        None => Ok(options),
        Some(_) => Err(Fault::Words),
    }
}
