//! A service with a state of its own.
ghost use Rattle.example_counter.specs.Counting.{CountStands, count_answer, counting_mode};
ghost use Rattle.example_counter.specs.Counting.{steady-count};
ghost use Rattle.std.specs.Prelude.{[]};

use byteorder::{BigEndian, ByteOrder};
use erpc_lib::{Mode, Service};

/// The bytes of an answer.
pub const BYTES: u32 = 8;

/// Answers each request with the number of those that it served before.
#[derive(Debug, Drop)]
pub struct Counter {
    count: u64,
}

impl Counter {
    /// It served nothing.
    pub fn new() -> Counter
        ensures { CountStands result [] }
    {
        Counter { count: 0 }
    }
}

impl Service for Counter {
    ghost mode_of = { counting_mode };

    ghost answer = { count_answer };

    ghost stands = { CountStands };

    ghost steady = { λ req_type ask one other h. steady-count req_type ask one other h };

    fn mode(&self, _req_type: u8) -> Mode {
        Mode::Inline
    }

    fn room(&self, _req_type: u8, _ask: &[u8]) -> u32 {
        BYTES
    }

    fn serve(&mut self, _req_type: u8, _ask: &[u8], out: &mut [u8]) {
        BigEndian::write_u64(out, self.count);
        self.count = self.count.wrapping_add(1);
    }
}
