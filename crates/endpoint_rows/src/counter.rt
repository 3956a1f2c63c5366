//! A service with a state of its own.
ghost use Rattle.endpoint_rows.specs.Counting.{CountStands, count_answer, counting_mode};
ghost use Rattle.endpoint_rows.specs.Counting.{steady-count};
ghost use Rattle.std.specs.Prelude.{[]};

use byteorder::{BigEndian, ByteOrder};
use rpc_outside::{Mode, Service};
use std::marker::Model;

/// Answers each request with the number of those that it served before, in 8 bytes. Contracts see
/// that number.
#[derive(Drop)]
pub struct Counter {
    count: u64,
}

impl Model for Counter {
    ghost use Rattle.std.specs.Prelude.{ℕ, ◌<◌, ◌^◌};

    ghost Value = { ℕ };

    ghost view = { λ c. c.count };

    ghost invariant = { λ c. c.count < 2 ^ 64 };
}

impl Counter {
    /// It served nothing.
    pub fn new() -> Counter
        ensures { CountStands result [] }
    {
        Counter { count: 0 }
    }
}

impl Service for Counter {
    ghost mode_of = { counting_mode };

    ghost answer = { count_answer };

    ghost stands = { CountStands };

    ghost steady = { λ req_type ask one other h. steady-count req_type ask one other h };

    fn mode(&self, _req_type: u8) -> Mode {
        Mode::Inline
    }

    fn room(&self, _req_type: u8, _ask: &[u8]) -> u32 {
        8
    }

    fn serve(&mut self, _req_type: u8, _ask: &[u8], out: &mut [u8]) {
        BigEndian::write_u64(out, self.count);
        self.count = self.count.wrapping_add(1);
    }
}
