//! The plain service and its handlers for workers.
ghost use Rattle.std.specs.Prelude.{◌≡◌, ◌<◌, ◌^◌, []};
ghost use Rattle.rpc_outside.specs.PlainAnswer.{background_answer, plain_answer, plain_mode};
ghost use Rattle.rpc_outside.specs.PlainLaws.{steady-plain};
ghost use Rattle.rpc_outside.specs.PlainStands.{PlainStands};

use crate::plain::answers::{TALLY, TALLY_BYTES, answer_steadily, fill_len, mode_of, tally};
use crate::service::{Duty, Mode, Service};
use std::marker::Model;

/// The service of the program: echo, reverse, tally and fill, in the event loop and, but for the
/// tally, by workers. Contracts see the total of its tallies.
#[derive(Debug, Drop)]
pub struct PlainService {
    total: u64,
}

impl Model for PlainService {
    ghost use Rattle.std.specs.Prelude.{ℕ, ◌<◌, ◌^◌};

    ghost Value = { ℕ };

    ghost view = { λ s. s.total };

    ghost invariant = { λ s. s.total < 2 ^ 64 };
}

impl PlainService {
    /// A service that served nothing: its total is 0.
    pub fn new() -> PlainService
        ensures { PlainStands result [] }
    {
        PlainService { total: 0 }
    }

    /// The total of the tallies served so far, modulo 2^64.
    pub fn total(&self) -> u64
        ensures total { result ≡ self.now }
        ensures below { self.now < 2 ^ 64 }
    {
        self.total
    }
}

impl Service for PlainService {
    ghost mode_of = { plain_mode };

    ghost answer = { plain_answer };

    ghost stands = { PlainStands };

    ghost steady = { λ req_type ask one other h. steady-plain req_type ask one other h };

    fn mode(&self, req_type: u8) -> Mode {
        mode_of(req_type)
    }

    fn room(&self, req_type: u8, ask: &[u8]) -> u32 {
        match req_type {
            1 | 2 | 129 | 130 => ask.len() as u32,
            TALLY => if ask.len() == TALLY_BYTES { 8 } else { 0 },
            4 | 132 => fill_len(ask),
            _ => 0,
        }
    }

    fn serve(&mut self, req_type: u8, ask: &[u8], out: &mut [u8]) {
        if req_type == TALLY {
            self.total = tally(self.total, ask, out);
        } else {
            answer_steadily(req_type, ask, out);
        }
    }
}

/// The plain service's handlers for workers.
#[derive(Clone, Copy, Debug, PartialEq, Eq)]
pub struct PlainDuty;

impl Duty for PlainDuty {
    ghost answer = { background_answer };

    fn handle(&self, req_type: u8, ask: &[u8], out: &mut [u8]) {
        if matches!(req_type, 129 | 130 | 132) {
            answer_steadily(req_type - 128, ask, out);
        }
    }
}
