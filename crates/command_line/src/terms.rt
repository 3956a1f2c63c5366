//! The words of `serve` and `load`, with their numbers read and their texts borrowed.
ghost use Rattle.std.specs.Prelude.{◌≡◌, IfSome, codes, option_map};
ghost use Rattle.clap.specs.Words.{found_of, rows_of};
ghost use Rattle.command_line.specs.Answers.{IsFrameInRange, IsLoadInRange, IsServeInRange};
ghost use Rattle.command_line.specs.Numbers.{some_number_at};
ghost use Rattle.command_line.specs.Tasks.{load_of_rows, serve_of_rows};
ghost use Rattle.command_line.specs.Terms.{load_words, serve_words};
ghost use Rattle.command_line.specs.declared.task.Task.TheVariants.{Load, Serve};

use crate::idle::idle_of;
use crate::number::{request_type, workers_of};
use crate::task::Idle;
use crate::text::text_at;
use crate::words::{CALLS, FRAME, LIFE, SEED, SIZE, TIMEOUT, TURNS};
use clap::ArgMatches;
use packet_header::Life;

/// The words of `serve`.
#[derive(Clone, Copy)]
pub struct ServeTerms<'a> {
    pub addr: &'a str,
    pub turns: u32,
    pub workers: u8,
    pub life: Life,
    pub relay: Option<&'a str>,
    pub timeout: u32,
    pub idle: Idle,
}

/// What the words of `serve` say, if they are in its grammar.
pub fn serve_terms<'a>(matches: &ArgMatches<'a>) -> Option<ServeTerms<'a>>
    ensures value { option_map (λ terms. Serve (serve_words terms)) result
        ≡ serve_of_rows (rows_of (found_of matches.now)) }
    ensures range { IfSome result (λ terms. IsServeInRange (serve_words terms)) }
{
    let addr = text_at(matches, "ADDR")?;
    let turns = TURNS.read(matches)? as u32;
    let workers = workers_of(matches)?;
    let life = LIFE.read(matches)? as u32;
    let timeout = TIMEOUT.read(matches)? as u32;
    Some(ServeTerms {
        addr,
        turns,
        workers,
        life: Life(life),
        relay: text_at(matches, "relay"),
        timeout,
        idle: idle_of(matches),
    })
}

// The frame that the words of `load` give, none where they leave it out; None where they give one
// that is none of its range.
fn frame_of(matches: &ArgMatches<'_>) -> Option<Option<u32>>
    ensures value { result ≡ some_number_at 1088 65507 (codes "frame")
        (rows_of (found_of matches.now)) }
    ensures range { IfSome result IsFrameInRange }
{
    if text_at(matches, "frame").is_none() {
        return Some(None);
    }
    let bytes = FRAME.read(matches)? as u32;
    Some(Some(bytes))
}

/// The words of `load`.
#[derive(Clone, Copy)]
pub struct LoadTerms<'a> {
    pub addr: &'a str,
    pub calls: u32,
    pub req_type: u8,
    pub size: u32,
    pub seed: u32,
    pub turns: u32,
    pub bind: &'a str,
    pub frame: Option<u32>,
    pub life: Life,
    pub timeout: u32,
    pub idle: Idle,
}

/// What the words of `load` say, if they are in its grammar.
pub fn load_terms<'a>(matches: &ArgMatches<'a>) -> Option<LoadTerms<'a>>
    ensures value { option_map (λ terms. Load (load_words terms)) result
        ≡ load_of_rows (rows_of (found_of matches.now)) }
    ensures range { IfSome result (λ terms. IsLoadInRange (load_words terms)) }
{
    let addr = text_at(matches, "ADDR")?;
    let calls = CALLS.read(matches)? as u32;
    let req_type = request_type(matches)?;
    let size = SIZE.read(matches)? as u32;
    let seed = SEED.read(matches)? as u32;
    let turns = TURNS.read(matches)? as u32;
    let bind = text_at(matches, "bind")?;
    let frame = frame_of(matches)?;
    let life = LIFE.read(matches)? as u32;
    let timeout = TIMEOUT.read(matches)? as u32;
    Some(LoadTerms {
        addr,
        calls,
        req_type,
        size,
        seed,
        turns,
        bind,
        frame,
        life: Life(life),
        timeout,
        idle: idle_of(matches),
    })
}
