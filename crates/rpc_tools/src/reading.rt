//! Reading the source to its end.
ghost use Rattle.std.specs.Prelude.{◌<◌, ◌^◌};
ghost use Rattle.memory_count.specs.Faults.{HasRisenBy};
ghost use Rattle.rpc_tools.specs.Outcomes.{Gives, lacks_read};

use memory_count::Memory;
use rpc_base::Octets;
use rpc_outside::Source;

/// The bytes that one call of the source may give.
const CHUNK: usize = 4096;

/// What reading a source gave.
#[derive(Drop)]
pub enum Input {
    /// All of its bytes.
    Whole(Octets),
    /// More bytes than are taken.
    TooLong,
    /// The source failed.
    Fault,
    /// There was no memory for the bytes.
    Memory,
}

/// Reads the source to its end, to a fault, or until more than `most` bytes came.
pub fn read_all<S: Source>(memory: &mut Memory, source: &mut S, most: usize) -> Input
    requires { most < 2 ^ 32 }
    ensures gives { Gives most result (S.input source.old) (S.input source.new) }
    ensures cause { HasRisenBy (lacks_read result) memory.old memory.new }
{
    let mut bytes = Octets::from(Vec::new(memory.alloc()));
    let mut chunk = [0u8; CHUNK];
    'chunks: for turn in 0..most + 1 {
        let count = match source.read(&mut chunk) {
            Ok(count) => count,
            Err(_) => return Input::Fault,
        };
        if count == 0 {
            return Input::Whole(bytes);
        }
        if memory.of(bytes.append(&chunk[..count])).is_err() {
            return Input::Memory;
        }
        if bytes.len() > most {
            return Input::TooLong;
        }
    }
    // Each turn brought a byte, so one of the answers above was given.
    unreachable!()
}
