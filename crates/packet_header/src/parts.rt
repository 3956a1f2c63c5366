//! How a message is cut into packets.
ghost use Rattle.std.specs.Prelude.{◌≡◌, ◌<◌};
ghost use Rattle.packet_header.specs.Parts.{packet_count, part_size};

use rpc_base::PART_BYTES;

/// How many packets carry a message of `size` bytes. An empty message takes one.
pub fn count(size: u32) -> u32
    ensures { result ≡ packet_count size }
{
    size.div_ceil(PART_BYTES).max(1)
}

/// The bytes of part `index`, counted from 0, of a message of `size` bytes. All parts but the last
/// are full. `index` is below `count(size)`.
pub fn part_len(size: u32, index: u32) -> u32
    requires { index < packet_count size }
    ensures { result ≡ part_size size index }
{
    (size - PART_BYTES * index).min(PART_BYTES)
}
