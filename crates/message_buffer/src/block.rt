//! Where the headers and the data stand in a buffer's block: the header of packet 0, then the data,
//! then the headers of the further packets. So packet 0 is one run of bytes.
ghost use Rattle.std.specs.Prelude.{◌≡◌, ◌<◌, ◌≤◌, ◌+◌, ◌-◌, ◌*◌, ℕ, length, vec_len};
ghost use Rattle.packet_header.specs.Parts.{packet_count};
ghost use Rattle.message_buffer.specs.Block.{block_size, head_start};

use packet_header::count;
use rpc_base::{HEAD_BYTES, MOST_CAPACITY};

/// The length of the block of a buffer of this capacity.
pub fn block_bytes(capacity: u32) -> usize
    requires { capacity ≤ MOST_CAPACITY }
    ensures { result ≡ block_size capacity }
{
    capacity as usize + HEAD_BYTES * count(capacity) as usize
}

/// Where the header of packet `index` stands.
pub fn head_at(capacity: u32, index: u32) -> usize
    requires capacity { capacity ≤ MOST_CAPACITY }
    requires index { index < packet_count capacity }
    ensures { result ≡ head_start capacity index }
{
    if index == 0 {
        0
    } else {
        capacity as usize + HEAD_BYTES * index as usize
    }
}
