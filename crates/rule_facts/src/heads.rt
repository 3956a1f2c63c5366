//! Whether bytes are the header of a packet.
ghost use Rattle.std.specs.Prelude.{◌↔◌, IsTrue};
ghost use Rattle.packet_header.specs.Header.{InRange};
ghost use Rattle.packet_header.specs.Laws.{IsHeadOf};
ghost use Rattle.rule_facts.specs.Heads.{IsSpelled};

use crate::finishing::is_same;
use packet_header::{Packet, encode, is_in_range};
use rpc_base::HEAD_BYTES;

fn encoded(packet: &Packet) -> [u8; HEAD_BYTES]
    requires { InRange packet.now }
    ensures { IsHeadOf packet.now result }
{
    let mut head = [0; HEAD_BYTES];
    encode(packet, &mut head);
    head
}

fn is_encoded(packet: &Packet, told: &[u8]) -> bool
    requires { InRange packet.now }
    ensures { IsTrue result ↔ IsHeadOf packet.now told.now }
{
    let head = encoded(packet);
    is_same(told, &head)
}

/// Whether these bytes are the header of a packet whose fields are in their ranges.
pub fn is_spelled(packet: &Packet, told: &[u8]) -> bool
    ensures { IsTrue result ↔ IsSpelled packet.now told.now }
{
    if is_in_range(packet) {
        is_encoded(packet, told)
    } else {
        false
    }
}
