//! Laws of the headers, each proved of its definitions in `specs/`.
ghost use Rattle.packet_header.specs.Laws.{NoBytesSpellTwo, OneHead};

/// A datagram is at most one packet.
pub fn no_bytes_spell_two_packets()
    ensures { NoBytesSpellTwo }
{}

/// Each packet with its fields in range has exactly one header.
pub fn every_packet_has_one_head()
    ensures { OneHead }
{}
