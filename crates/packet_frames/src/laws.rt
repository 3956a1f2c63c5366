//! Laws of frames, each proved of its definitions in `specs/`.
ghost use Rattle.packet_frames.specs.Laws.{OneListOnly, ReadsBack, TakesEachPacket};

/// What is taken out of the datagram of some packets are these packets, in order.
pub fn reads_back()
    ensures { ReadsBack }
{}

/// A datagram is that of one list of packets only.
pub fn one_list_only()
    ensures { OneListOnly }
{}

/// Each packet of the tables of packets may stand in a frame, or go bare: it begins with no frame's
/// first byte, and isn't too long.
pub fn takes_each_packet()
    ensures { TakesEachPacket }
{}
