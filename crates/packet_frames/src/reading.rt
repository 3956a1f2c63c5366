//! What is taken out of a datagram.
ghost use Rattle.std.specs.Prelude.{◌≡◌, ◌+◌, ◌-◌, ◌≤◌, ◌<◌, ◌↔◌, [], ◌∷◌, drop, take, length};
ghost use Rattle.std.specs.Prelude.{slice_get};
ghost use Rattle.std.specs.Prelude.{IfSome, IsTrue, MatchOption, Some};
ghost use Rattle.packet_frames.specs.Frames.{bare_packet, packets_from, packets_of};

use crate::sizes::{FRAME_BYTE, LENGTH_BYTES, MOST_PACKET_BYTES};

/// Where a packet stands in a datagram: from `start` on, and before `end`.
#[derive(Clone, Copy, Debug, PartialEq, Eq)]
pub struct Span {
    pub start: usize,
    pub end: usize,
}

/// Tells whether a datagram is a frame: packets in a row, behind the first byte.
pub fn is_frame(datagram: &[u8]) -> bool
    ensures { IsTrue result ↔ (slice_get datagram.now 0 ≡ Some FRAME_BYTE) }
{
    datagram.first() == Some(&FRAME_BYTE)
}

// The length of the first packet of a row. None exactly where no whole packet stands there, or one
// that is too long.
#[tactic(auto, using(crate::proofs::RowLemmas::packets_of_first))]
fn first_length(row: &[u8]) -> Option<usize>
    ensures first { MatchOption result (packets_of row.now ≡ [])
        (λ n. packets_of row.now ≡ take n (drop 2 row.now) ∷ packets_of (drop (2 + n) row.now)) }
    ensures short { IfSome result (λ n. n ≤ MOST_PACKET_BYTES) }
    ensures within { IfSome result (λ n. LENGTH_BYTES + n ≤ length row.now) }
{
    if row.len() < LENGTH_BYTES {
        return None;
    }
    let len = 256 * usize::from(row[0]) + usize::from(row[1]);
    if len > MOST_PACKET_BYTES || len > row.len() - LENGTH_BYTES {
        return None;
    }
    Some(len)
}

// Where the packet stands whose length stands at this place of a row.
fn span_at(datagram: &[u8], at: usize) -> Option<Span>
    requires { at ≤ length datagram.now }
    ensures next { MatchOption result (packets_of (drop at datagram.now) ≡ [])
        (λ s. packets_of (drop at datagram.now)
        ≡ take (s.end - s.start) (drop s.start datagram.now)
        ∷ packets_of (drop s.end datagram.now)) }
    ensures order { IfSome result (λ s. (at < s.end) × (s.start ≤ s.end)) }
    ensures short { IfSome result (λ s. s.end - s.start ≤ MOST_PACKET_BYTES) }
    ensures within { IfSome result (λ s. s.end ≤ length datagram.now) }
{
    let len = first_length(&datagram[at..])?;
    let start = at + LENGTH_BYTES;
    Some(Span {
        start,
        end: start + len,
    })
}

/// Where the next packet of a datagram stands, once those before the place `at` were taken out: 0
/// at first, and then the end of the one that came last. None exactly where none is left.
#[tactic(auto, using(crate::proofs::NextLemmas::next_later, crate::proofs::NextLemmas::next_framed, crate::proofs::NextLemmas::next_bare,))]
pub fn next_packet(datagram: &[u8], at: usize) -> Option<Span>
    requires { at ≤ length datagram.now }
    ensures next { MatchOption result (packets_from at datagram.now ≡ [])
        (λ s. packets_from at datagram.now
        ≡ take (s.end - s.start) (drop s.start datagram.now)
        ∷ packets_from s.end datagram.now) }
    ensures order { IfSome result (λ s. (at < s.end) × (s.start ≤ s.end)) }
    ensures short { IfSome result (λ s. s.end - s.start ≤ MOST_PACKET_BYTES) }
    ensures within { IfSome result (λ s. s.end ≤ length datagram.now) }
{
    if at > 0 {
        return span_at(datagram, at);
    }
    if is_frame(datagram) {
        return span_at(datagram, 1);
    }
    bare_span(datagram)
}

// Where the packet of a datagram stands that is no frame.
fn bare_span(datagram: &[u8]) -> Option<Span>
    ensures { MatchOption result (bare_packet datagram.now ≡ [])
        (λ s. (s.start ≡ 0) × (s.end ≡ length datagram.now)
        × (bare_packet datagram.now ≡ datagram.now ∷ [])
        × (0 < s.end) × (s.end ≤ MOST_PACKET_BYTES)) }
{
    let len = datagram.len();
    if len == 0 || len > MOST_PACKET_BYTES {
        return None;
    }
    Some(Span { start: 0, end: len })
}
