//! Buffers are lent and given back.
ghost use Rattle.std.specs.Prelude.{◌≡◌, ◌<◌, IfSome, IfNone};
ghost use Rattle.message_buffer.specs.Buffer.{capacity_of};
ghost use Rattle.shared_pool.specs.Moves.{returned};
ghost use Rattle.shared_pool.specs.Seats.{IsSeatOf, places_of, size_of, view_of, HoldsLoan, Missed};
ghost use Rattle.shared_pool.specs.Seats.{HoldsNoneOf, lent_at, MissedFrom, MissedAll, LentFrom};

use super::{PoolSeat, SharedPool};
use crate::loan::Loan;
use crate::moves::{Looks, Releases, Reopens, Returns, Tries};
use crate::word::may_be_lent;
use message_buffer::MsgBuf;

impl SharedPool {
    /// Tries to borrow the buffer of a place, by one load, and one exchange where that found the
    /// buffer at home. `None` comes exactly where the load found it out or found the last
    /// generation, or the exchange found another word; the seat's notes then show which. The buffer
    /// has the pool's capacity and length 0, and its place is none of which the seat held a loan.
    pub fn borrow(&self, seat: &mut PoolSeat, place: u32) -> Option<(Loan, MsgBuf)>
        requires seat { IsSeatOf self.now seat.old }
        requires place { place < places_of self.now }
        ensures seat { IsSeatOf self.now seat.new }
        ensures place { IfSome result (λ got. got.0.place ≡ place) }
        ensures lent { IfSome result (λ got. view_of seat.new ≡ lent_at got.0 (view_of seat.old)) }
        ensures apart { IfSome result (λ got. HoldsNoneOf got.0.place (view_of seat.old)) }
        ensures capacity { IfSome result (λ got. capacity_of got.1 ≡ size_of self.now) }
        ensures empty { IfSome result (λ got. got.1.len ≡ 0) }
        ensures none { IfNone result (Missed place (view_of seat.old) (view_of seat.new)) }
    {
        let index = place as usize;
        let shared = &self.table.shared;
        let found = shared.load::<Looks>(&mut seat.seat, index);
        if !may_be_lent(found) {
            return None;
        }
        if shared.compare_exchange::<Tries>(&mut seat.seat, index, found, found + 1) != found {
            return None;
        }
        let slot = shared.exchange(&mut seat.seat, index, None);
        shared.load::<Releases>(&mut seat.seat, index);
        let mut buffer = slot?;
        buffer.set_len(0);
        Some((Loan::of(place, found / 2), buffer))
    }

    /// Tries each place once, from `start` on and round, until a try gives a buffer. `None` comes
    /// exactly where each try gave nothing; the seat's notes then show such a try of each place.
    pub fn borrow_any(&self, seat: &mut PoolSeat, start: u32) -> Option<(Loan, MsgBuf)>
        requires seat { IsSeatOf self.now seat.old }
        requires start { start < places_of self.now }
        ensures seat { IsSeatOf self.now seat.new }
        ensures lent { IfSome result (λ got. LentFrom (places_of self.now) start got.0
            (view_of seat.old) (view_of seat.new)) }
        ensures apart { IfSome result (λ got. HoldsNoneOf got.0.place (view_of seat.old)) }
        ensures capacity { IfSome result (λ got. capacity_of got.1 ≡ size_of self.now) }
        ensures empty { IfSome result (λ got. got.1.len ≡ 0) }
        ensures none { IfNone result (MissedFrom (places_of self.now) start (places_of self.now)
            (view_of seat.old) (view_of seat.new)) }
        ensures all { IfNone result (MissedAll (places_of self.now) (view_of seat.old)
            (view_of seat.new)) }
    {
        for k in 0..self.places {
            let place = (start + k) % self.places;
            if let Some(got) = self.borrow(seat, place) {
                return Some(got);
            }
        }
        None
    }

    /// Gives a buffer back: any of the pool's capacity, with whatever bytes it has.
    pub fn give_back(&self, seat: &mut PoolSeat, loan: Loan, buf: MsgBuf)
        requires seat { IsSeatOf self.now seat.old }
        requires loan { HoldsLoan (view_of seat.old) loan }
        requires capacity { capacity_of buf ≡ size_of self.now }
        ensures seat { IsSeatOf self.now seat.new }
        ensures back { view_of seat.new ≡ returned loan (view_of seat.old) }
    {
        let (place, generation) = loan.spend();
        let index = place as usize;
        let shared = &self.table.shared;
        shared.load::<Reopens>(&mut seat.seat, index);
        let _empty = shared.exchange(&mut seat.seat, index, Some(buf));
        shared.store::<Returns>(&mut seat.seat, index, 2 * generation + 2);
    }
}
