//! A histogram of times, of a fixed size: 128 buckets for each doubling, so that what it tells of a
//! time is off by no more than a 128th of it. It knows nothing of clocks, and of no unit.
#![tactic(auto)]

mod buckets;
mod histogram;

pub use buckets::{BUCKETS, Span, bucket_of, span_of};
pub use histogram::{Histogram, SHARES};
