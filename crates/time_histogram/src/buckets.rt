//! Which times stand in one bucket.
ghost use Rattle.std.specs.Prelude.{◌≡◌, ◌+◌, ◌-◌, ◌*◌, ◌<◌, ◌≤◌};
ghost use Rattle.time_histogram.specs.Buckets.{IsBucketOf, least_of, width_of};

/// So many buckets are as wide as one another, and the next ones twice as wide.
const STEPS: usize = 128;

/// The power of two that `STEPS` is.
const STEPS_LOG: u32 = 7;

/// Each time of 64 bits has its bucket among these.
pub const BUCKETS: usize = 7_424;

/// The times of a bucket: all from the least one to the greatest.
#[derive(Clone, Copy, Debug, PartialEq, Eq)]
pub struct Span {
    pub least: u64,
    pub most: u64,
}

/// The bucket of a time.
pub fn bucket_of(time: u64) -> usize
    ensures of { IsBucketOf time result }
    ensures within { result < BUCKETS }
{
    if time < STEPS as u64 {
        return time as usize;
    }
    let doublings = time.ilog2() - STEPS_LOG;
    doublings as usize * STEPS + (time >> doublings) as usize
}

/// The times of a bucket. They differ by no more than a 128th of the least one.
pub fn span_of(bucket: usize) -> Span
    requires { bucket < BUCKETS }
    ensures least { result.least ≡ least_of bucket }
    ensures most { result.most + 1 ≡ least_of bucket + width_of bucket }
    ensures close { 128 * (result.most - result.least) ≤ result.least }
{
    if bucket < STEPS {
        return Span {
            least: bucket as u64,
            most: bucket as u64,
        };
    }
    let doublings = (bucket / STEPS - 1) as u32;
    let least = ((STEPS + bucket % STEPS) as u64) << doublings;
    Span {
        least,
        most: least + ((1 << doublings) - 1),
    }
}
