//! The times that were counted, bucket by bucket.
ghost use Rattle.std.specs.Prelude.{◌≡◌, ◌+◌, ◌-◌, ◌*◌, ◌/◌, ◌<◌, ◌≤◌, ◌↔◌, ℕ, List, [], ◌∷◌};
ghost use Rattle.std.specs.Prelude.{IfOk, IfSome, IsTrue, None, length, sum, take};
ghost use Rattle.memory_count.specs.Faults.{HasCause};
ghost use Rattle.time_histogram.specs.Buckets.{IsBucketOf};
ghost use Rattle.time_histogram.specs.Times.{CountsAs, Holds, IsShareOf, MOST_TIMES};
ghost use Rattle.time_histogram.specs.Times.{greatest_time, least_time, share_of};

use crate::buckets::{BUCKETS, Span, bucket_of, span_of};
use memory_count::{Memory, NoMemory};
use std::marker::Model;

/// All times, in the unit of a share.
pub const SHARES: u32 = 100_000;

/// Times by their buckets, with their number, their sum, the least and the greatest. Contracts say
/// of which times, in whatever order they came.
#[derive(Drop)]
pub struct Histogram {
    counts: Vec<u64>,
    count: u64,
    total: u128,
    least: u64,
    most: u64,
}

impl Model for Histogram {
    ghost use Rattle.std.specs.Prelude.{◌≡◌, ◌*◌, ◌≤◌, length, sum};
    ghost use Rattle.time_histogram.specs.Times.{MOST_TIMES, Tallies};
    ghost use Rattle.time_histogram.specs.declared.buckets.TheConstants.{BUCKETS};

    ghost Value = { Tallies };

    ghost view = { λ h. record {
      counts = h.counts.items;
      count = h.count;
      total = h.total;
      least = h.least;
      most = h.most;
    } };

    ghost invariant = { λ h. (length h.counts.items ≡ BUCKETS)
        × (sum h.counts.items ≡ h.count)
        × (h.count ≤ MOST_TIMES)
        × (h.total ≤ h.count * MOST_TIMES) };
}

impl Histogram {
    /// A histogram of no times. It takes all memory that it will need.
    pub fn new(memory: &mut Memory) -> Result<Histogram, NoMemory>
        ensures holds { IfOk result (λ h. Holds [] h) }
        ensures cause { HasCause memory.old memory.new result }
    {
        let mut counts = Vec::new(memory.alloc());
        memory.of(counts.resize(BUCKETS, 0))?;
        Ok(Histogram {
            counts,
            count: 0,
            total: 0,
            least: u64::MAX,
            most: 0,
        })
    }

    /// Forgets all times.
    pub fn clear(&mut self)
        ensures { Holds [] self.new }
    {
        self.counts.fill(0);
        self.count = 0;
        self.total = 0;
        self.least = u64::MAX;
        self.most = 0;
    }

    /// How many times were counted.
    pub fn count(&self) -> u64
        ensures count { result ≡ self.now.count }
        ensures of { (times : List ℕ) → Holds times self.now → result ≡ length times }
    {
        self.count
    }

    /// Whether it counts no more times: there are 2^64 - 1.
    pub fn is_full(&self) -> bool
        ensures { IsTrue result ↔ (MOST_TIMES ≤ self.now.count) }
    {
        self.count == u64::MAX
    }

    // One more time stands in this bucket.
    fn count_in(&mut self, bucket: usize, time: u64)
        requires bucket { bucket < BUCKETS }
        requires room { self.old.count < MOST_TIMES }
        ensures { CountsAs bucket time self.old self.new }
    {
        self.counts[bucket] += 1;
        self.count += 1;
        self.total += u128::from(time);
        self.least = self.least.min(time);
        self.most = self.most.max(time);
    }

    /// Counts a time. It has to have room for one: it isn't full.
    pub fn add(&mut self, time: u64)
        requires room { self.old.count < MOST_TIMES }
        ensures holds { (times : List ℕ) → Holds times self.old → Holds (time ∷ times) self.new }
        ensures count { self.new.count ≡ self.old.count + 1 }
    {
        let bucket = bucket_of(time);
        self.count_in(bucket, time);
    }

    /// The least time; `None` comes exactly where none was counted.
    pub fn least(&self) -> Option<u64>
        ensures none { (result ≡ None) ↔ (self.now.count ≡ 0) }
        ensures of { IfSome result (λ t. (times : List ℕ) → Holds times self.now
            → t ≡ least_time times) }
    {
        if self.count == 0 {
            return None;
        }
        Some(self.least)
    }

    /// The greatest time; `None` comes exactly where none was counted.
    pub fn most(&self) -> Option<u64>
        ensures none { (result ≡ None) ↔ (self.now.count ≡ 0) }
        ensures of { IfSome result (λ t. (times : List ℕ) → Holds times self.now
            → t ≡ greatest_time times) }
    {
        if self.count == 0 {
            return None;
        }
        Some(self.most)
    }

    /// The mean of the times, with its fraction dropped; `None` comes exactly where none was
    /// counted.
    pub fn mean(&self) -> Option<u64>
        ensures none { (result ≡ None) ↔ (self.now.count ≡ 0) }
        ensures of { IfSome result (λ t. (times : List ℕ) → Holds times self.now
            → t ≡ sum times / length times) }
    {
        if self.count == 0 {
            return None;
        }
        Some((self.total / u128::from(self.count)) as u64)
    }

    // How many of its times are this share of them.
    fn rank_of(&self, share: u32) -> u64
        requires some { 0 < self.now.count }
        requires share { share ≤ SHARES }
        ensures rank { result ≡ share_of share self.now.count }
        ensures some { 1 ≤ result }
        ensures within { result ≤ self.now.count }
    {
        let all = u128::from(SHARES);
        let part = u128::from(share) * u128::from(self.count);
        ((part + (all - 1)) / all).max(1) as u64
    }

    // The first bucket with which the buckets up to it have so many times.
    fn bucket_at(&self, rank: u64) -> usize
        requires some { 1 ≤ rank }
        requires within { rank ≤ self.now.count }
        ensures bucket { result < BUCKETS }
        ensures enough { rank ≤ sum (take (result + 1) self.now.counts) }
        ensures fewer { sum (take result self.now.counts) < rank }
    {
        let mut seen = 0u64;
        'buckets: for bucket in 0..BUCKETS {
            seen += self.counts[bucket];
            if seen >= rank {
                return bucket;
            }
        }
        unreachable!()
    }

    /// The bucket in which a share of the times ends, in hundred thousandths: so many of them are
    /// at or below its greatest time, and fewer below its least one. The last time of that share,
    /// in order of size, is one of its, and no more than a 128th off from any other of it. `None`
    /// comes exactly where no time was counted.
    pub fn percentile(&self, share: u32) -> Option<Span>
        requires { share ≤ SHARES }
        ensures none { (result ≡ None) ↔ (self.now.count ≡ 0) }
        ensures share { IfSome result (λ s. (times : List ℕ) → Holds times self.now
            → IsShareOf share times s) }
        ensures close { IfSome result (λ s. 128 * (s.most - s.least) ≤ s.least) }
    {
        if self.count == 0 {
            return None;
        }
        let rank = self.rank_of(share);
        Some(span_of(self.bucket_at(rank)))
    }
}
