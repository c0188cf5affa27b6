//! Delays that are counted.
ghost use Rattle.std.specs.Prelude.{◌≡◌, ◌<◌, ◌≤◌, ◌^◌, ◌++◌, ◌∷◌, [], List, ℤ, pos, length, slice_range, IfOk};
ghost use Rattle.std.specs.Int.{int_div_euclid};
ghost use Rattle.std.specs.List.{sum};

use crate::buckets::{BUCKETS, bucket, greatest};
use ioam_base::memory::NoMemory;
use std::alloc::Global;

/// Delays that were counted, one or more of them.
#[derive(Drop)]
pub struct Counter {
    /// How many there were.
    pub count: u64,
    /// How many were below 0.
    pub negative: u64,
    /// The least.
    pub least: i64,
    /// The greatest.
    pub most: i64,
    /// Their sum.
    pub sum: i128,
    // How many were in each bucket.
    pub(crate) buckets: Vec<u64>,
    ghost sized: { length buckets.items ≡ 4096 },
    ghost some: { 0 < count },
}

impl Counter {
    ghost use Rattle.ioam_delays.specs.Counters.{Counts, IsAt, IsNear, IsPercentile, percentile_of, rank};

    /// Counts a first delay.
    pub fn new(alloc: Global, delay: i64) -> Result<Counter, NoMemory>
        ensures { IfOk result (λ counter. Counts (delay ∷ []) counter) }
    {
        let mut buckets: Vec<u64> = Vec::new(alloc);
        buckets.resize(BUCKETS, 0)?;
        buckets[bucket(delay)] = 1;
        Ok(Counter {
            count: 1,
            negative: u64::from(delay < 0),
            least: delay,
            most: delay,
            sum: i128::from(delay),
            buckets,
        })
    }

    /// Counts another delay.
    pub fn add(&mut self, delay: i64)
        ensures { (delays : List ℤ) → length delays < 2 ^ 48 → Counts delays self.old → Counts (delays ++ delay ∷ []) self.new }
    {
        let place = bucket(delay);
        self.buckets[place] = self.buckets[place].saturating_add(1);
        self.count = self.count.saturating_add(1);
        self.negative = self.negative.saturating_add(u64::from(delay < 0));
        self.least = self.least.min(delay);
        self.most = self.most.max(delay);
        self.sum = self.sum.saturating_add(i128::from(delay));
    }

    /// The mean, rounded down.
    pub fn mean(&self) -> i128
        ensures { result ≡ int_div_euclid self.now.sum (pos self.now.count) }
    {
        self.sum.div_euclid(i128::from(self.count))
    }

    /// A percentile, from 1 to 100: the greatest value of the bucket in which it is, but at most the greatest of all.
    pub fn percentile(&self, per: u64) -> i128
        requires some { 0 < per }
        requires most { per ≤ 100 }
        ensures value { result ≡ percentile_of self.now per }
        ensures is { (delays : List ℤ) → length delays < 2 ^ 48 → Counts delays self.now → IsPercentile delays per result }
        // It is near the value of that rank in rising order.
        ensures near { (delays : List ℤ) (value : ℤ) → length delays < 2 ^ 48 → Counts delays self.now → IsAt delays (rank per (length delays)) value → IsNear delays value result }
    {
        let rank = u128::from(self.count) * u128::from(per);
        let mut passed: u64 = 0;
        'buckets: for number in 0..BUCKETS {
            passed = passed.saturating_add(self.buckets[number]);
            if 100 * u128::from(passed) >= rank {
                return greatest(number).min(i128::from(self.most));
            }
        }
        i128::from(self.most)
    }

    /// How many delays are in the buckets from one to before another.
    pub fn between(&self, from: usize, to: usize) -> u128
        requires order { from ≤ to }
        requires exist { to ≤ 4096 }
        ensures is { result ≡ sum (slice_range self.now.buckets.items from to) }
        ensures below { result < 2 ^ 77 }
    {
        total(&self.buckets[from..to])
    }
}

// The sum of numbers.
fn total(numbers: &[u64]) -> u128
    requires { length numbers.now ≤ 4096 }
    ensures is { result ≡ sum numbers.now }
    ensures below { result < 2 ^ 77 }
{
    let mut total: u128 = 0;
    'numbers: for number in numbers.iter() {
        total += u128::from(*number);
    }
    total
}
