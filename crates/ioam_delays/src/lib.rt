//! Delays between time stamps, counted: least, most, sum, and percentiles by buckets.
#![tactic(auto)]

mod buckets;
mod counter;
mod sight;
mod times;

pub use buckets::{BUCKETS, bucket, greatest, least};
pub use counter::Counter;
pub use sight::{Gap, Node, Sight, Stamp, Transit, between, gap_after, gap_between, read_sight};
pub use times::{delay, nanoseconds};

#[cfg(test)]
mod tests {
    use super::{Counter, bucket, delay, greatest, least};

    // 1, 2, .. 100 times 1,000.
    #[test]
    fn percentiles(rt: HostRuntime) {
        let mut counter = Counter::new(rt.alloc(), 1_000).expect(&rt, "memory");
        for times in 2..101u64 {
            counter.add((times * 1_000) as i64);
        }
        assert_eq!(rt; counter.count, 100);
        assert_eq!(rt; counter.percentile(50), 50_175);
        assert_eq!(rt; counter.percentile(90), 90_111);
        assert_eq!(rt; counter.percentile(99), 100_000);
        assert_eq!(rt; counter.mean(), 50_500);
        assert_eq!(rt; counter.negative, 0);
    }

    // The buckets of 1.83 ms to 2.10 ms, and those beside 0.
    #[test]
    fn buckets(rt: HostRuntime) {
        let here = bucket(2_046_000);
        assert_eq!(rt; least(here), 2_031_616);
        assert_eq!(rt; greatest(here), 2_064_383);
        assert_eq!(rt; bucket(0), 2_048);
        assert_eq!(rt; bucket(-1), 2_047);
        assert_eq!(rt; bucket(63), 2_111);
        assert_eq!(rt; bucket(64), 2_112);
        assert_eq!(rt; bucket(65), 2_112);
        assert_eq!(rt; bucket(-65), 1_983);
    }

    // Seconds that wrap, clocks that disagree, and fractions alone.
    #[test]
    fn delays(rt: HostRuntime) {
        assert_eq!(rt;
            delay(4_294_967_294_999_999_999, 5, 4_294_967_296_000_000_000),
            1_000_000_006
        );
        assert_eq!(rt;
            delay(8_010_000, 10_000, 4_294_967_296_000_000_000),
            -8_000_000
        );
        assert_eq!(rt; delay(999_999_999, 100, 1_000_000_000), 101);
    }
}
