//! The choice of the next packet among several captures.
ghost use Rattle.std.specs.Prelude.{◌≡◌, ◌+◌, ℕ, List, MatchOption, Option, Some, length, slice_get};
ghost use Rattle.ioam_pcap.specs.Pick.{IsTimeless, IsLeast, IsBest};

/// The first place with the least time; None exactly where no place has a time.
pub fn pick(times: &[Option<u64>]) -> Option<usize>
    ensures { MatchOption result
        (IsTimeless (length times.now) times.now)
        (λ place. (least : ℕ) × IsLeast (length times.now) times.now place least) }
{
    let mut best = None;
    for place in 0..times.len() {
        best = better(best, place, times[place]);
    }
    let (place, _) = best?;
    Some(place)
}

// The best of the places up to this one, by what is best below it and by its own time.
fn better(best: Option<(usize, u64)>, place: usize, time: Option<u64>) -> Option<(usize, u64)>
    ensures { (times : List (Option ℕ)) → slice_get times place ≡ Some time
        → IsBest place times best
        → IsBest (place + 1) times result }
{
    let Some(time) = time else {
        return best;
    };
    match best {
        Some((_, least)) if least <= time => best,
        _ => Some((place, time)),
    }
}
