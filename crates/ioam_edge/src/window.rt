//! Which of the last 64 numbers came.
ghost use Rattle.std.specs.Prelude.{◌≡◌, ◌<◌, ◌==◌, nat_lt, ◌&&◌};
ghost use Rattle.std.specs.Int.{bit_at};
ghost use Rattle.ioam_edge.specs.Window.{Moved, Set};

/// Whether a window has a bit, which it has not from 64 on.
pub(crate) fn holds(window: u64, bit: u64) -> bool
    ensures { result ≡ (nat_lt bit 64 && (bit_at window bit == 1)) }
{
    bit < 64 && (window >> bit) % 2 == 1
}

/// The window moved up by so many, with the lowest bit set.
pub(crate) fn moved(window: u64, by: u64) -> u64
    requires { 0 < by }
    ensures { Moved window by result }
{
    if by < 64 { (window << by) | 1 } else { 1 }
}

/// The window with a bit set; one from 64 on changes nothing.
pub(crate) fn set(window: u64, bit: u64) -> u64
    ensures { Set window bit result }
{
    if bit < 64 {
        window | (1 << bit)
    } else {
        window
    }
}
