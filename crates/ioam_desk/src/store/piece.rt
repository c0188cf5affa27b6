//! How many octets one call moves.
ghost use Rattle.std.specs.Prelude.{◌≡◌, ◌≤◌, ◌^◌, ◌-◌, min};

/// The most octets that one read or write moves, at least 1.
#[derive(Drop)]
pub(crate) struct Piece {
    most: usize,
    ghost some: { 1 ≤ most },
}

impl Piece {
    /// No bound.
    pub(crate) fn new() -> Piece
        ensures { result.most ≡ 2 ^ 64 - 1 }
    {
        Piece { most: usize::MAX }
    }

    pub(crate) fn set(&mut self, most: usize)
        requires { 1 ≤ most }
        ensures { self.new.most ≡ most }
    {
        self.most = most;
    }

    /// As many octets of so many as one call moves.
    pub(crate) fn of(&self, octets: usize) -> usize
        ensures { result ≡ min self.now.most octets }
    {
        self.most.min(octets)
    }
}
