//! What is known of a node that sent a packet on, and so what an element that it added must say (RFC 9197 section 4.4).
ghost use Rattle.std.specs.Prelude.{◌≡◌, ◌<◌, ◌^◌};

/// What is known of a node that sent a packet on.
#[derive(Clone, Copy, Debug)]
pub struct Sight {
    /// The hop limit with which it sent the packet on.
    pub hops: u8,
    /// Its id, below 2^56.
    pub id: u64,
    /// The interface by which the packet came.
    pub inward: u32,
    pub ghost hops_below: { hops < 2 ^ 8 },
    pub ghost id_below: { id < 2 ^ 56 },
    pub ghost inward_below: { inward < 2 ^ 32 },
}

impl Sight {
    /// Of a node of this id, which sent the packet on with the hop limit `hops`, and to which it came by the interface `inward`.
    pub fn new(hops: u8, id: u64, inward: u32) -> Sight
        requires { id < 2 ^ 56 }
        ensures hops { result.hops ≡ hops }
        ensures id { result.id ≡ id }
        ensures inward { result.inward ≡ inward }
    {
        Sight { hops, id, inward }
    }
}
