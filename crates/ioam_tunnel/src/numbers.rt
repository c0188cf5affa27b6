//! What the entry node writes of a packet.
/// What the entry node writes of one packet.
#[derive(Clone, Copy, Debug, PartialEq, Eq)]
pub struct Numbers {
    /// How many packets were enclosed in the flow before it, below 2^32.
    pub number: u64,
    /// The sequence number of its direct export option, if it carries one.
    pub direct: Option<u32>,
    /// The encapsulation limit of the outer packet, if it has one.
    pub limit: Option<u8>,
    /// The seconds and the fraction of the entry node's clock at the packet's arrival, if it has
    /// one.
    pub stamp: Option<(u32, u32)>,
}
