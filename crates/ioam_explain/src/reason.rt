//! A rule that a packet breaks.

/// A rule of the list, in the list's order.
#[derive(Clone, Copy)]
pub enum Rule {
    /// A router inserts no Hop-by-Hop Options header (RFC 8200 section 4).
    HeaderInserted,
    /// A router removes no Hop-by-Hop Options header (RFC 8200 section 4).
    HeaderRemoved,
    /// The Hop-by-Hop Options header keeps its length (RFC 8200 section 4.3).
    HeaderLength,
    /// Payload Length stays (RFC 8200 section 3).
    PayloadLength,
    /// The traffic class stays.
    TrafficClass,
    /// The flow label stays (RFC 6437 section 2).
    FlowLabel,
    /// Next Header stays (RFC 8200 section 3).
    NextHeader,
    /// The hop limit, 2 or more, falls by 1 (RFC 8200 section 3).
    HopLimit,
    /// The source address stays (RFC 8200 section 3).
    Source,
    /// The destination address stays (RFC 8200 section 3).
    Destination,
    /// The padding before and after options stays (RFC 8200 section 4.2).
    Padding,
    /// The type of an option stays (RFC 8200 section 4.2).
    OptionType,
    /// The length of an option stays (RFC 8200 section 4.2).
    OptionLength,
    /// The data of an option whose type says so stay (RFC 8200 section 4.2).
    OptionData,
    /// The data of an option that the router doesn't process stay.
    OptionChanged,
    /// The octet before the IOAM-Option-Type stays (RFC 9486 section 3).
    OptionReserved,
    /// The IOAM-Option-Type stays (RFC 9486 section 3).
    IoamOptionType,
    /// A trace of an unknown namespace stays (RFC 9197 section 4.3).
    LeftNamespace,
    /// A trace with Overflow stays (RFC 9197 section 4.4.1).
    LeftOverflow,
    /// A trace that isn't whole words stays.
    LeftPartWord,
    /// A trace whose RemainingLen is above the words that are there stays.
    LeftRemainingLen,
    /// A trace whose NodeLen doesn't suit its type stays.
    LeftNodeLen,
    /// A trace whose type asks for nothing stays.
    LeftNoField,
    /// An element that fits is added (RFC 9197 section 4.4.1).
    ElementMissing,
    /// Overflow is set if an element doesn't fit (RFC 9197 section 4.4.1).
    OverflowMissing,
    /// The Namespace-ID stays (RFC 9197 section 4.4.1).
    NamespaceId,
    /// NodeLen stays (RFC 9197 section 4.4.1).
    NodeLen,
    /// Loopback, Active and the reserved flag stay (RFC 9197 section 4.4.1).
    Flags,
    /// The IOAM-Trace-Type stays (RFC 9197 section 4.4.1).
    TraceType,
    /// The octet after the IOAM-Trace-Type stays (RFC 9197 section 4.4.1).
    TraceReserved,
    /// Overflow isn't set if an element fits (RFC 9197 section 4.4.1).
    OverflowEarly,
    /// RemainingLen falls by the words of the element (RFC 9197 section 4.4.1).
    RemainingLen,
    /// With Overflow no word changes (RFC 9197 section 4.4.1).
    OverflowWords,
    /// The free words before the element stay (RFC 9197 section 4.4.1).
    FreeWords,
    /// The elements after it stay (RFC 9197 section 4.4.1).
    OlderElements,
    /// Length counts the words of the opaque data (RFC 9197 section 4.4.2.13).
    SnapshotLength,
    /// Bit 0: Hop_Lim is the packet's hop limit (RFC 9197 section 4.4.2.1).
    HopLim,
    /// Bit 0: the id of the node (RFC 9197 section 4.4.2.1).
    NodeId,
    /// Bit 1: the interface by which the packet came, or none (RFC 9197 section 4.4.2.2).
    IngressIfId,
    /// Bit 4: a delay of 31 bits, or too long, or none (RFC 9197 section 4.4.2.5).
    TransitDelay,
    /// Bit 8: Hop_Lim is the packet's hop limit (RFC 9197 section 4.4.2.9).
    HopLimWide,
    /// Bit 8: the id of the node (RFC 9197 section 4.4.2.9).
    NodeIdWide,
    /// Bit 9: the interface by which the packet came, as bit 1 says (RFC 9197 section 4.4.2.10).
    IngressIfIdWide,
    /// Bit 9: the interface by which it left, as bit 1 says (RFC 9197 section 4.4.2.10).
    EgressIfIdWide,
    /// The words of undefined bits are all ones (RFC 9197 section 4.4.1).
    UndefinedBits,
    /// What follows the headers stays (RFC 8200 section 4).
    Payload,
    /// None of these is broken, and the packet is still none that the router may have sent.
    Other,
}

/// What a rule names.
#[derive(Clone, Copy)]
pub enum Value {
    /// A number.
    Number(u64),
    /// A single octet.
    Octet(u8),
    /// The number or a field of all ones.
    OrOnes(u64),
    /// A field of all ones.
    Ones,
    /// Nothing.
    Nothing,
}

/// A rule that a packet breaks, and where.
#[derive(Clone, Copy)]
pub struct Reason {
    /// The rule.
    pub rule: Rule,
    /// The trace, from 1 in the order of the header; 0 for a rule that isn't about a trace.
    pub trace: usize,
    /// The octet, from the first octet of the IPv6 header.
    pub at: usize,
    /// What is there.
    pub found: Value,
    /// What the rule wants.
    pub wanted: Value,
}
