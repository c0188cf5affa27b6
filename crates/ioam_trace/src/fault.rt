//! Why octets are no trace.
/// Why octets are not the data of a trace option.
#[derive(Clone, Copy, Debug, PartialEq, Eq)]
pub enum TraceFault {
    /// There are fewer than 8 octets, or the octets are not whole words of four octets.
    Short {
        /// How many octets there are.
        have: usize,
    },
    /// RemainingLen exceeds the words behind the header. Incremental traces never have it.
    Space {
        /// RemainingLen.
        remaining: u8,
    },
    /// NodeLen is not right for the type.
    NodeLen {
        /// NodeLen.
        found: u8,
        /// The words of the type's defined fields and one for each undefined bit.
        wanted: u8,
    },
    /// The used words from a place on begin no element.
    Element {
        /// The place in octets from the start of the header.
        at: usize,
    },
}
