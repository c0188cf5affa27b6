//! What a visit notes of an option.
use ioam_data::Namespace;

/// What a node did with an option.
#[derive(Clone, Copy, Debug, PartialEq, Eq)]
pub enum What {
    /// It added an element to a trace.
    Added {
        /// The 4-octet words of the element, those of the snapshot included.
        words: u8,
    },
    /// The element did not fit into the trace: Overflow is set now.
    Overflowed,
    /// Overflow was set.
    AlreadyOver,
    /// The data is no trace to which a node adds an element.
    Unsuited,
    /// The node doesn't know the namespace.
    Unknown,
    /// It exported what a direct export asks for.
    Exported,
    /// The option is too short for the header of what it is to hold.
    Short,
}

/// A note of an IOAM option that a node met.
#[derive(Clone, Copy, Debug, PartialEq, Eq)]
pub struct NodeNote {
    /// The namespace of the option; 0 where it is too short.
    pub namespace: Namespace,
    /// Whether the option is a direct export; false where it is too short.
    pub direct: bool,
    /// What was done.
    pub what: What,
}
