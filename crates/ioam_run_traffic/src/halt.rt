//! How the traffic of a domain ends.
use ioam_pcap::CapFault;

/// How the traffic of a domain ends.
#[derive(Clone, Copy, Debug, PartialEq, Eq)]
pub enum Halt {
    /// All captures were taken to their ends.
    Over,
    /// The capture at this place among the captures is faulty at this octet, where its head or its
    /// next record was needed.
    Broken {
        place: usize,
        at: u64,
        fault: CapFault,
    },
    /// As many packets as the domain allows arrived, and one more came.
    Limit,
    /// A capture could not be opened or read.
    ReadFault,
    /// An output could not be opened or written.
    WriteFault,
    /// No memory could be had.
    NoMemory,
}
