//! Why octets are no part.
use ioam_dex::ExportFault;

/// Why octets are no part. Its place is that of the mark, the count or the record at which it is found.
#[derive(Clone, Copy, Debug, PartialEq, Eq)]
pub enum PartFault {
    /// The first 8 octets are not the mark.
    Mark,
    /// More records are counted than a part may have.
    Count { found: u32 },
    /// A record that is due is faulty.
    Record { fault: ExportFault },
    /// A record has no key, or may not stand behind those in front of it.
    Order,
    /// The octets end inside the mark, the count or a record that is due, of which so many are there.
    Short { have: u32 },
    /// Octets follow the last record.
    Rest,
}
