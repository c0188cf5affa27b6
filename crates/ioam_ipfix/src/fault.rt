//! Why octets are no messages of the profile.

/// Why octets are no messages of the profile. Lengths count octets.
#[derive(Clone, Copy, Debug, PartialEq, Eq)]
pub enum IpfixFault {
    /// The version of a message isn't 10.
    Version { found: u16 },
    /// The length of a message is below 16, that of a set is below 4 or passes the message, or so many
    /// octets are left where a set is due, fewer than 4, or behind the last template of a set, fewer
    /// than 4 and not all zero.
    Length { found: u16 },
    /// The id of a set is 0, 1 or 4 to 255.
    Set { found: u16 },
    /// A template that isn't one of the eight, or a data set of one that wasn't seen before it.
    Template { found: u16 },
    /// From this place of the message on stands no data record of its set's template, and no padding.
    Field { at: u32 },
    /// The input ends inside a message, of which so many octets are there.
    Short { have: u32 },
}
