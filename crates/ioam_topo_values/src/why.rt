//! Why a value is refused.

/// Why a value is refused.
#[derive(Clone, Copy, Debug, PartialEq, Eq)]
pub enum Why {
    /// The octets are no TOML text.
    Text,
    /// There are too many octets.
    Long,
    /// A key is needed and absent.
    Missing,
    /// The value is of another TOML kind than the key's.
    Kind,
    /// The value breaks the key's rule.
    Range,
    /// A name names nothing, or a key is none of the table's.
    Unknown,
    /// The value equals one before.
    Twice,
    /// There are more than the most that there may be.
    TooMany,
}
