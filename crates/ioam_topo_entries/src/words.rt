//! The tables of a domain file and the keys of their entries.
use std::marker::Model;

/// The tables of a domain file.
#[derive(Clone, Copy, Debug, PartialEq, Eq)]
pub enum Table {
    /// The file's own keys, and the file as a whole.
    Top,
    /// `node`
    NodeTable,
    /// `link`
    LinkTable,
    /// `port`
    PortTable,
    /// `route`
    RouteTable,
    /// `data`
    DataTable,
    /// `flow`
    FlowTable,
    /// `extra`
    ExtraTable,
}

/// The text of a key as it stands in the file, or [`Field::OTHER`] or [`Field::NONE`].
#[derive(Debug, Drop)]
pub struct Field(pub &'static str);

impl Model for Field {
    ghost use Rattle.std.specs.Prelude.{List, ℕ};

    ghost Value = { List ℕ };

    ghost view = { λ field. field.0.now };
}

impl Field {
    /// In place of a key that its table doesn't list.
    pub const OTHER: &'static str = "other";

    /// In place of a key, where the fault is one of the table or of the file.
    pub const NONE: &'static str = "-";
}
