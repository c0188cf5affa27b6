//! Where the data records of a message stand.

/// Where a data record stands in its message, where its set ends, and the set's template.
#[derive(Clone, Copy)]
pub(crate) struct Place {
    pub from: u16,
    pub to: u16,
    pub id: u16,
}
