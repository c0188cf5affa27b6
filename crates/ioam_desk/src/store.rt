//! What a desk in memory keeps: its input slots, its output slots, and what each name holds.

pub(crate) mod input;
pub(crate) mod inputs;
pub(crate) mod octets;
pub(crate) mod outputs;
pub(crate) mod piece;
