//! Jobs, and the batches in which workers run them (`ioam_batch`).
mod batches;
mod making;
mod rows;
