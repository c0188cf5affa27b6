//! The tests of the desks, real files among them, of reading and writing whole files on them (`ioam_desk`), and of outputs
//! that are written in pieces (`ioam_desk_outputs`). Desks in memory move small pieces, and their calls
//! fail where a test says so.
mod host;
mod memory;
mod outputs;
mod whole_files;
