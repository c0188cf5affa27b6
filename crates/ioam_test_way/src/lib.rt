//! The tests of the way of one packet: enclosed in a tunnel (`ioam_tunnel`), planned (`ioam_plan`), visited
//! (`ioam_node_visit`), and with others in batches (`ioam_batch`). Octets are by hand, from the RFCs' formats.
#![tactic(auto)]

#[cfg(test)]
mod batch;
#[cfg(test)]
mod file;
#[cfg(test)]
mod plan;
#[cfg(test)]
mod tunnel;
#[cfg(test)]
mod visit;
