//! The tests of packets and their header chains (`ioam_ip`, RFC 8200), of the lines of options
//! (`ioam_report_options`), of the data fields (`ioam_data`, `ioam_trace`, `ioam_edge`, RFC 9197), of direct
//! export data and export records (`ioam_dex`, RFC 9326), of these regrouped (`ioam_pool`, `ioam_collect`,
//! `ioam_report_groups`) and as parts (`ioam_part`), a file for each. Octets and lines are by hand, from the
//! RFCs' formats.
#![tactic(auto)]

#[cfg(test)]
mod chains;
#[cfg(test)]
mod data;
#[cfg(test)]
mod dex;
#[cfg(test)]
mod edge;
#[cfg(test)]
mod groups;
#[cfg(test)]
mod ip;
#[cfg(test)]
mod joining;
#[cfg(test)]
mod layout;
#[cfg(test)]
mod options;
#[cfg(test)]
mod trace;
