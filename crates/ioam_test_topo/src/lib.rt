//! The tests of a domain's parts: its file and its nodes' data (`ioam_topo_file`), its readings
//! (`ioam_clock`) and the texts of its reports (`ioam_report`); and of the domain of a generated run
//! (`ioam_topo_generated`), which is made once.
#![tactic(auto)]

#[cfg(test)]
mod domains;
#[cfg(test)]
mod faults;
#[cfg(test)]
mod flow_rows;
#[cfg(test)]
mod flows;
#[cfg(test)]
mod generated;
#[cfg(test)]
mod limits;
#[cfg(test)]
mod node_data;
#[cfg(test)]
mod readings;
#[cfg(test)]
mod report;
