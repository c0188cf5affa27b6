//! The tests of files and captures: of the desks (`desk`); of captures of either form
//! (`ioam_capture`), what a reader shows in any pieces, and the turn of several; of the form pcapng
//! (`ng`); and of captures that are read in pieces (`stream`).
#![tactic(auto)]

#[cfg(test)]
mod desk;
#[cfg(test)]
mod due;
#[cfg(test)]
mod forms;
#[cfg(test)]
mod ng;
#[cfg(test)]
mod puts;
#[cfg(test)]
mod shown;
#[cfg(test)]
mod stream;
