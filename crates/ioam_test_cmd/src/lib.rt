//! The tests of the top call (`ioam_cmd`) that no case of `ioam_cases` can say: a run over a desk that never fails,
//! and runs behind gates.
#![tactic(auto)]

#[cfg(test)]
mod gated;
#[cfg(test)]
mod rows;
#[cfg(test)]
mod tests;
