//! The tests of journeys (`ioam_plan`): what is planned for arrivals one behind the other. Visits, ends
//! and numbers are by hand, from the domain's links, routes and flow.
mod domains;
mod journeys;
mod reports;
mod rows;
mod stops;
