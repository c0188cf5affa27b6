//! The domain that a file tells.
use ioam_topo::Domain;
use ioam_topo_file::read_domain;
use std::alloc::Global;

// The domain of a file, where it is read: what a domain has to do with its file is left behind here,
// so that no proof below looks into it.
fn domain_of(alloc: Global, file: &[u8]) -> Option<Domain> {
    read_domain(alloc, file).ok()
}

// Whether a file is read, and so is its domain. The proof of a function that owns a domain takes
// long: so each test looks through here.
pub(crate) fn is_read_so<F: Fn(&Domain) -> bool + Copy>(alloc: Global, file: &[u8], look: F) -> bool
    requires { F.IsAlwaysCallable look }
{
    match domain_of(alloc, file) {
        Some(domain) => look(&domain),
        None => false,
    }
}
