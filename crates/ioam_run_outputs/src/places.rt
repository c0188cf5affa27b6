//! Where each output of a run stands among them.
ghost use Rattle.std.specs.Prelude.{◌≡◌, ◌+◌, ◌≤◌, ◌<◌, ◌^◌};
ghost use Rattle.ioam_run_outputs.specs.Outlets.{outlet_count, place_of_exports, place_of_port, place_of_report, place_of_tap};
ghost use Rattle.ioam_topo.specs.declared.domain.Domain.{Domain};

use ioam_topo::{Domain, PortId};

/// The place of the capture of a port.
pub fn place_of_port(port: PortId) -> usize
    ensures { result ≡ place_of_port port }
{
    port.0 as usize
}

/// The place of the capture of a tap, behind so many other taps.
pub fn place_of_tap(domain: &Domain, tap: usize) -> usize
    requires { tap < 2 ^ 63 }
    ensures { result ≡ place_of_tap domain.now tap }
{
    domain.ports().len() + tap
}

/// The place of the report, where there are so many outputs in all: behind it are the exports alone.
pub fn place_of_report(outputs: usize) -> usize
    requires { 2 ≤ outputs }
    ensures behind { result + 2 ≡ outputs }
    ensures place { (domain : Domain) → outputs ≡ outlet_count domain → result ≡ place_of_report domain }
{
    outputs - 2
}

/// The place of the exports, where there are so many outputs in all: they are the last.
pub fn place_of_exports(outputs: usize) -> usize
    requires { 1 ≤ outputs }
    ensures behind { result + 1 ≡ outputs }
    ensures place { (domain : Domain) → outputs ≡ outlet_count domain → result ≡ place_of_exports domain }
{
    outputs - 1
}
