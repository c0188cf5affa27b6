//! Where a node sends a target: along the route with the longest prefix.
ghost use Rattle.std.specs.Prelude.{◌≡◌, ◌<◌, nat_eq, ◌&&◌, length, map, option_map, position, find, slice_get, Some, IfSome};
ghost use Rattle.ioam_topo.specs.Keyed.{is_route, key_of_route};
ghost use Rattle.ioam_topo.specs.Forward.{longest, bits_of, fits, way_to, IsWayTo, IsWayFrom};
ghost use Rattle.ioam_topo.specs.Index.{lengths_of, ranked, takes, with_mask};

use crate::domain::Domain;
use crate::ids::{NodeId, Way};
use crate::index::MaskedRoute;
use crate::masks::masked;
use crate::parts::Route;
use crate::prefix::Prefix;

/// Up to so many routes of a node are gone along, from the longest prefix on, and so many of its data; of
/// more those that have the target's bits, and those of the namespace, are looked up.
pub(crate) const FEW: usize = 32;

// Whether a target has the prefix of a route.
fn takes(own: &MaskedRoute, target: u128) -> bool
    ensures { result ≡ takes target own.now }
{
    target & own.mask == own.route.prefix.bits
}

// The first of these routes whose prefix a target has.
fn first_of(routes: &[MaskedRoute], target: u128) -> Option<Route>
    ensures { result ≡ option_map (λ own. own.route) (find (takes target) routes.now) }
{
    for own in routes {
        if takes(own, target) {
            return Some(own.route);
        }
    }
    None
}

impl Domain {
    ghost use Rattle.ioam_topo.specs.Domain.{links, ports, routes};

    // A route by its place.
    fn route(&self, at: u32) -> Route
        requires { at < length (routes self.now) }
        ensures { slice_get (routes self.now) at ≡ Some result }
    {
        self.parts.routes[at as usize]
    }

    // The routes of a node, those with the longest prefixes first.
    fn routes_at(&self, node: NodeId) -> &[MaskedRoute]
        ensures { result.now ≡ map with_mask (ranked (routes self.now) node.0) }
    {
        match self.index.get(node.0 as usize) {
            Some(at) => at.routes.as_slice(),
            None => &[],
        }
    }

    // The lengths of the prefixes of a node's routes, the longest first.
    fn lengths_at(&self, node: NodeId) -> &[u8]
        ensures { result.now ≡ lengths_of (routes self.now) node.0 }
    {
        match self.index.get(node.0 as usize) {
            Some(at) => at.lengths.as_slice(),
            None => &[],
        }
    }

    // The place of the route of a node with a prefix.
    fn place_of_route(&self, node: NodeId, prefix: Prefix) -> Option<u32>
        ensures value { result ≡ position (is_route node.0 prefix) (map key_of_route (routes self.now)) }
        ensures within { IfSome result (λ at. at < length (routes self.now)) }
    {
        self.by_prefix.get(&(node.0, prefix)).copied()
    }

    // The route of a node for so many first bits of a target.
    fn route_by(&self, node: NodeId, length: u8, target: u128) -> Option<Route>
        ensures { result ≡ longest bits_of (λ route. fits node.0 target route && nat_eq length (bits_of route)) (routes self.now) }
    {
        let prefix = Prefix {
            bits: masked(length, target),
            length,
        };
        match self.place_of_route(node, prefix) {
            Some(at) => Some(self.route(at)),
            None => None,
        }
    }

    // The route of a node for a target, which is the longest, by the lengths of the node's routes.
    fn route_by_length(&self, node: NodeId, target: u128) -> Option<Route>
        ensures { result ≡ longest bits_of (fits node.0 target) (routes self.now) }
    {
        for length in self.lengths_at(node) {
            match self.route_by(node, *length, target) {
                Some(route) => return Some(route),
                None => {}
            }
        }
        None
    }

    // The route of a node for a target, which is the longest.
    fn route_to(&self, node: NodeId, target: u128) -> Option<Route>
        ensures { result ≡ longest bits_of (fits node.0 target) (routes self.now) }
    {
        let own = self.routes_at(node);
        if own.len() <= FEW {
            first_of(own, target)
        } else {
            self.route_by_length(node, target)
        }
    }

    /// Where a node sends a target: the way of the longest of the node's routes whose prefix the
    /// target has (RFC 7608 section 2); none where there is none, and none for a node that
    /// is not of the domain.
    pub fn forward(&self, node: NodeId, target: u128) -> Option<Way>
        ensures value { result ≡ way_to (routes self.now) node.0 target }
        ensures longest { IsWayTo (routes self.now) node.0 target result }
        ensures inside { IfSome result (IsWayFrom (links self.now) (ports self.now) node.0) }
    {
        match self.route_to(node, target) {
            Some(route) => Some(route.way),
            None => None,
        }
    }
}
