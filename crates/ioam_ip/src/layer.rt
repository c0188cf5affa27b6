//! The layers that a captured frame may begin at.
ghost use Rattle.std.specs.Prelude.{◌≡◌, ◌+◌, ◌≤◌, IfSome};
ghost use Rattle.ioam_ip.specs.Layer.{layer_of, link_header};

/// The layer that a captured frame begins at.
#[derive(Clone, Copy, Debug, PartialEq, Eq)]
pub enum Layer {
    /// An Ethernet header (link type 1).
    Ethernet,
    /// An IP header (link types 101 and 229).
    Raw,
}

impl Layer {
    /// The layer of a frame that begins with an Ethernet header if `ethernet`, else with an IP header.
    pub fn of(ethernet: bool) -> Layer
        ensures { result ≡ layer_of ethernet }
    {
        if ethernet {
            Layer::Ethernet
        } else {
            Layer::Raw
        }
    }

    /// How many octets stand before the packet, and the offset of the Ethertype, if they have one.
    pub(crate) fn link_header(self) -> (usize, Option<usize>)
        ensures row { result ≡ link_header self }
        ensures inside { IfSome result.1 (λ at. at + 2 ≤ result.0) }
    {
        match self {
            Layer::Ethernet => (14, Some(12)),
            Layer::Raw => (0, None),
        }
    }
}
