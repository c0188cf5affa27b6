//! Laws of journeys. Each function says one by its contract, and does nothing.
ghost use Rattle.std.specs.Prelude.{◌≡◌, ◌↔◌, ◌<◌, ℕ, List, length};
ghost use Rattle.ioam_clock.specs.declared.sample.Sample.{Sample};
ghost use Rattle.ioam_topo.specs.Domain.{ports};
ghost use Rattle.ioam_topo.specs.declared.domain.Domain.{Domain};
ghost use Rattle.ioam_topo.specs.declared.ids.PortId.{PortId};
ghost use Rattle.ioam_node.specs.Admission.{KnowsFlow};
ghost use Rattle.ioam_node.specs.declared.answer.Admit.{Admit};
ghost use Rattle.ioam_plan.specs.Plans.{Plans};
ghost use Rattle.ioam_plan.specs.Travels.{Travels};
ghost use Rattle.ioam_plan.specs.declared.itinerary.Itinerary.{Itinerary};

/// Says that an itinerary is the planned one exactly where it tells how the packet goes from node to node, by the rules of
/// RFC 8200 section 3 and RFC 2473 section 3, and that exactly one itinerary tells that of an arrival.
pub fn one_journey()
    ensures same { (domain : Domain) (readings : List (List Sample)) (earlier : List Itinerary) (port : PortId) (time : ℕ) (admitted : Admit) (it : Itinerary)
        → Plans domain readings earlier port time admitted it ↔ Travels domain readings earlier port time admitted it }
    ensures one { (domain : Domain) (readings : List (List Sample)) (earlier : List Itinerary) (port : PortId) (time : ℕ) (admitted : Admit)
        (it other : Itinerary) → Travels domain readings earlier port time admitted it
        → Travels domain readings earlier port time admitted other → it ≡ other }
    ensures some { (domain : Domain) (readings : List (List Sample)) (earlier : List Itinerary) (port : PortId) (time : ℕ) (admitted : Admit)
        → port.0 < length (ports domain) → KnowsFlow domain admitted → (it : Itinerary) × Travels domain readings earlier port time admitted it }
{}
