//! What nodes and flows record.
ghost use Rattle.std.specs.Prelude.{◌≡◌};
ghost use Rattle.std.specs.List.{All};
ghost use Rattle.ioam_topo.specs.Sound.{IsNodeData, IsFlow};

use crate::data_rows::DataRows;
use crate::flows::Flows;

/// What nodes and flows record: the data of the nodes, and the flows.
#[derive(Drop)]
pub struct Telemetry {
    pub(crate) rows: DataRows,
    pub(crate) flows: Flows,
    ghost sound_data: { All IsNodeData rows.items.items },
    ghost sound_flows: { All IsFlow flows.items.items },
}

impl Telemetry {
    /// These data and flows.
    pub fn new(rows: DataRows, flows: Flows) -> Telemetry
        requires sound_data { All IsNodeData rows.items.items }
        requires sound_flows { All IsFlow flows.items.items }
        ensures rows { result.rows ≡ rows }
        ensures flows { result.flows ≡ flows }
    {
        Telemetry { rows, flows }
    }
}
