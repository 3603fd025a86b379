// Why a ring refuses a call.
ghost use Rattle.std.specs.Prelude.{◌≡◌};
ghost use Rattle.ring.specs.Faults.{unplaced};
ghost use Rattle.ring.specs.declared.faults.RingFault.TheVariants.{Node};

use node::NodeFault;

// A refusal of a node is held whole.
#[derive(Clone, Copy, PartialEq, Eq, Debug)]
pub enum RingFault {
    Count,
    Unlawful,
    NoStation,
    Unnamed,
    NotOwner,
    Node(NodeFault),
}

impl From<NodeFault> for RingFault {
    ghost from_gives = { λ e r. r ≡ Node e };

    fn from(fault: NodeFault) -> RingFault {
        RingFault::Node(fault)
    }
}

// A cause with its places, as a public call answers it.
#[derive(Clone, Copy, PartialEq, Eq, Debug)]
pub struct RingRefusal {
    pub station: Option<usize>,
    pub port: Option<u8>,
    pub cause: RingFault,
}

// A refusal that names no place.
impl From<RingFault> for RingRefusal {
    ghost from_gives = { λ e r. r ≡ unplaced e };

    fn from(cause: RingFault) -> RingRefusal {
        RingRefusal {
            station: None,
            port: None,
            cause,
        }
    }
}
