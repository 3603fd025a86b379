// Why a node refuses a call.
ghost use Rattle.std.specs.Prelude.{◌≡◌};
ghost use Rattle.node.specs.declared.faults.NodeFault.TheVariants.{Frame};

use crate::types::Port;
use frame::FrameFault;

// A refusal of the frame library is held whole. `NotNow` holds the port as it was called, like
// `NoSuchPort`, so that a refusal tells it in the form in which the call named it.
#[derive(Clone, Copy, PartialEq, Eq, Debug)]
pub enum NodeFault {
    Frame(FrameFault),
    NoSuchPort { port: u8 },
    OutOfStep { port: Port },
    NothingToClear,
    NotNow { port: u8 },
    NoFrameDue,
    Settings,
}

impl From<FrameFault> for NodeFault {
    ghost from_gives = { λ e r. r ≡ Frame e };

    fn from(fault: FrameFault) -> NodeFault {
        NodeFault::Frame(fault)
    }
}
