// The closed lists as numbers, and what a refusal tells: number, port, octet.
ghost use Rattle.std.specs.Prelude.{◌≡◌, ℕ, Option};
ghost use Rattle.node.specs.Calls.{port_of};
ghost use Rattle.node.specs.Faults.{node_refusal};
ghost use Rattle.node.specs.Names.{role_number, state_number};
ghost use Rattle.node.specs.Ports.{port_number};

use crate::faults::NodeFault;
use crate::types::{Port, Role, State};

impl TryFrom<u8> for Port {
    type Error = NodeFault;

    ghost try_from_gives = { λ n r. r ≡ port_of n };

    fn try_from(number: u8) -> Result<Port, NodeFault> {
        match number {
            0 => Ok(Port::Zero),
            1 => Ok(Port::One),
            _ => Err(NodeFault::NoSuchPort { port: number }),
        }
    }
}

impl From<Port> for u8 {
    ghost from_gives = { λ p r. r ≡ port_number p };

    fn from(port: Port) -> u8 {
        match port {
            Port::Zero => 0,
            Port::One => 1,
        }
    }
}

impl From<State> for u8 {
    ghost from_gives = { λ s r. r ≡ state_number s };

    // A to E, from 0.
    fn from(state: State) -> u8 {
        match state {
            State::Idle => 0,
            State::Protection => 1,
            State::ManualSwitch => 2,
            State::ForcedSwitch => 3,
            State::Pending => 4,
        }
    }
}

impl From<Role> for u8 {
    ghost from_gives = { λ x r. r ≡ role_number x };

    fn from(role: Role) -> u8 {
        match role {
            Role::Other => 0,
            Role::Owner => 1,
            Role::Neighbour => 2,
        }
    }
}

// A refusal has three numbers, and the number alone loses the other two: so none is a conversion.
impl NodeFault {
    pub fn number(self) -> u8
        ensures { (p : Option ℕ) → result ≡ (node_refusal p self).number }
    {
        match self {
            NodeFault::Frame(fault) => fault.number(),
            NodeFault::NoSuchPort { .. } => 8,
            NodeFault::OutOfStep { .. } => 9,
            NodeFault::NothingToClear => 10,
            NodeFault::NotNow { .. } => 11,
            NodeFault::NoFrameDue => 12,
            NodeFault::Settings => 13,
        }
    }

    // The port, given the one that the refused call named.
    pub fn port(self, called: Option<u8>) -> Option<u8>
        ensures { result ≡ (node_refusal called self).port }
    {
        match self {
            NodeFault::Frame(_) => called,
            NodeFault::NoSuchPort { port } | NodeFault::NotNow { port } => Some(port),
            NodeFault::OutOfStep { port } => Some(u8::from(port)),
            NodeFault::NothingToClear | NodeFault::NoFrameDue | NodeFault::Settings => None,
        }
    }

    pub fn octet(self) -> Option<usize>
        ensures { (p : Option ℕ) → result ≡ (node_refusal p self).octet }
    {
        match self {
            NodeFault::Frame(fault) => fault.octet(),
            _ => None,
        }
    }
}
