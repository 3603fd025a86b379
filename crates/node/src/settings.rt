// What follows from the settings alone.
ghost use Rattle.std.specs.Prelude.{◌≡◌, ◌&&◌};
ghost use Rattle.node.specs.Names.{is_owner};
ghost use Rattle.node.specs.Rows.{awaits};
ghost use Rattle.node.specs.Rules.{idle_ports, rpl_fits};
ghost use Rattle.node.specs.Settling.{start_port};

use crate::ports::only;
use crate::starts::{WTB_START, WTR_START};
use crate::types::{Delay, Port, Role, Settings, Timers};
use fabric::Ports;

impl Settings {
    // Role other has RPL port 0.
    pub(crate) fn rpl_fits(self) -> bool
        ensures { result ≡ rpl_fits self.role self.rpl }
    {
        self.role != Role::Other || self.rpl == Port::Zero
    }

    pub(crate) fn reverts(self) -> bool
        ensures { result ≡ (is_owner self.role && self.revertive) }
    {
        self.role == Role::Owner && self.revertive
    }

    // Await: a revertive owner starts the delay, any other node none.
    pub(crate) fn awaits(self, delay: Delay, guard: u16) -> Timers
        ensures { result ≡ awaits self delay guard }
    {
        let none = Timers {
            guard,
            wtr: 0,
            wtb: 0,
        };
        if !self.reverts() {
            return none;
        }
        match delay {
            Delay::Wtr => Timers {
                wtr: WTR_START,
                ..none
            },
            Delay::Wtb => Timers {
                wtb: WTB_START,
                ..none
            },
        }
    }

    // The ports that an idle station blocks.
    pub(crate) fn idle_ports(self) -> Ports
        ensures { result ≡ idle_ports self.role self.rpl }
    {
        match self.role {
            Role::Other => Ports::NONE,
            Role::Owner | Role::Neighbour => only(self.rpl),
        }
    }

    pub(crate) fn start_port(self) -> Port
        ensures { result ≡ start_port self.role self.rpl }
    {
        match self.role {
            Role::Other => Port::Zero,
            Role::Owner | Role::Neighbour => self.rpl,
        }
    }
}
