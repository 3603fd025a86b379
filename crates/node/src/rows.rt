// Table 10-2 of ITU-T G.8032 on plain values: the action parts, then the rows of local requests. A row is a match on the
// state and calls the parts that stand in the table, which is a closed list, so it holds no functions.
ghost use Rattle.std.specs.Prelude.{◌≡◌, false};
ghost use Rattle.node.specs.Names.{guard_start};
ghost use Rattle.frame.specs.declared.types.Request.TheVariants.{NoRequest};
ghost use Rattle.node.specs.declared.types.State.TheVariants.{ForcedSwitch, Pending};
ghost use Rattle.node.specs.Rows.{awaits, clear_fail, clear_row, fail_row, force_more, force_new, force_row, manual_row, moved, newly_failed, no_commands, pend, present, release, repair_row, repaired, rest, seize_failed, seize_ports, send, still, stopped, yield_to};

use crate::ports::{at, meet, only, some, with_mark, within};
use crate::starts::GUARD_START;
use crate::types::{Commands, Delay, NodeValues, Outcome, Port, Role, Sending, State, Timers};
use fabric::Ports;
use frame::Request;

pub(crate) const NO_COMMANDS: Commands = Commands {
    forced: Ports::NONE,
    manual: None,
};

pub(crate) const SILENT: Sending = Sending {
    request: None,
    dnf: false,
};

pub(crate) const SENDS_NR: Sending = Sending {
    request: Some(Request::NoRequest),
    dnf: false,
};

impl Timers {
    // Leaving pending stops WTR and WTB.
    pub(crate) fn stopped(self) -> Timers
        ensures { result ≡ stopped self }
    {
        Timers {
            wtr: 0,
            wtb: 0,
            ..self
        }
    }
}

impl NodeValues {
    // Nothing more changes, and no flush.
    pub(crate) fn still(self) -> Outcome
        ensures { result ≡ still self }
    {
        Outcome {
            values: self,
            flush: false,
        }
    }

    // Seize: DNF where the ports were blocked already, else flush; any other port opens.
    fn seize(self, ports: Ports, request: Request, state: State, commands: Commands) -> Outcome
        ensures { result ≡ seize_ports self ports request state commands }
    {
        let was = within(ports, self.blocked);
        Outcome {
            values: NodeValues {
                state,
                blocked: ports,
                commands,
                sending: Sending {
                    request: Some(request),
                    dnf: was,
                },
                timers: self.timers.stopped(),
                ..self
            },
            flush: !was,
        }
    }

    // Rest: the RPL port alone blocked, NR,RB sent, idle.
    pub(crate) fn rest(self) -> Outcome
        ensures { result ≡ rest self }
    {
        let rpl = only(self.settings.rpl);
        self.seize(rpl, Request::RplBlocked, State::Idle, NO_COMMANDS)
    }

    // To pending without commands: NR is sent, guard starts and the delay begins.
    fn asks_nothing(self, delay: Delay) -> NodeValues
        ensures { result ≡ moved self Pending self.blocked no_commands (send NoRequest false) (awaits self.settings delay guard_start) }
    {
        NodeValues {
            state: State::Pending,
            commands: NO_COMMANDS,
            sending: SENDS_NR,
            timers: self.settings.awaits(delay, GUARD_START),
            ..self
        }
    }

    // Release: commands end; with a port blocked guard starts and NR is sent.
    pub(crate) fn release(self) -> NodeValues
        ensures { result ≡ release self }
    {
        if some(self.blocked) {
            self.asks_nothing(Delay::Wtb)
        } else {
            self.pend(self.timers)
        }
    }

    // Yield: only failed ports stay blocked, nothing is sent.
    pub(crate) fn yield_to(self, state: State) -> Outcome
        ensures { result ≡ yield_to self state }
    {
        NodeValues {
            state,
            blocked: meet(self.blocked, self.failed),
            commands: NO_COMMANDS,
            sending: SILENT,
            timers: self.timers.stopped(),
            ..self
        }
        .still()
    }

    pub(crate) fn pend(self, timers: Timers) -> NodeValues
        ensures { result ≡ pend self timers }
    {
        NodeValues {
            state: State::Pending,
            commands: NO_COMMANDS,
            timers,
            ..self
        }
    }

    // Local SF: where a port is failed, the failed ports are blocked, and no other.
    pub(crate) fn present(self) -> Outcome
        ensures { result ≡ present self }
    {
        if some(self.failed) {
            self.seize_failed()
        } else {
            self.still()
        }
    }

    fn seize_failed(self) -> Outcome
        ensures { result ≡ seize_failed self }
    {
        self.seize(
            self.failed,
            Request::SignalFail,
            State::Protection,
            NO_COMMANDS,
        )
    }

    pub(crate) fn clear_row(self) -> Outcome
        ensures { result ≡ clear_row self }
    {
        match self.state {
            State::Idle | State::Protection => self.still(),
            State::ManualSwitch => self.release().still(),
            State::ForcedSwitch => self.release().present(),
            State::Pending if self.settings.role == Role::Owner => self.rest(),
            State::Pending => self.still(),
        }
    }

    fn force_new(self, port: Port) -> Outcome
        ensures { result ≡ force_new self port }
    {
        let commands = Commands {
            forced: only(port),
            manual: None,
        };
        self.seize(
            only(port),
            Request::ForcedSwitch,
            State::ForcedSwitch,
            commands,
        )
    }

    // A further FS in forced switch: the other port stays as it is.
    fn force_more(self, port: Port) -> Outcome
        requires { self.state ≡ ForcedSwitch }
        ensures { result ≡ force_more self port }
    {
        let values = NodeValues {
            blocked: with_mark(self.blocked, port, true),
            commands: Commands {
                forced: with_mark(self.commands.forced, port, true),
                manual: None,
            },
            sending: Sending {
                request: Some(Request::ForcedSwitch),
                dnf: false,
            },
            timers: self.timers.stopped(),
            ..self
        };
        Outcome {
            values,
            flush: true,
        }
    }

    pub(crate) fn force_row(self, port: Port) -> Outcome
        ensures { result ≡ force_row self port }
    {
        match self.state {
            State::ForcedSwitch => self.force_more(port),
            _ => self.force_new(port),
        }
    }

    pub(crate) fn manual_row(self, port: Port) -> Outcome
        ensures { result ≡ manual_row self port }
    {
        let commands = Commands {
            forced: Ports::NONE,
            manual: Some(port),
        };
        self.seize(
            only(port),
            Request::ManualSwitch,
            State::ManualSwitch,
            commands,
        )
    }

    // In forced switch a failure is only noted. (The rows of a failure and of a repair differ in all but the mark that they
    // set: one function with a flag would part at every line.)
    fn newly_failed(self) -> Outcome
        ensures { result ≡ newly_failed self }
    {
        match self.state {
            State::ForcedSwitch => self.still(),
            _ => self.seize_failed(),
        }
    }

    pub(crate) fn fail_row(self, port: Port) -> Outcome
        ensures { result ≡ fail_row self port }
    {
        if at(self.failed, port) {
            return self.still();
        }
        NodeValues {
            failed: with_mark(self.failed, port, true),
            ..self
        }
        .newly_failed()
    }

    // Local clear SF.
    fn clear_fail(self) -> Outcome
        ensures { result ≡ clear_fail self }
    {
        self.asks_nothing(Delay::Wtr).still()
    }

    fn repaired(self) -> Outcome
        ensures { result ≡ repaired self }
    {
        match self.state {
            State::Protection if some(self.failed) => self.seize_failed(),
            State::Protection => self.clear_fail(),
            _ => self.still(),
        }
    }

    pub(crate) fn repair_row(self, port: Port) -> Outcome
        ensures { result ≡ repair_row self port }
    {
        if !at(self.failed, port) {
            return self.still();
        }
        NodeValues {
            failed: with_mark(self.failed, port, false),
            ..self
        }
        .repaired()
    }
}
