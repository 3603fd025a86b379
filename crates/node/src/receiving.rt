// The rows of received messages, the mismatch mark and the flush logic, on plain values. A row is a match on the request,
// then on the state, because the table is a closed list.
ghost use Rattle.std.specs.Prelude.{◌≡◌};
ghost use Rattle.node.specs.Receiving.{after_message, after_signal, flush_logic, is_foreign_rb, is_own, noted, pair_after, pair_at, pair_flushes, pair_of, reaches_row, row_of, same_pair, with_pair};
ghost use Rattle.node.specs.Rows.{heard_fail, heard_forced, heard_manual, heard_no_request, heard_row, heard_rpl_blocked, higher, pend_for, quiet_unless_owner, to_idle};

use crate::claims::Claim;
use crate::ports::{meet, only, some};
use crate::rows::{NO_COMMANDS, SILENT};
use crate::settling::ZERO_PAIR;
use crate::types::{Delay, Heard, NodeValues, Outcome, Port, Role, Sending, State};
use fabric::Ports;
use frame::{Body, Message, NodeId, Request};

impl NodeValues {
    // R-APS(FS) opens failed ports too.
    fn heard_forced(self) -> Outcome
        ensures { result ≡ heard_forced self }
    {
        if self.state == State::ForcedSwitch {
            return self.still();
        }
        NodeValues {
            state: State::ForcedSwitch,
            blocked: Ports::NONE,
            commands: NO_COMMANDS,
            sending: SILENT,
            timers: self.timers.stopped(),
            ..self
        }
        .still()
    }

    fn heard_fail(self) -> Outcome
        ensures { result ≡ heard_fail self }
    {
        match self.state {
            State::Idle | State::ManualSwitch | State::Pending => self.yield_to(State::Protection),
            State::Protection | State::ForcedSwitch => self.still(),
        }
    }

    fn heard_manual(self) -> Outcome
        ensures { result ≡ heard_manual self }
    {
        match self.state {
            State::Idle | State::Pending => self.yield_to(State::ManualSwitch),
            State::ManualSwitch if some(self.blocked) => self.release().still(),
            State::ManualSwitch | State::Protection | State::ForcedSwitch => self.still(),
        }
    }

    fn quiet_unless_owner(self) -> Sending
        ensures { result ≡ quiet_unless_owner self }
    {
        if self.settings.role == Role::Owner {
            self.sending
        } else {
            SILENT
        }
    }

    // NR,RB in pending: the owner's ports and message stay.
    fn to_idle(self) -> NodeValues
        ensures { result ≡ to_idle self.settings.role self }
    {
        let (blocked, sending) = match self.settings.role {
            Role::Other => (Ports::NONE, SILENT),
            Role::Owner => (self.blocked, self.sending),
            Role::Neighbour => (only(self.settings.rpl), SILENT),
        };
        NodeValues {
            state: State::Idle,
            blocked,
            commands: NO_COMMANDS,
            sending,
            timers: self.timers.stopped(),
            ..self
        }
    }

    fn heard_rpl_blocked(self) -> Outcome
        ensures { result ≡ heard_rpl_blocked self }
    {
        match self.state {
            State::Idle => NodeValues {
                blocked: meet(self.blocked, self.settings.idle_ports()),
                commands: NO_COMMANDS,
                sending: self.quiet_unless_owner(),
                ..self
            }
            .still(),
            State::Protection | State::ManualSwitch => self.pend(self.timers).still(),
            State::ForcedSwitch => self.pend(self.timers).present(),
            State::Pending => self.to_idle().still(),
        }
    }

    fn higher(self, node: NodeId) -> bool
        ensures { result ≡ higher self node }
    {
        self.settings.id < node
    }

    // To pending, where the delay begins; guard runs on.
    fn pend_for(self, delay: Delay) -> NodeValues
        ensures { result ≡ pend_for self delay }
    {
        self.pend(self.settings.awaits(delay, self.timers.guard))
    }

    fn heard_no_request(self, node: NodeId) -> Outcome
        ensures { result ≡ heard_no_request self node }
    {
        let higher = self.higher(node);
        match self.state {
            State::Idle if self.settings.role == Role::Other && higher => self.yield_to(
                State::Idle,
            ),
            State::Protection => self.pend_for(Delay::Wtr).still(),
            State::ManualSwitch => self.pend_for(Delay::Wtb).still(),
            State::ForcedSwitch => self.pend_for(Delay::Wtb).present(),
            State::Pending if higher => self.yield_to(State::Pending),
            State::Idle | State::Pending => self.still(),
        }
    }

    fn heard_row(self, request: Request, node: NodeId) -> Outcome
        ensures { result ≡ heard_row request self node }
    {
        match request {
            Request::ForcedSwitch => self.heard_forced(),
            Request::SignalFail => self.heard_fail(),
            Request::ManualSwitch => self.heard_manual(),
            Request::RplBlocked => self.heard_rpl_blocked(),
            Request::NoRequest => self.heard_no_request(node),
        }
    }

    fn is_own(self, node: NodeId) -> bool
        ensures { result ≡ is_own self node }
    {
        node == self.settings.id
    }

    // An owner that hears NR,RB of another is not alone.
    fn is_foreign_rb(self, heard: Heard) -> bool
        ensures { result ≡ is_foreign_rb self heard }
    {
        self.settings.role == Role::Owner
            && heard.request == Request::RplBlocked
            && !self.is_own(heard.node)
    }

    fn noted(self, heard: Heard) -> NodeValues
        ensures { result ≡ noted self heard }
    {
        NodeValues {
            mismatch: self.mismatch || self.is_foreign_rb(heard),
            ..self
        }
    }

    fn reaches_row(self, heard: Heard) -> bool
        ensures { result ≡ reaches_row self heard }
    {
        !self.is_own(heard.node) && self.reaches(Claim::from(heard.request))
    }

    fn row_of(self, heard: Heard) -> Outcome
        ensures { result ≡ row_of self heard }
    {
        let seen = self.noted(heard);
        if self.reaches_row(heard) {
            seen.heard_row(heard.request, heard.node)
        } else {
            seen.still()
        }
    }

    fn pair_at(self, port: Port) -> (NodeId, bool)
        ensures { result ≡ pair_at self port }
    {
        match port {
            Port::Zero => self.pair0,
            Port::One => self.pair1,
        }
    }

    fn with_pair(self, port: Port, pair: (NodeId, bool)) -> NodeValues
        ensures { result ≡ with_pair self port pair }
    {
        match port {
            Port::Zero => NodeValues {
                pair0: pair,
                ..self
            },
            Port::One => NodeValues {
                pair1: pair,
                ..self
            },
        }
    }

    // A signal that differs from both ports' pairs flushes, unless it is DNF or the own.
    fn pair_flushes(self, heard: Heard) -> bool
        ensures { result ≡ pair_flushes self self.pair0 self.pair1 heard }
    {
        heard.request != Request::NoRequest
            && !same_pair(heard.pair(), self.pair0)
            && !same_pair(heard.pair(), self.pair1)
            && !heard.dnf
            && !self.is_own(heard.node)
    }

    fn after_signal(self, port: Port, heard: Heard) -> Outcome
        ensures { result ≡ after_signal self port heard }
    {
        // While guard runs, signals are dropped.
        if self.timers.guard > 0 {
            return self.still();
        }
        self.settle(self.row_of(heard)).flush_logic(port, heard)
    }

    // What a message does to the values.
    pub(crate) fn after_message(self, port: Port, message: Message) -> Outcome
        ensures { result ≡ after_message self port message }
    {
        let node = message.node;
        match message.body {
            Body::Event => Outcome {
                values: self,
                flush: !self.is_own(node),
            },
            Body::Signal { request, dnf, bpr } => {
                let heard = Heard {
                    node,
                    request,
                    dnf,
                    bpr,
                };
                self.after_signal(port, heard)
            }
        }
    }
}

// Pairs are tuples that a function of their own compares, as a rule of the project has it.
fn same_pair(a: (NodeId, bool), b: (NodeId, bool)) -> bool
    ensures { result ≡ same_pair a b }
{
    a == b
}

impl Heard {
    fn pair(self) -> (NodeId, bool)
        ensures { result ≡ pair_of self }
    {
        (self.node, self.bpr)
    }

    // NR zeroes the pair that is stored, any other signal takes its place.
    fn pair_after(self, stored: (NodeId, bool)) -> (NodeId, bool)
        ensures { result ≡ pair_after stored self }
    {
        if self.request == Request::NoRequest {
            ZERO_PAIR
        } else if same_pair(self.pair(), stored) {
            stored
        } else {
            self.pair()
        }
    }
}

impl Outcome {
    fn flush_logic(self, port: Port, heard: Heard) -> Outcome
        ensures { result ≡ flush_logic self port heard }
    {
        let pair = heard.pair_after(self.values.pair_at(port));
        Outcome {
            values: self.values.with_pair(port, pair),
            flush: self.flush || self.values.pair_flushes(heard),
        }
    }
}
