// Whether plain values make a node: each rule of specs/Rules.antt as a test.
ghost use Rattle.std.specs.Prelude.{◌≡◌, true, false, MatchOption};
ghost use Rattle.node.specs.Rules.{burst_ok, failed_ok, forced_ok, idle_ok, makes_node, message_ok, sending_ok, settings_ok, timers_ok};

use crate::node::Node;
use crate::ports::{at, some, within};
use crate::rows::NO_COMMANDS;
use crate::starts::{BURST_START, GUARD_START, WAIT_START, WTB_START, WTR_START};
use crate::types::{NodeValues, Role, Settings, State};
use fabric::Ports;
use frame::{Request, is_in_range};

// Settings in range: what set-up asks of them.
#[tactic(auto, unfolding(crate::specs::Rules::settings_ok))]
pub fn settings_ok(settings: Settings) -> bool
    ensures { result ≡ settings_ok settings }
{
    is_in_range(settings.id, settings.channel, settings.mel) && settings.rpl_fits()
}

impl NodeValues {
    fn failed_ok(self) -> bool
        ensures { result ≡ failed_ok self.state self.blocked self.failed }
    {
        match self.state {
            State::Protection => within(self.failed, self.blocked),
            State::ForcedSwitch => true,
            _ => self.failed == Ports::NONE,
        }
    }

    fn forced_ok(self) -> bool
        ensures { result ≡ forced_ok self.state self.blocked self.commands }
    {
        let commands = self.commands;
        match self.state {
            State::ManualSwitch => {
                commands.forced == Ports::NONE
                    && commands.manual.is_none_or(|port| at(self.blocked, port))
            }
            State::ForcedSwitch => {
                within(commands.forced, self.blocked) && commands.manual.is_none()
            }
            _ => commands == NO_COMMANDS,
        }
    }

    fn message_ok(self) -> bool
        ensures { result ≡ message_ok self.sending.request self.settings.role self.state self.failed self.commands self.sending.dnf self.mismatch }
    {
        let owns = self.settings.role == Role::Owner;
        let dnf = self.sending.dnf;
        match self.sending.request {
            None => !dnf,
            Some(Request::NoRequest) => {
                !dnf && (self.state == State::Pending || (owns && self.mismatch))
            }
            Some(Request::RplBlocked) => owns && self.state == State::Idle,
            Some(Request::SignalFail) => self.state == State::Protection && some(self.failed),
            Some(Request::ManualSwitch) => self.commands.manual.is_some(),
            Some(Request::ForcedSwitch) => some(self.commands.forced),
        }
    }

    fn sending_ok(self) -> bool
        ensures { result ≡ sending_ok self.settings.role self.state self.blocked self.failed self.commands self.sending self.mismatch }
    {
        self.message_ok() && (self.mismatch || self.sending.request.is_none() || some(self.blocked))
    }

    fn burst_ok(self) -> bool
        ensures { result ≡ burst_ok self.sending self.due }
    {
        let burst = self.due.burst;
        let wait = self.due.wait;
        if self.sending.request.is_some() {
            burst <= BURST_START && wait <= WAIT_START && (burst == 0 || wait == 0)
        } else {
            burst == 0 && wait == 0
        }
    }

    fn timers_ok(self) -> bool
        ensures { result ≡ timers_ok self.settings.role self.settings.revertive self.state self.timers }
    {
        let timers = self.timers;
        let bounded = timers.guard <= GUARD_START
            && timers.wtr <= WTR_START
            && timers.wtb <= WTB_START;
        let waits = if self.settings.reverts() && self.state == State::Pending {
            timers.wtr == 0 || timers.wtb == 0
        } else {
            timers.wtr == 0 && timers.wtb == 0
        };
        bounded && waits
    }

    fn idle_ok(self) -> bool
        ensures { result ≡ idle_ok self.settings.role self.settings.rpl self.state self.blocked self.mismatch }
    {
        self.mismatch || self.state != State::Idle || self.blocked == self.settings.idle_ports()
    }

    fn makes_node(self) -> bool
        ensures { result ≡ makes_node self }
    {
        // (By `&`, with no branch between them: all seven are short, and on a node each is asked.)
        settings_ok(self.settings)
            & (self.failed_ok()
                & (self.forced_ok()
                    & (self.sending_ok()
                        & (self.burst_ok() & (self.timers_ok() & self.idle_ok())))))
    }
}

impl Node {
    // The node that plain values make; none where they break a rule.
    #[tactic(auto, using(crate::proofs::Lawful::parts))]
    pub fn from_values(values: NodeValues) -> Option<Node>
        ensures { MatchOption result (makes_node values ≡ false) (λ n. (n.values ≡ values) × (makes_node values ≡ true)) }
    {
        if values.makes_node() {
            Some(Node { values })
        } else {
            None
        }
    }
}
