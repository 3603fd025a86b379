// What every call owes after its rows, ticks, Start, and when a frame is due.
ghost use Rattle.std.specs.Prelude.{◌≡◌};
ghost use Rattle.node.specs.Names.{sent_number};
ghost use Rattle.node.specs.Settling.{fresh_due, frame_taken, is_due, lowered, lowered_due, newly_blocked, restarted, same_sent, settle, started, tick_row};

use crate::ports::{bpr_of, only, within};
use crate::rows::{NO_COMMANDS, SENDS_NR};
use crate::starts::{BURST_START, WAIT_START};
use crate::types::{Delay, Due, NodeValues, Outcome, Settings, State, Timers};
use fabric::Ports;
use frame::{NodeId, Request};

// A pair as the rules have it at start: zeros, and no missing pair, since a message of ID 0 without BPR is equal to it.
pub(crate) const ZERO_PAIR: (NodeId, bool) = (
    NodeId {
        octets: [0, 0, 0, 0, 0, 0],
    },
    false,
);

// The number of the message that is sent: none 0, NR 1, NR,RB 2, MS 3, SF 4, FS 5. A function, since `Option<Request>` is
// no type of this crate, so no conversion can be declared for it here.
pub fn sent_number(request: Option<Request>) -> u8
    ensures { result ≡ sent_number request }
{
    match request {
        None => 0,
        Some(Request::NoRequest) => 1,
        Some(Request::RplBlocked) => 2,
        Some(Request::ManualSwitch) => 3,
        Some(Request::SignalFail) => 4,
        Some(Request::ForcedSwitch) => 5,
    }
}

fn newly_blocked(was: Ports, after: Ports) -> bool
    ensures { result ≡ newly_blocked was after }
{
    !within(after, was)
}

// Three frames, where something is sent.
fn fresh_due(request: Option<Request>) -> Due
    ensures { result ≡ fresh_due request }
{
    Due {
        burst: if request.is_some() { BURST_START } else { 0 },
        wait: 0,
    }
}

impl Due {
    // The wait runs only after the burst.
    fn lowered(self) -> Due
        ensures { result ≡ lowered_due self }
    {
        if self.burst == 0 {
            Due {
                wait: self.wait.saturating_sub(1),
                ..self
            }
        } else {
            self
        }
    }
}

impl NodeValues {
    // Two parts of the values, one of them worked out, so no derived `==` says it.
    fn same_sent(self, after: NodeValues) -> bool
        ensures { result ≡ same_sent self after }
    {
        self.sending == after.sending && bpr_of(self.blocked) == bpr_of(after.blocked)
    }

    // A change of what is sent starts a burst; a newly blocked port zeroes the pairs.
    pub(crate) fn settle(self, o: Outcome) -> Outcome
        ensures { result ≡ settle self o }
    {
        let mut after = o.values;
        after.due = if self.same_sent(after) {
            self.due
        } else {
            fresh_due(after.sending.request)
        };
        if newly_blocked(self.blocked, after.blocked) {
            after.pair0 = ZERO_PAIR;
            after.pair1 = ZERO_PAIR;
        }
        Outcome { values: after, ..o }
    }

    pub(crate) fn lowered(self) -> NodeValues
        ensures { result ≡ lowered self }
    {
        NodeValues {
            timers: Timers {
                guard: self.timers.guard.saturating_sub(1),
                wtr: self.timers.wtr.saturating_sub(1),
                wtb: self.timers.wtb.saturating_sub(1),
            },
            due: self.due.lowered(),
            ..self
        }
    }

    // A delay timer that comes to 0 expires in this very tick.
    pub(crate) fn tick_row(self) -> Outcome
        ensures { result ≡ tick_row self }
    {
        if self.timers.wtr == 1 || self.timers.wtb == 1 {
            self.lowered().rest()
        } else {
            self.lowered().still()
        }
    }

    // Start again with the failures that stand: three frames are due in any case.
    pub(crate) fn restarted(self) -> Outcome
        ensures { result ≡ restarted self }
    {
        let o = self.settings.started(self.failed).present();
        Outcome {
            values: NodeValues {
                due: fresh_due(o.values.sending.request),
                ..o.values
            },
            ..o
        }
    }

    pub(crate) fn is_due(self) -> bool
        ensures { result ≡ is_due self }
    {
        self.sending.request.is_some() && (self.due.burst > 0 || self.due.wait == 0)
    }

    pub(crate) fn frame_taken(self) -> NodeValues
        ensures { result ≡ frame_taken self }
    {
        NodeValues {
            due: Due {
                burst: self.due.burst.saturating_sub(1),
                wait: if self.due.burst > 1 { 0 } else { WAIT_START },
            },
            ..self
        }
    }
}

impl Settings {
    // Start.
    pub(crate) fn started(self, failed: Ports) -> NodeValues
        ensures { result ≡ started self failed }
    {
        NodeValues {
            settings: self,
            state: State::Pending,
            blocked: only(self.start_port()),
            failed,
            commands: NO_COMMANDS,
            sending: SENDS_NR,
            timers: self.awaits(Delay::Wtr, 0),
            due: fresh_due(SENDS_NR.request),
            pair0: ZERO_PAIR,
            pair1: ZERO_PAIR,
            mismatch: false,
        }
    }
}
