// The words of a node: what it is set to, and what it holds.
use fabric::Ports;
use frame::{Channel, NodeId, Request};

// The owner blocks the ring protection link (RPL) at its end, the neighbour at the other end.
#[derive(Clone, Copy, PartialEq, Eq, Debug)]
pub enum Role {
    Other,
    Owner,
    Neighbour,
}

#[derive(Clone, Copy, PartialEq, Eq, Debug)]
pub enum Port {
    Zero,
    One,
}

// The states A to E of Table 10-2 of ITU-T G.8032.
#[derive(Clone, Copy, PartialEq, Eq, Debug)]
pub enum State {
    Idle,
    Protection,
    ManualSwitch,
    ForcedSwitch,
    Pending,
}

#[derive(Clone, Copy, PartialEq, Eq, Debug)]
pub struct Settings {
    pub id: NodeId,
    pub channel: Channel,
    pub mel: u8,
    pub role: Role,
    pub rpl: Port,
    pub revertive: bool,
}

// The commands in force: forced switch (FS) at each port, and the port under manual switch (MS).
#[derive(Clone, Copy, PartialEq, Eq, Debug)]
pub struct Commands {
    pub forced: Ports,
    pub manual: Option<Port>,
}

// The message that the node sends, but for its BPR, which follows from the ports. DNF stands beside the request and not in
// it, so that plain values can hold what breaks the rule that nothing sent has no DNF, and be refused for it.
#[derive(Clone, Copy, PartialEq, Eq, Debug)]
pub struct Sending {
    pub request: Option<Request>,
    pub dnf: bool,
}

// Ticks left of guard, wait to restore (WTR) and wait to block (WTB); 0 where a timer does not run. The rules count and bound
// them as numbers down to 0: an Option would give the timer that has run out two forms.
#[derive(Clone, Copy, PartialEq, Eq, Debug)]
pub struct Timers {
    pub guard: u16,
    pub wtr: u16,
    pub wtb: u16,
}

// Frames of the burst that are left, and ticks to the next frame after it.
#[derive(Clone, Copy, PartialEq, Eq, Debug)]
pub struct Due {
    pub burst: u8,
    pub wait: u16,
}

// What a revertive owner waits for in pending: WTR to restore, WTB to block.
#[derive(Clone, Copy, PartialEq, Eq, Debug)]
pub enum Delay {
    Wtr,
    Wtb,
}

// All that a node holds, as plain values: no rule is promised of them.
#[derive(Clone, Copy, PartialEq, Eq, Debug)]
pub struct NodeValues {
    pub settings: Settings,
    pub state: State,
    pub blocked: Ports,
    pub failed: Ports,
    pub commands: Commands,
    pub sending: Sending,
    pub timers: Timers,
    pub due: Due,
    // A tuple for each port, which a function of its own compares, as a rule of the project has it.
    pub pair0: (NodeId, bool),
    pub pair1: (NodeId, bool),
    pub mismatch: bool,
}

// What a row gives: the values after it, and whether it flushes.
#[derive(Clone, Copy, PartialEq, Eq, Debug)]
pub struct Outcome {
    pub values: NodeValues,
    pub flush: bool,
}

// A signal that was received, with its ID: a signal alone, which `Message` cannot say.
#[derive(Clone, Copy, PartialEq, Eq, Debug)]
pub struct Heard {
    pub node: NodeId,
    pub request: Request,
    pub dnf: bool,
    pub bpr: bool,
}

// What the status question answers.
#[derive(Clone, Copy, PartialEq, Eq, Debug)]
pub struct Status {
    pub state: State,
    pub role: Role,
    pub rpl: Port,
    pub revertive: bool,
    pub blocked: Ports,
    pub failed: Ports,
    pub forced: Ports,
    pub manual: Option<Port>,
    pub sent: Option<Request>,
    pub dnf: bool,
    pub mismatch: bool,
    pub timers: Timers,
    pub due: Due,
}
