// A station on the bench: a node with its fabric, the calls made on it, and what is seen after them.
use fabric::{Fabric, FabricFault, Ports, RegisterFabric};
use frame::{Body, Channel, Message, NodeId, Request};
use node::{Node, NodeFault, Port, Role, Settings, State};
use std::process::Abort;
use std::test::*;

pub const NR: Request = Request::NoRequest;

pub const NR_RB: Request = Request::RplBlocked;

pub const MS: Request = Request::ManualSwitch;

pub const SF: Request = Request::SignalFail;

pub const FS: Request = Request::ForcedSwitch;

// Every station here has 5 as the last octet of its Node ID, so 7 and 9 are higher and 3 is lower.
pub const OWN: u8 = 5;

#[derive(Clone, Copy)]
pub enum At {
    Other,
    // A revertive owner with its RPL at port 0, and the same at port 1.
    Owner,
    Owner1,
    // An owner that is not revertive, with its RPL at port 0.
    Keeper,
    // A neighbour with its RPL at port 1.
    Neighbour,
}

pub const OTHER: At = At::Other;

pub const OWNER: At = At::Owner;

pub const OWNER_1: At = At::Owner1;

pub const KEEPER: At = At::Keeper;

pub const NEIGHBOUR: At = At::Neighbour;

impl From<At> for Settings {
    fn from(at: At) -> Settings {
        let (role, rpl, revertive) = match at {
            At::Other => (Role::Other, Port::Zero, true),
            At::Owner => (Role::Owner, Port::Zero, true),
            At::Owner1 => (Role::Owner, Port::One, true),
            At::Keeper => (Role::Owner, Port::Zero, false),
            At::Neighbour => (Role::Neighbour, Port::One, true),
        };
        Settings {
            id: id(OWN),
            channel: Channel {
                ring_id: 1,
                vid: 100,
            },
            mel: 7,
            role,
            rpl,
            revertive,
        }
    }
}

// Ports and the last octets of IDs are numbers, as a call names its port, so that a line of a table is read as a whole.
#[derive(Clone, Copy)]
pub enum Call {
    Clear,
    Force(u8),
    Switch(u8),
    Fail(u8),
    Repair(u8),
    Ticks(u16),
    Restart,
    // At this port, from the station whose ID ends so, without DNF and with BPR 0.
    Hear(u8, u8, Request),
    // The same with DNF and BPR given: a call of its own, so that most lines of the tables of examples stay short.
    HearWith(u8, u8, Request, bool, bool),
    Event(u8, u8),
}

#[derive(Clone, Copy, PartialEq, Eq, Debug)]
pub enum Marked {
    NoPort,
    Port0,
    Port1,
    Both,
}

#[derive(Clone, Copy, PartialEq, Eq, Debug)]
pub enum Sends {
    Nothing,
    Nr,
    NrRb,
    NrRbDnf,
    Ms,
    MsDnf,
    Sf,
    SfDnf,
    Fs,
    FsDnf,
    // NR or nothing with DNF, which no node has.
    Wrong,
}

// State letter, blocked ports, message sent, ticks left to guard, WTR and WTB, and whether the call flushed.
#[derive(Clone, Copy, PartialEq, Eq, Debug)]
pub struct Seen(pub char, pub Marked, pub Sends, pub [u16; 3], pub bool);

// No timer runs.
pub const STILL: [u16; 3] = [0, 0, 0];

pub const FLUSH: bool = true;

pub const KEEP: bool = false;

// A new station is brought somewhere by calls; then one more call, and what is seen after it.
#[derive(Clone, Copy)]
pub struct Example {
    pub at: At,
    pub path: &'static [Call],
    pub call: Call,
    pub seen: Seen,
}

// A call that is refused by this number, and changes nothing.
#[derive(Clone, Copy)]
pub struct Refusal {
    pub at: At,
    pub path: &'static [Call],
    pub call: Call,
    pub number: u8,
}

// As in the other crates of examples, of which none stands on another.
pub(crate) fn id(last: u8) -> NodeId {
    NodeId {
        octets: [0x00, 0x00, 0x5E, 0x00, 0x53, last],
    }
}

// A function: neither type is of this crate, so no conversion can be declared for it here.
pub(crate) fn letter(state: State) -> char {
    match state {
        State::Idle => 'A',
        State::Protection => 'B',
        State::ManualSwitch => 'C',
        State::ForcedSwitch => 'D',
        State::Pending => 'E',
    }
}

impl From<Ports> for Marked {
    fn from(marks: Ports) -> Marked {
        match (marks.p0, marks.p1) {
            (false, false) => Marked::NoPort,
            (true, false) => Marked::Port0,
            (false, true) => Marked::Port1,
            (true, true) => Marked::Both,
        }
    }
}

// The port under MS.
impl From<Option<Port>> for Marked {
    fn from(manual: Option<Port>) -> Marked {
        match manual {
            None => Marked::NoPort,
            Some(Port::Zero) => Marked::Port0,
            Some(Port::One) => Marked::Port1,
        }
    }
}

// Of the two answers that the status question gives, so no `From`.
pub(crate) fn message(sent: Option<Request>, dnf: bool) -> Sends {
    match (sent, dnf) {
        (None, false) => Sends::Nothing,
        (Some(Request::NoRequest), false) => Sends::Nr,
        (None | Some(Request::NoRequest), true) => Sends::Wrong,
        (Some(Request::RplBlocked), false) => Sends::NrRb,
        (Some(Request::RplBlocked), true) => Sends::NrRbDnf,
        (Some(Request::ManualSwitch), false) => Sends::Ms,
        (Some(Request::ManualSwitch), true) => Sends::MsDnf,
        (Some(Request::SignalFail), false) => Sends::Sf,
        (Some(Request::SignalFail), true) => Sends::SfDnf,
        (Some(Request::ForcedSwitch), false) => Sends::Fs,
        (Some(Request::ForcedSwitch), true) => Sends::FsDnf,
    }
}

// The fabric's answer on a mark.
pub(crate) fn holds(answer: Result<bool, FabricFault>) -> bool {
    answer == Ok(true)
}

#[derive(Clone, Copy)]
pub struct Station {
    pub node: Node,
    pub fabric: RegisterFabric,
}

impl Station {
    // A refusal is told by its number.
    pub(crate) fn new(at: At) -> Result<Station, u8> {
        let mut fabric = RegisterFabric { word: 0x0234_5678 };
        let node = Node::set_up(Settings::from(at), &mut fabric).map_err(|fault| fault.number())?;
        Ok(Station { node, fabric })
    }

    fn hear(&mut self, port: u8, last: u8, body: Body) -> Result<(), NodeFault> {
        let message = Message {
            node: id(last),
            body,
        };
        self.node.take_message(&mut self.fabric, port, message)
    }

    fn tick(&mut self, ticks: u16) -> Result<(), NodeFault> {
        for _ in 0..ticks {
            self.node.tick(&mut self.fabric)?;
        }
        Ok(())
    }

    // A match on the call, and no closure: the examples are constant data.
    fn make(&mut self, call: Call) -> Result<(), NodeFault> {
        match call {
            Call::Clear => self.node.clear(&mut self.fabric),
            Call::Force(port) => self.node.force(&mut self.fabric, port),
            Call::Switch(port) => self.node.switch(&mut self.fabric, port),
            Call::Fail(port) => self.node.fail(&mut self.fabric, port),
            Call::Repair(port) => self.node.repair(&mut self.fabric, port),
            Call::Ticks(ticks) => self.tick(ticks),
            Call::Restart => {
                self.node.restart(&mut self.fabric);
                Ok(())
            }
            Call::Hear(port, last, request) => {
                let body = Body::Signal {
                    request,
                    dnf: false,
                    bpr: false,
                };
                self.hear(port, last, body)
            }
            Call::HearWith(port, last, request, dnf, bpr) => self.hear(
                port,
                last,
                Body::Signal { request, dnf, bpr },
            ),
            Call::Event(port, last) => self.hear(port, last, Body::Event),
        }
    }

    // Makes the call with addresses learned at both ports. A refusal is told by its number.
    pub(crate) fn call(&mut self, call: Call) -> Result<(), u8> {
        self.fabric.word |= 0x3000_0000;
        self.make(call).map_err(|fault| fault.number())
    }

    pub(crate) fn follow(&mut self, path: &[Call]) -> Result<(), u8> {
        for call in path {
            self.call(*call)?;
        }
        Ok(())
    }

    pub(crate) fn brought(at: At, path: &[Call]) -> Result<Station, u8> {
        let mut station = Station::new(at)?;
        station.follow(path)?;
        Ok(station)
    }

    // What the status question answers, and whether both ports' addresses are gone.
    pub(crate) fn seen(&self) -> Seen {
        let status = self.node.status();
        let timers = status.timers;
        Seen(
            letter(status.state),
            Marked::from(status.blocked),
            message(status.sent, status.dnf),
            [timers.guard, timers.wtr, timers.wtb],
            self.fabric.word & 0x3000_0000 == 0,
        )
    }

    // The fabric blocks what the node blocks; taught marks go together; host bits stay.
    pub(crate) fn drives_well(&self, rt: &impl Abort, number: u32) {
        let status = self.node.status();
        assert_eq!(rt;
            holds(self.fabric.is_blocked(0)),
            status.blocked.p0,
            "example {number}"
        );
        assert_eq!(rt;
            holds(self.fabric.is_blocked(1)),
            status.blocked.p1,
            "example {number}"
        );
        assert_eq!(rt;
            holds(self.fabric.is_taught(0)),
            holds(self.fabric.is_taught(1)),
            "example {number}"
        );
        assert_eq!(rt;
            self.fabric.word & 0x0FFF_FFFF,
            0x0234_5678,
            "example {number}"
        );
    }
}

pub(crate) fn run(rt: &impl Abort, examples: &[Example]) -> Result<(), Fail> {
    for (number, example) in (1..).zip(examples) {
        let mut station = Station::brought(example.at, example.path)?;
        station.call(example.call)?;
        assert_eq!(rt; station.seen(), example.seen, "example {number}");
        station.drives_well(rt, number);
    }
    Ok(())
}

pub(crate) fn run_refused(rt: &impl Abort, refusals: &[Refusal]) -> Result<(), Fail> {
    for (number, refusal) in (1..).zip(refusals) {
        let mut station = Station::brought(refusal.at, refusal.path)?;
        station.fabric.word |= 0x3000_0000;
        let before = station;
        assert_eq!(rt;
            station.call(refusal.call),
            Err(refusal.number),
            "refusal {number}"
        );
        assert_eq!(rt; station.seen(), before.seen(), "refusal {number}");
        assert_eq!(rt; station.fabric.word, before.fabric.word, "refusal {number}");
    }
    Ok(())
}
