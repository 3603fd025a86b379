// Shows one station: a revertive owner, its RPL at port 0, over a register fabric.
use fabric::{Ports, RegisterFabric};
use frame::{Channel, NodeId, Request};
use node::{Node, NodeFault, Port, Role, Settings, State, Timers};
use std::{fmt, io};

const OWNER: Settings = Settings {
    id: NodeId {
        octets: [0x00, 0x00, 0x5E, 0x00, 0x53, 0x05],
    },
    channel: Channel {
        ring_id: 1,
        vid: 100,
    },
    mel: 7,
    role: Role::Owner,
    rpl: Port::Zero,
    revertive: true,
};

// Names by functions: the types are of the libraries, and a type of our own around each, to be printed, would be no plainer.
fn state_name(state: State) -> &'static str {
    match state {
        State::Idle => "A idle",
        State::Protection => "B protection",
        State::ManualSwitch => "C manual switch",
        State::ForcedSwitch => "D forced switch",
        State::Pending => "E pending",
    }
}

fn port_names(marks: Ports) -> &'static str {
    match (marks.p0, marks.p1) {
        (false, false) => "no port",
        (true, false) => "port 0",
        (false, true) => "port 1",
        (true, true) => "both ports",
    }
}

fn message_name(sent: Option<Request>) -> &'static str {
    match sent {
        None => "nothing",
        Some(Request::NoRequest) => "NR",
        Some(Request::RplBlocked) => "NR,RB",
        Some(Request::ManualSwitch) => "MS",
        Some(Request::SignalFail) => "SF",
        Some(Request::ForcedSwitch) => "FS",
    }
}

// The timers that run, with the ticks left.
#[derive(Clone, Copy, PartialEq, Eq, Debug)]
struct Running(Timers);

const NO_TIMER: Timers = Timers {
    guard: 0,
    wtr: 0,
    wtb: 0,
};

impl fmt::Display for Running {
    fn fmt<W: fmt::Write>(&self, f: &mut fmt::Formatter<W>) -> fmt::Result {
        let timers = self.0;
        if timers == NO_TIMER {
            return write!(f, ", no timer");
        }
        let running = [
            ("guard", timers.guard),
            ("WTR", timers.wtr),
            ("WTB", timers.wtb),
        ];
        for (name, ticks) in running {
            if ticks > 0 {
                write!(f, ", {name} {ticks}")?;
            }
        }
        Ok(())
    }
}

// One line: what happened, and the station after it.
fn tell(
    rt: &HostRuntime,
    what: &str,
    answer: Result<(), NodeFault>,
    node: &Node,
) -> io::Result<()> {
    if let Err(fault) = answer {
        let number = fault.number();
        return println!(rt; "  {what}: refused by {number}");
    }
    let status = node.status();
    let state = state_name(status.state);
    let blocked = port_names(status.blocked);
    let sent = message_name(status.sent);
    let dnf = if status.dnf { ",DNF" } else { "" };
    let running = Running(status.timers);
    println!(rt; "  {what}: {state}, blocks {blocked}, sends {sent}{dnf}{running}")
}

fn pass(node: &mut Node, fabric: &mut RegisterFabric, ticks: u16) -> Result<(), NodeFault> {
    for _ in 0..ticks {
        node.tick(fabric)?;
    }
    Ok(())
}

pub(crate) fn show_station(rt: &HostRuntime) -> io::Result<()> {
    println!(rt; "One station: owner, revertive, RPL at port 0")?;
    let mut fabric = RegisterFabric { word: 0 };
    let mut node = match Node::set_up(OWNER, &mut fabric) {
        Ok(node) => node,
        Err(fault) => {
            let number = fault.number();
            return println!(rt; "  set up: refused by {number}");
        }
    };
    tell(rt, "set up", Ok(()), &node)?;
    let answer = pass(&mut node, &mut fabric, 30_000);
    tell(rt, "30000 ticks", answer, &node)?;
    let answer = node.fail(&mut fabric, 1);
    tell(rt, "port 1 fails", answer, &node)?;
    let answer = node.repair(&mut fabric, 1);
    tell(rt, "port 1 is repaired", answer, &node)?;
    let answer = pass(&mut node, &mut fabric, 50);
    tell(rt, "50 ticks, guard ends", answer, &node)?;
    let answer = pass(&mut node, &mut fabric, 29_949);
    tell(rt, "29949 ticks, waiting to restore", answer, &node)?;
    let answer = pass(&mut node, &mut fabric, 1);
    tell(rt, "1 tick, WTR expires", answer, &node)
}
