// Plain values make a node only where they keep every rule.
use crate::bench::*;
use fabric::Ports;
use frame::Request;
use node::{Commands, Due, Node, NodeValues, Port, Role, Sending, Settings, State, Timers};
use std::test::*;

const PORT_0: Ports = Ports {
    p0: true,
    p1: false,
};

const PORT_1: Ports = Ports {
    p0: false,
    p1: true,
};

fn makes(values: NodeValues) -> bool {
    Node::from_values(values).is_some()
}

fn with_message(values: NodeValues, request: Option<Request>, dnf: bool) -> NodeValues {
    NodeValues {
        sending: Sending { request, dnf },
        ..values
    }
}

fn with_timers(values: NodeValues, guard: u16, wtr: u16, wtb: u16) -> NodeValues {
    NodeValues {
        timers: Timers { guard, wtr, wtb },
        ..values
    }
}

fn with_due(values: NodeValues, burst: u8, wait: u16) -> NodeValues {
    NodeValues {
        due: Due { burst, wait },
        ..values
    }
}

fn with_ports(values: NodeValues, state: State, blocked: Ports, failed: Ports) -> NodeValues {
    NodeValues {
        state,
        blocked,
        failed,
        ..values
    }
}

fn with_commands(values: NodeValues, forced: Ports, manual: Option<Port>) -> NodeValues {
    NodeValues {
        commands: Commands { forced, manual },
        ..values
    }
}

fn with_role(values: NodeValues, role: Role, revertive: bool) -> NodeValues {
    NodeValues {
        settings: Settings {
            role,
            revertive,
            ..values.settings
        },
        ..values
    }
}

fn marked(values: NodeValues) -> NodeValues {
    NodeValues {
        mismatch: true,
        ..values
    }
}

// An idle owner blocks port 0, its RPL port, and sends NR,RB,DNF.
fn idle_owner() -> Result<NodeValues, u8> {
    Ok(Station::brought(OWNER, &[Call::Clear])?.node.values)
}

#[test]
fn idle(rt: HostRuntime) -> Result<(), Fail> {
    let idle = idle_owner()?;
    assert!(rt; makes(idle));
    assert!(rt; !makes(with_ports(idle, State::Idle, PORT_0, PORT_0)));
    assert!(rt; !makes(with_ports(idle, State::Idle, PORT_1, Ports::NONE)));
    assert!(rt; makes(marked(with_ports(idle, State::Idle, PORT_1, Ports::NONE))));
    assert!(rt; !makes(with_commands(idle, PORT_0, None)));
    assert!(rt; !makes(with_commands(idle, Ports::NONE, Some(Port::Zero))));
    assert!(rt; !makes(with_role(idle, Role::Neighbour, true)));
    Ok(())
}

#[test]
fn messages(rt: HostRuntime) -> Result<(), Fail> {
    let idle = idle_owner()?;
    assert!(rt; !makes(with_message(idle, Some(NR), false)));
    assert!(rt; makes(marked(with_message(idle, Some(NR), false))));
    assert!(rt; !makes(marked(with_message(idle, Some(NR), true))));
    assert!(rt; !makes(with_message(idle, Some(SF), false)));
    assert!(rt; !makes(with_message(idle, Some(MS), false)));
    assert!(rt; !makes(with_message(idle, Some(FS), false)));
    assert!(rt; !makes(with_message(idle, None, false)));
    assert!(rt; makes(with_due(with_message(idle, None, false), 0, 0)));
    assert!(rt; !makes(with_due(with_message(idle, None, true), 0, 0)));
    Ok(())
}

#[test]
fn bounds(rt: HostRuntime) -> Result<(), Fail> {
    let idle = idle_owner()?;
    assert!(rt; makes(with_timers(idle, 50, 0, 0)));
    assert!(rt; !makes(with_timers(idle, 51, 0, 0)));
    assert!(rt; !makes(with_timers(idle, 0, 1, 0)));
    assert!(rt; makes(with_due(idle, 0, 500)));
    assert!(rt; !makes(with_due(idle, 0, 501)));
    assert!(rt; !makes(with_due(idle, 4, 0)));
    assert!(rt; !makes(with_due(idle, 1, 1)));
    Ok(())
}

// A new owner waits to restore.
#[test]
fn waiting(rt: HostRuntime) -> Result<(), Fail> {
    let waits = Station::new(OWNER)?.node.values;
    assert!(rt; makes(waits));
    assert!(rt; !makes(with_timers(waits, 0, 30_001, 0)));
    assert!(rt; !makes(with_timers(waits, 0, 1, 1)));
    assert!(rt; makes(with_timers(waits, 0, 0, 550)));
    assert!(rt; !makes(with_timers(waits, 0, 0, 551)));
    assert!(rt; !makes(with_role(waits, Role::Owner, false)));
    assert!(rt; !makes(with_role(waits, Role::Neighbour, true)));
    assert!(rt; !makes(with_ports(waits, State::Pending, Ports::NONE, Ports::NONE)));
    assert!(rt; makes(marked(with_ports(waits, State::Pending, Ports::NONE, Ports::NONE))));
    Ok(())
}

#[test]
fn failures(rt: HostRuntime) -> Result<(), Fail> {
    let failed = Station::brought(OWNER, &[Call::Fail(1)])?.node.values;
    assert!(rt; makes(failed));
    assert!(rt; !makes(with_ports(failed, State::Protection, PORT_0, PORT_1)));
    assert!(rt; !makes(with_ports(failed, State::Protection, PORT_1, Ports::NONE)));
    assert!(rt; !makes(with_ports(failed, State::ForcedSwitch, PORT_1, PORT_1)));
    let told = Station::brought(OWNER, &[Call::Fail(1), Call::Hear(0, 9, FS)])?
        .node
        .values;
    assert!(rt; makes(told));
    assert!(rt; !makes(with_ports(told, State::Protection, Ports::NONE, PORT_1)));
    assert!(rt; !makes(with_commands(told, PORT_1, None)));
    Ok(())
}

// A station of role other with the mark may block a port while idle: NR of a higher ID has it yield.
#[test]
fn made_node_serves(rt: HostRuntime) -> Result<(), Fail> {
    let mut station = Station::brought(OTHER, &[Call::Hear(0, 9, NR_RB)])?;
    let astray = marked(with_ports(station.node.values, State::Idle, PORT_0, Ports::NONE));
    let Some(node) = Node::from_values(astray) else {
        return Err(Fail::new("no node"));
    };
    station.node = node;
    station.fabric.word |= 0x8000_0000;
    station.call(Call::Hear(0, 3, NR))?;
    assert_eq!(rt;
        station.seen(),
        Seen('A', Marked::Port0, Sends::Nothing, STILL, KEEP)
    );
    station.call(Call::Hear(0, 9, NR))?;
    assert_eq!(rt;
        station.seen(),
        Seen('A', Marked::NoPort, Sends::Nothing, STILL, KEEP)
    );
    station.drives_well(&rt, 1);
    Ok(())
}
