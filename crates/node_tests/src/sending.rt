// The burst of three frames and the wait of 500 ticks.
use crate::bench::*;
use fabric::RegisterFabric;
use frame::FrameFault;
use node::{Due, Node, NodeFault, NodeValues, Settings};
use std::test::*;

// Brought there, then the due frames set so: burst and wait before the call, and after it.
#[derive(Clone, Copy)]
struct Pace(At, &'static [Call], (u8, u16), Call, (u8, u16));

const ASTRAY: &[Call] = &[
    Call::Fail(1),
    Call::Repair(1),
    Call::Ticks(50),
    Call::Hear(0, 9, NR_RB),
];

const PACES: [Pace; 16] = [
    Pace(OWNER, &[Call::Clear], (0, 200), Call::Ticks(1), (0, 199)),
    Pace(OWNER, &[Call::Clear], (0, 200), Call::Ticks(201), (0, 0)),
    Pace(OWNER, &[Call::Clear], (2, 0), Call::Ticks(1), (2, 0)),
    // Nothing that is sent changes.
    Pace(OWNER, &[Call::Clear], (0, 200), Call::Clear, (0, 200)),
    Pace(
        OWNER,
        &[Call::Clear],
        (0, 200),
        Call::Hear(0, 9, NR),
        (0, 200),
    ),
    Pace(
        OWNER,
        &[Call::Fail(1)],
        (1, 0),
        Call::Hear(0, 9, SF),
        (1, 0),
    ),
    // The message changes.
    Pace(OWNER, &[Call::Clear], (0, 200), Call::Force(0), (3, 0)),
    Pace(OWNER, &[Call::Clear], (1, 0), Call::Fail(0), (3, 0)),
    Pace(OWNER, &[], (0, 200), Call::Ticks(30_000), (3, 0)),
    // It ends.
    Pace(
        OWNER,
        &[Call::Clear],
        (0, 200),
        Call::Hear(0, 7, SF),
        (0, 0),
    ),
    // DNF alone changes; then the same FS once more.
    Pace(
        OWNER,
        &[Call::Clear, Call::Force(0)],
        (0, 200),
        Call::Force(0),
        (3, 0),
    ),
    Pace(
        OWNER,
        &[Call::Clear, Call::Force(0), Call::Force(0)],
        (0, 200),
        Call::Force(0),
        (0, 200),
    ),
    // BPR alone changes.
    Pace(
        OWNER,
        &[Call::Clear, Call::Force(1)],
        (0, 200),
        Call::Force(0),
        (3, 0),
    ),
    Pace(KEEPER, ASTRAY, (0, 200), Call::Hear(0, 9, NR_RB), (3, 0)),
    // A restart, though the same NR goes on.
    Pace(OWNER, &[], (0, 200), Call::Restart, (3, 0)),
    Pace(OTHER, &[Call::Fail(0)], (0, 200), Call::Restart, (3, 0)),
];

#[test]
fn paces(rt: HostRuntime) -> Result<(), Fail> {
    for (number, Pace(at, path, before, call, after)) in (1..).zip(&PACES) {
        let mut station = Station::brought(*at, path)?;
        let due = Due {
            burst: before.0,
            wait: before.1,
        };
        let Some(node) = Node::from_values(NodeValues {
            due,
            ..station.node.values
        }) else {
            return Err(Fail::new("no node"));
        };
        station.node = node;
        station.call(*call)?;
        let due = station.node.status().due;
        assert_eq!(rt; (due.burst, due.wait), *after, "pace {number}");
    }
    Ok(())
}

// Set-up: three frames are due.
#[test]
fn set_up(rt: HostRuntime) -> Result<(), Fail> {
    for at in [OTHER, OWNER, OWNER_1, KEEPER, NEIGHBOUR] {
        let due = Station::new(at)?.node.status().due;
        assert_eq!(rt; (due.burst, due.wait), (3, 0));
    }
    Ok(())
}

// Frame requests with buffers of 60 octets and of 54. Three frames are due at once, then none for 500 ticks; 7 is looked at
// before 12.
#[test]
fn frames_are_taken(rt: HostRuntime) -> Result<(), Fail> {
    let mut fabric = RegisterFabric { word: 0 };
    let Ok(mut node) = Node::set_up(Settings::from(OWNER), &mut fabric) else {
        return Err(Fail::new("refused"));
    };
    assert!(rt; node.take_frame(&mut [0; 60]).is_ok());
    assert!(rt; node.take_frame(&mut [0; 60]).is_ok());
    assert!(rt; node.take_frame(&mut [0; 60]).is_ok());
    assert_eq!(rt; node.take_frame(&mut [0; 60]), Err(NodeFault::NoFrameDue));
    for _ in 0..499 {
        assert!(rt; node.tick(&mut fabric).is_ok());
    }
    assert_eq!(rt; node.take_frame(&mut [0; 60]), Err(NodeFault::NoFrameDue));
    assert!(rt; node.tick(&mut fabric).is_ok());
    assert_eq!(rt;
        node.take_frame(&mut [0; 54]),
        Err(NodeFault::Frame(FrameFault::Buffer))
    );
    assert!(rt; node.take_frame(&mut [0; 60]).is_ok());
    assert_eq!(rt;
        node.take_frame(&mut [0; 54]),
        Err(NodeFault::Frame(FrameFault::Buffer))
    );
    assert_eq!(rt; node.take_frame(&mut [0; 60]), Err(NodeFault::NoFrameDue));
    Ok(())
}

// A new owner's frame: NR with neither bit, its ID at 24, and nothing past octet 54.
#[test]
fn a_frame_is_written(rt: HostRuntime) -> Result<(), Fail> {
    let mut fabric = RegisterFabric { word: 0 };
    let Ok(mut node) = Node::set_up(Settings::from(OWNER), &mut fabric) else {
        return Err(Fail::new("refused"));
    };
    let mut buffer = [0xAA; 57];
    assert!(rt; node.take_frame(&mut buffer).is_ok());
    assert_eq!(rt; buffer[22], 0x00);
    assert_eq!(rt; buffer[23], 0x00);
    assert_eq!(rt; buffer[29], 0x05);
    assert_eq!(rt; buffer[54], 0x00);
    assert_eq!(rt; buffer[55], 0xAA);
    assert_eq!(rt; buffer[56], 0xAA);
    Ok(())
}
