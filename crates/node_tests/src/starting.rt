// Set-up and restart.
use crate::bench::*;
use fabric::RegisterFabric;
use frame::{Channel, NodeId};
use node::{Node, Port, Settings};
use std::process::Abort;
use std::test::*;

const NEW: &[Call] = &[];

// Restart keeps settings and failures; a failure is presented on the ports as Start leaves them.
const RESTARTS: [Example; 12] = [
    // An idle owner.
    Example {
        at: OWNER,
        path: &[Call::Clear],
        call: Call::Restart,
        seen: Seen('E', Marked::Port0, Sends::Nr, [0, 30_000, 0], KEEP),
    },
    // A pending owner of RPL port 1.
    Example {
        at: OWNER_1,
        path: NEW,
        call: Call::Restart,
        seen: Seen('E', Marked::Port1, Sends::Nr, [0, 30_000, 0], KEEP),
    },
    // An owner that is not revertive.
    Example {
        at: KEEPER,
        path: &[Call::Clear],
        call: Call::Restart,
        seen: Seen('E', Marked::Port0, Sends::Nr, STILL, KEEP),
    },
    // A neighbour.
    Example {
        at: NEIGHBOUR,
        path: &[Call::Hear(0, 9, NR_RB)],
        call: Call::Restart,
        seen: Seen('E', Marked::Port1, Sends::Nr, STILL, KEEP),
    },
    // Role other.
    Example {
        at: OTHER,
        path: &[Call::Hear(0, 9, NR_RB)],
        call: Call::Restart,
        seen: Seen('E', Marked::Port0, Sends::Nr, STILL, KEEP),
    },
    // Guard stops.
    Example {
        at: OTHER,
        path: &[Call::Switch(1), Call::Clear],
        call: Call::Restart,
        seen: Seen('E', Marked::Port0, Sends::Nr, STILL, KEEP),
    },
    // FS ends.
    Example {
        at: OWNER,
        path: &[Call::Clear, Call::Force(1)],
        call: Call::Restart,
        seen: Seen('E', Marked::Port0, Sends::Nr, [0, 30_000, 0], KEEP),
    },
    // MS ends.
    Example {
        at: OTHER,
        path: &[Call::Switch(1)],
        call: Call::Restart,
        seen: Seen('E', Marked::Port0, Sends::Nr, STILL, KEEP),
    },
    // A failure at the RPL port.
    Example {
        at: OWNER,
        path: &[Call::Clear, Call::Fail(0)],
        call: Call::Restart,
        seen: Seen('B', Marked::Port0, Sends::SfDnf, STILL, KEEP),
    },
    // A failure at the other port.
    Example {
        at: OWNER,
        path: &[Call::Clear, Call::Fail(1)],
        call: Call::Restart,
        seen: Seen('B', Marked::Port1, Sends::Sf, STILL, FLUSH),
    },
    // A failure at both.
    Example {
        at: OWNER,
        path: &[Call::Clear, Call::Fail(0), Call::Fail(1)],
        call: Call::Restart,
        seen: Seen('B', Marked::Both, Sends::Sf, STILL, FLUSH),
    },
    // A failure noted in forced switch.
    Example {
        at: OTHER,
        path: &[Call::Force(0), Call::Fail(1)],
        call: Call::Restart,
        seen: Seen('B', Marked::Port1, Sends::Sf, STILL, FLUSH),
    },
];

#[test]
fn restarts(rt: HostRuntime) -> Result<(), Fail> {
    run(&rt, &RESTARTS)
}

// A station, and what is seen after set-up; set-up does not flush.
const NEW_STATIONS: [(At, Seen); 5] = [
    (OTHER, Seen('E', Marked::Port0, Sends::Nr, STILL, KEEP)),
    (
        OWNER,
        Seen('E', Marked::Port0, Sends::Nr, [0, 30_000, 0], KEEP),
    ),
    (
        OWNER_1,
        Seen('E', Marked::Port1, Sends::Nr, [0, 30_000, 0], KEEP),
    ),
    (KEEPER, Seen('E', Marked::Port0, Sends::Nr, STILL, KEEP)),
    (NEIGHBOUR, Seen('E', Marked::Port1, Sends::Nr, STILL, KEEP)),
];

#[test]
fn set_up(rt: HostRuntime) -> Result<(), Fail> {
    for (number, (at, seen)) in (1..).zip(&NEW_STATIONS) {
        let mut fabric = RegisterFabric { word: 0xF234_5678 };
        let Ok(node) = Node::set_up(Settings::from(*at), &mut fabric) else {
            return Err(Fail::new("refused"));
        };
        let station = Station { node, fabric };
        assert_eq!(rt; station.seen(), *seen);
        station.drives_well(&rt, number);
    }
    Ok(())
}

fn on(ring_id: u8, vid: u16, mel: u8) -> Settings {
    Settings {
        channel: Channel { ring_id, vid },
        mel,
        ..Settings::from(OWNER)
    }
}

fn named(octets: [u8; 6]) -> Settings {
    Settings {
        id: NodeId { octets },
        ..Settings::from(OWNER)
    }
}

// The number of the refusal, 0 where set-up is taken, as the expected values have it. A refused one leaves the fabric.
fn refused(rt: &impl Abort, settings: Settings) -> Result<u8, Fail> {
    let mut fabric = RegisterFabric { word: 0x7234_5678 };
    match Node::set_up(settings, &mut fabric) {
        Ok(_) => {
            assert_eq!(rt; fabric.word, 0xB234_5678);
            Ok(0)
        }
        Err(fault) => {
            assert_eq!(rt; fabric.word, 0x7234_5678);
            Ok(fault.number())
        }
    }
}

#[test]
fn settings_in_range(rt: HostRuntime) -> Result<(), Fail> {
    assert_eq!(rt; refused(&rt, on(1, 1, 0))?, 0);
    assert_eq!(rt; refused(&rt, on(239, 4094, 7))?, 0);
    assert_eq!(rt; refused(&rt, named([0xFE, 0, 0, 0, 0, 0]))?, 0);
    assert_eq!(rt; refused(&rt, named([0, 0, 0, 0, 0, 1]))?, 0);
    Ok(())
}

#[test]
fn settings_out_of_range(rt: HostRuntime) -> Result<(), Fail> {
    assert_eq!(rt; refused(&rt, on(0, 100, 7))?, 13);
    assert_eq!(rt; refused(&rt, on(240, 100, 7))?, 13);
    assert_eq!(rt; refused(&rt, on(1, 0, 7))?, 13);
    assert_eq!(rt; refused(&rt, on(1, 4095, 7))?, 13);
    assert_eq!(rt; refused(&rt, on(1, 100, 8))?, 13);
    assert_eq!(rt; refused(&rt, named([0, 0, 0, 0, 0, 0]))?, 13);
    assert_eq!(rt; refused(&rt, named([1, 0, 0, 0, 0, 1]))?, 13);
    let astray = Settings {
        rpl: Port::One,
        ..Settings::from(OTHER)
    };
    assert_eq!(rt; refused(&rt, astray)?, 13);
    Ok(())
}
