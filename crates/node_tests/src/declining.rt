// Calls that a node declines: nothing changes.
use crate::bench::*;
use frame::{FRAME_LENGTH, worked_frame};
use node::NodeFault;
use std::test::*;

const NEW: &[Call] = &[];

// Clear without a command in force is taken only at the owner in idle, protection or pending.
const COMMANDS: [Refusal; 12] = [
    // Clear, idle.
    Refusal {
        at: OTHER,
        path: &[Call::Hear(0, 9, NR_RB)],
        call: Call::Clear,
        number: 10,
    },
    // Clear, idle at a neighbour.
    Refusal {
        at: NEIGHBOUR,
        path: &[Call::Hear(0, 9, NR_RB)],
        call: Call::Clear,
        number: 10,
    },
    // Clear, protection.
    Refusal {
        at: OTHER,
        path: &[Call::Fail(1)],
        call: Call::Clear,
        number: 10,
    },
    // Clear, pending.
    Refusal {
        at: OTHER,
        path: NEW,
        call: Call::Clear,
        number: 10,
    },
    // Clear, pending at a neighbour.
    Refusal {
        at: NEIGHBOUR,
        path: NEW,
        call: Call::Clear,
        number: 10,
    },
    // Clear, an MS heard of.
    Refusal {
        at: OWNER,
        path: &[Call::Hear(0, 7, MS)],
        call: Call::Clear,
        number: 10,
    },
    // Clear, an FS heard of.
    Refusal {
        at: OWNER,
        path: &[Call::Hear(0, 7, FS)],
        call: Call::Clear,
        number: 10,
    },
    // MS, protection.
    Refusal {
        at: OWNER,
        path: &[Call::Fail(1)],
        call: Call::Switch(0),
        number: 11,
    },
    // MS, protection heard of.
    Refusal {
        at: OTHER,
        path: &[Call::Hear(0, 7, SF)],
        call: Call::Switch(0),
        number: 11,
    },
    // MS, manual switch.
    Refusal {
        at: OWNER,
        path: &[Call::Switch(0)],
        call: Call::Switch(1),
        number: 11,
    },
    // MS, manual switch heard of.
    Refusal {
        at: OTHER,
        path: &[Call::Hear(0, 7, MS)],
        call: Call::Switch(1),
        number: 11,
    },
    // MS, forced switch.
    Refusal {
        at: OWNER,
        path: &[Call::Force(0)],
        call: Call::Switch(1),
        number: 11,
    },
];

// A wrong port comes before all else.
const PORTS: [Refusal; 7] = [
    // FS.
    Refusal {
        at: OWNER,
        path: NEW,
        call: Call::Force(2),
        number: 8,
    },
    // MS.
    Refusal {
        at: OWNER,
        path: NEW,
        call: Call::Switch(2),
        number: 8,
    },
    // MS in forced switch.
    Refusal {
        at: OWNER,
        path: &[Call::Force(0)],
        call: Call::Switch(2),
        number: 8,
    },
    // Failure.
    Refusal {
        at: OWNER,
        path: NEW,
        call: Call::Fail(255),
        number: 8,
    },
    // Repair.
    Refusal {
        at: OWNER,
        path: &[Call::Fail(1)],
        call: Call::Repair(2),
        number: 8,
    },
    // Message.
    Refusal {
        at: OTHER,
        path: NEW,
        call: Call::Hear(2, 9, NR),
        number: 8,
    },
    // Event.
    Refusal {
        at: OTHER,
        path: NEW,
        call: Call::Event(2, 9),
        number: 8,
    },
];

#[test]
fn commands(rt: HostRuntime) -> Result<(), Fail> {
    run_refused(&rt, &COMMANDS)
}

#[test]
fn ports(rt: HostRuntime) -> Result<(), Fail> {
    run_refused(&rt, &PORTS)
}

// Number, port and octet of a refusal at the port called; number 0 where it is taken, as the expected values have it.
fn told(answer: Result<(), NodeFault>, called: Option<u8>) -> (u8, Option<u8>, Option<usize>) {
    match answer {
        Ok(()) => (0, None, None),
        Err(fault) => (fault.number(), fault.port(called), fault.octet()),
    }
}

// An idle owner blocks port 0 only; here the fabric's blocked marks are changed behind its back.
fn out_of_step(bits: u32) -> Result<Station, u8> {
    let mut station = Station::brought(OWNER, &[Call::Clear])?;
    station.fabric.word ^= bits;
    Ok(station)
}

// A wrong port comes before it; a command that is not taken comes after it.
// Each call with the number of its refusal.
const OUT_OF_STEP: [(Call, u8); 11] = [
    (Call::Clear, 9),
    (Call::Force(1), 9),
    (Call::Switch(1), 9),
    (Call::Fail(1), 9),
    (Call::Repair(1), 9),
    (Call::Ticks(1), 9),
    (Call::Hear(0, 7, SF), 9),
    (Call::Event(0, 7), 9),
    (Call::Force(2), 8),
    (Call::Switch(2), 8),
    (Call::Hear(2, 7, SF), 8),
];

#[test]
fn fabric_out_of_step(rt: HostRuntime) -> Result<(), Fail> {
    for (call, number) in &OUT_OF_STEP {
        let mut station = out_of_step(0x4000_0000)?;
        let before = station;
        assert_eq!(rt; station.call(*call), Err(*number));
        assert_eq!(rt; station.fabric.word, before.fabric.word | 0x3000_0000);
        assert_eq!(rt; station.node.status().due.burst, 3);
        assert_eq!(rt; letter(station.node.status().state), 'A');
    }
    Ok(())
}

#[test]
fn out_of_step_comes_first(rt: HostRuntime) -> Result<(), Fail> {
    let mut other = Station::new(OTHER)?;
    other.fabric.word ^= 0x4000_0000;
    assert_eq!(rt; other.call(Call::Clear), Err(9));
    let mut forced = Station::brought(OTHER, &[Call::Force(0)])?;
    forced.fabric.word ^= 0x8000_0000;
    assert_eq!(rt; forced.call(Call::Switch(0)), Err(9));
    Ok(())
}

// The place is the first port that differs.
#[test]
fn first_port_out_of_step(rt: HostRuntime) -> Result<(), Fail> {
    let mut station = out_of_step(0x4000_0000)?;
    assert_eq!(rt;
        told(station.node.fail(&mut station.fabric, 0), Some(0)),
        (9, Some(1), None)
    );
    let mut station = out_of_step(0x8000_0000)?;
    assert_eq!(rt;
        told(station.node.fail(&mut station.fabric, 1), Some(1)),
        (9, Some(0), None)
    );
    let mut station = out_of_step(0xC000_0000)?;
    assert_eq!(rt;
        told(station.node.clear(&mut station.fabric), None),
        (9, Some(0), None)
    );
    Ok(())
}

// Restart drives the fabric whatever it shows.
#[test]
fn restart_is_taken(rt: HostRuntime) -> Result<(), Fail> {
    let mut station = out_of_step(0xC000_0000)?;
    station.call(Call::Restart)?;
    assert_eq!(rt;
        station.seen(),
        Seen('E', Marked::Port0, Sends::Nr, [0, 30_000, 0], KEEP)
    );
    station.drives_well(&rt, 1);
    Ok(())
}

#[test]
fn places(rt: HostRuntime) -> Result<(), Fail> {
    let mut station = Station::brought(OTHER, &[Call::Force(0)])?;
    assert_eq!(rt;
        told(station.node.switch(&mut station.fabric, 1), Some(1)),
        (11, Some(1), None)
    );
    assert_eq!(rt;
        told(station.node.force(&mut station.fabric, 9), Some(9)),
        (8, Some(9), None)
    );
    station.call(Call::Clear)?;
    assert_eq!(rt;
        told(station.node.clear(&mut station.fabric), None),
        (10, None, None)
    );
    Ok(())
}

// The frame of SF, BPR 1, from the station whose ID ends 01, with one octet changed; built in each crate of examples anew.
fn damaged(offset: usize, octet: u8) -> [u8; FRAME_LENGTH] {
    let mut frame = worked_frame();
    if let Some(place) = frame.get_mut(offset) {
        *place = octet;
    }
    frame
}

// A refusal of the frame, at the port called.
fn delivered(frame: &[u8]) -> Result<(u8, Option<u8>, Option<usize>), u8> {
    let mut station = Station::brought(OWNER, &[Call::Clear])?;
    Ok(told(station.node.deliver(&mut station.fabric, 1, frame), Some(1)))
}

#[test]
fn frames(rt: HostRuntime) -> Result<(), Fail> {
    assert_eq!(rt; delivered(&worked_frame())?, (0, None, None));
    assert_eq!(rt; delivered(&worked_frame()[0..54])?, (1, Some(1), Some(54)));
    assert_eq!(rt; delivered(&damaged(15, 0x65))?, (2, Some(1), Some(15)));
    assert_eq!(rt; delivered(&damaged(19, 0x29))?, (3, Some(1), Some(19)));
    assert_eq!(rt; delivered(&damaged(21, 31))?, (4, Some(1), Some(21)));
    assert_eq!(rt; delivered(&damaged(22, 0xC0))?, (5, Some(1), Some(22)));
    assert_eq!(rt; delivered(&damaged(21, 33))?, (6, Some(1), Some(21)));
    Ok(())
}

// Port, then fabric, then frame.
#[test]
fn order_of_delivery(rt: HostRuntime) -> Result<(), Fail> {
    let mut station = out_of_step(0x4000_0000)?;
    assert_eq!(rt;
        told(station.node.deliver(&mut station.fabric, 2, &[]), Some(2)),
        (8, Some(2), None)
    );
    assert_eq!(rt;
        told(station.node.deliver(&mut station.fabric, 0, &[]), Some(0)),
        (9, Some(1), None)
    );
    Ok(())
}
