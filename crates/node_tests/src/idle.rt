// The rows of state A, idle.
use crate::bench::*;
use std::test::*;

// An owner rests at a Clear; any other station is told.
const OWNER_IDLE: &[Call] = &[Call::Clear];

const IDLE: &[Call] = &[Call::Hear(0, 9, NR_RB)];

// An idle owner that blocks port 1, its RPL being port 0: it was told NR,RB by another owner.
const ASTRAY: &[Call] = &[
    Call::Fail(1),
    Call::Repair(1),
    Call::Ticks(50),
    Call::Hear(0, 9, NR_RB),
];

const LOCAL: [Example; 13] = [
    // Clear at the owner is taken and does nothing.
    Example {
        at: OWNER,
        path: OWNER_IDLE,
        call: Call::Clear,
        seen: Seen('A', Marked::Port0, Sends::NrRbDnf, STILL, KEEP),
    },
    // FS at the blocked port.
    Example {
        at: OWNER,
        path: OWNER_IDLE,
        call: Call::Force(0),
        seen: Seen('D', Marked::Port0, Sends::FsDnf, STILL, KEEP),
    },
    // FS at the open port.
    Example {
        at: OWNER,
        path: OWNER_IDLE,
        call: Call::Force(1),
        seen: Seen('D', Marked::Port1, Sends::Fs, STILL, FLUSH),
    },
    // FS at the blocked port of a neighbour.
    Example {
        at: NEIGHBOUR,
        path: IDLE,
        call: Call::Force(1),
        seen: Seen('D', Marked::Port1, Sends::FsDnf, STILL, KEEP),
    },
    // FS at role other.
    Example {
        at: OTHER,
        path: IDLE,
        call: Call::Force(0),
        seen: Seen('D', Marked::Port0, Sends::Fs, STILL, FLUSH),
    },
    // Local SF at the open port.
    Example {
        at: OWNER,
        path: OWNER_IDLE,
        call: Call::Fail(1),
        seen: Seen('B', Marked::Port1, Sends::Sf, STILL, FLUSH),
    },
    // Local SF at the RPL port.
    Example {
        at: OWNER,
        path: OWNER_IDLE,
        call: Call::Fail(0),
        seen: Seen('B', Marked::Port0, Sends::SfDnf, STILL, KEEP),
    },
    // Local SF at role other.
    Example {
        at: OTHER,
        path: IDLE,
        call: Call::Fail(1),
        seen: Seen('B', Marked::Port1, Sends::Sf, STILL, FLUSH),
    },
    // A repair of no failure.
    Example {
        at: OWNER,
        path: OWNER_IDLE,
        call: Call::Repair(1),
        seen: Seen('A', Marked::Port0, Sends::NrRbDnf, STILL, KEEP),
    },
    // MS at the blocked port.
    Example {
        at: OWNER,
        path: OWNER_IDLE,
        call: Call::Switch(0),
        seen: Seen('C', Marked::Port0, Sends::MsDnf, STILL, KEEP),
    },
    // MS at the open port.
    Example {
        at: OWNER,
        path: OWNER_IDLE,
        call: Call::Switch(1),
        seen: Seen('C', Marked::Port1, Sends::Ms, STILL, FLUSH),
    },
    // MS at role other.
    Example {
        at: OTHER,
        path: IDLE,
        call: Call::Switch(1),
        seen: Seen('C', Marked::Port1, Sends::Ms, STILL, FLUSH),
    },
    // No timer runs.
    Example {
        at: OWNER,
        path: OWNER_IDLE,
        call: Call::Ticks(1),
        seen: Seen('A', Marked::Port0, Sends::NrRbDnf, STILL, KEEP),
    },
];

// A new pair of Node ID and BPR flushes, whatever the row does.
const HEARD: [Example; 14] = [
    // R-APS(FS) at the owner.
    Example {
        at: OWNER,
        path: OWNER_IDLE,
        call: Call::Hear(0, 7, FS),
        seen: Seen('D', Marked::NoPort, Sends::Nothing, STILL, FLUSH),
    },
    // R-APS(FS) at a neighbour.
    Example {
        at: NEIGHBOUR,
        path: IDLE,
        call: Call::Hear(0, 7, FS),
        seen: Seen('D', Marked::NoPort, Sends::Nothing, STILL, FLUSH),
    },
    // R-APS(SF) at the owner.
    Example {
        at: OWNER,
        path: OWNER_IDLE,
        call: Call::Hear(0, 7, SF),
        seen: Seen('B', Marked::NoPort, Sends::Nothing, STILL, FLUSH),
    },
    // R-APS(SF) at a neighbour.
    Example {
        at: NEIGHBOUR,
        path: IDLE,
        call: Call::Hear(1, 7, SF),
        seen: Seen('B', Marked::NoPort, Sends::Nothing, STILL, FLUSH),
    },
    // R-APS(SF) at role other.
    Example {
        at: OTHER,
        path: IDLE,
        call: Call::Hear(1, 7, SF),
        seen: Seen('B', Marked::NoPort, Sends::Nothing, STILL, FLUSH),
    },
    // R-APS(MS) at the owner.
    Example {
        at: OWNER,
        path: OWNER_IDLE,
        call: Call::Hear(1, 7, MS),
        seen: Seen('C', Marked::NoPort, Sends::Nothing, STILL, FLUSH),
    },
    // R-APS(MS) at a neighbour.
    Example {
        at: NEIGHBOUR,
        path: IDLE,
        call: Call::Hear(0, 7, MS),
        seen: Seen('C', Marked::NoPort, Sends::Nothing, STILL, FLUSH),
    },
    // R-APS(NR,RB) at the owner.
    Example {
        at: OWNER,
        path: OWNER_IDLE,
        call: Call::Hear(0, 9, NR_RB),
        seen: Seen('A', Marked::Port0, Sends::NrRbDnf, STILL, FLUSH),
    },
    // R-APS(NR,RB) opens what is not the RPL port, and the owner goes on sending.
    Example {
        at: KEEPER,
        path: ASTRAY,
        call: Call::Hear(0, 9, NR_RB),
        seen: Seen('A', Marked::NoPort, Sends::Nr, STILL, KEEP),
    },
    // R-APS(NR,RB) at a neighbour, the pair known from the other port.
    Example {
        at: NEIGHBOUR,
        path: IDLE,
        call: Call::Hear(1, 9, NR_RB),
        seen: Seen('A', Marked::Port1, Sends::Nothing, STILL, KEEP),
    },
    // R-APS(NR,RB) at role other.
    Example {
        at: OTHER,
        path: IDLE,
        call: Call::Hear(0, 7, NR_RB),
        seen: Seen('A', Marked::NoPort, Sends::Nothing, STILL, FLUSH),
    },
    // R-APS(NR) at the owner.
    Example {
        at: OWNER,
        path: OWNER_IDLE,
        call: Call::Hear(0, 9, NR),
        seen: Seen('A', Marked::Port0, Sends::NrRbDnf, STILL, KEEP),
    },
    // R-APS(NR) at a neighbour.
    Example {
        at: NEIGHBOUR,
        path: IDLE,
        call: Call::Hear(0, 9, NR),
        seen: Seen('A', Marked::Port1, Sends::Nothing, STILL, KEEP),
    },
    // R-APS(NR) at role other.
    Example {
        at: OTHER,
        path: IDLE,
        call: Call::Hear(0, 9, NR),
        seen: Seen('A', Marked::NoPort, Sends::Nothing, STILL, KEEP),
    },
];

#[test]
fn local_requests(rt: HostRuntime) -> Result<(), Fail> {
    run(&rt, &LOCAL)
}

#[test]
fn received_requests(rt: HostRuntime) -> Result<(), Fail> {
    run(&rt, &HEARD)
}
