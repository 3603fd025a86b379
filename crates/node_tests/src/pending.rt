// The rows of state E, pending. A new station is in it: the RPL port blocked (port 0 at role other), NR sent.
use crate::bench::*;
use std::test::*;

const NEW: &[Call] = &[];

// Pending after a repair of port 1, and after MS at port 1.
const REPAIRED: &[Call] = &[Call::Clear, Call::Fail(1), Call::Repair(1)];

const RELEASED: &[Call] = &[Call::Clear, Call::Switch(1), Call::Clear];

// A neighbour of RPL port 1 that blocks port 0.
const NEIGHBOUR_REPAIRED: &[Call] = &[
    Call::Hear(0, 9, NR_RB),
    Call::Fail(0),
    Call::Repair(0),
    Call::Ticks(50),
];

const LOCAL: [Example; 13] = [
    // Clear at the owner, the RPL port blocked.
    Example {
        at: OWNER,
        path: NEW,
        call: Call::Clear,
        seen: Seen('A', Marked::Port0, Sends::NrRbDnf, STILL, KEEP),
    },
    // Clear at the owner of RPL port 1.
    Example {
        at: OWNER_1,
        path: NEW,
        call: Call::Clear,
        seen: Seen('A', Marked::Port1, Sends::NrRbDnf, STILL, KEEP),
    },
    // Clear at the owner, the RPL port open.
    Example {
        at: OWNER,
        path: REPAIRED,
        call: Call::Clear,
        seen: Seen('A', Marked::Port0, Sends::NrRb, [50, 0, 0], FLUSH),
    },
    // Clear at an owner that is not revertive.
    Example {
        at: KEEPER,
        path: NEW,
        call: Call::Clear,
        seen: Seen('A', Marked::Port0, Sends::NrRbDnf, STILL, KEEP),
    },
    // FS at the blocked port.
    Example {
        at: OWNER,
        path: NEW,
        call: Call::Force(0),
        seen: Seen('D', Marked::Port0, Sends::FsDnf, STILL, KEEP),
    },
    // FS at the open port.
    Example {
        at: OWNER,
        path: NEW,
        call: Call::Force(1),
        seen: Seen('D', Marked::Port1, Sends::Fs, STILL, FLUSH),
    },
    // Local SF at the blocked port.
    Example {
        at: OWNER,
        path: NEW,
        call: Call::Fail(0),
        seen: Seen('B', Marked::Port0, Sends::SfDnf, STILL, KEEP),
    },
    // Local SF at the open port.
    Example {
        at: OWNER,
        path: NEW,
        call: Call::Fail(1),
        seen: Seen('B', Marked::Port1, Sends::Sf, STILL, FLUSH),
    },
    // Local SF at role other.
    Example {
        at: OTHER,
        path: NEW,
        call: Call::Fail(1),
        seen: Seen('B', Marked::Port1, Sends::Sf, STILL, FLUSH),
    },
    // A repair of no failure.
    Example {
        at: OWNER,
        path: NEW,
        call: Call::Repair(0),
        seen: Seen('E', Marked::Port0, Sends::Nr, [0, 30_000, 0], KEEP),
    },
    // MS at the blocked port.
    Example {
        at: OWNER,
        path: NEW,
        call: Call::Switch(0),
        seen: Seen('C', Marked::Port0, Sends::MsDnf, STILL, KEEP),
    },
    // MS at the open port.
    Example {
        at: OWNER,
        path: RELEASED,
        call: Call::Switch(0),
        seen: Seen('C', Marked::Port0, Sends::Ms, [50, 0, 0], FLUSH),
    },
    // MS at role other.
    Example {
        at: OTHER,
        path: NEW,
        call: Call::Switch(1),
        seen: Seen('C', Marked::Port1, Sends::Ms, STILL, FLUSH),
    },
];

// WTR runs from 30,000 ticks, WTB from 550, and guard from 50.
const TIMERS: [Example; 10] = [
    // WTR runs on.
    Example {
        at: OWNER,
        path: NEW,
        call: Call::Ticks(29999),
        seen: Seen('E', Marked::Port0, Sends::Nr, [0, 1, 0], KEEP),
    },
    // WTR expires, the RPL port blocked.
    Example {
        at: OWNER,
        path: NEW,
        call: Call::Ticks(30000),
        seen: Seen('A', Marked::Port0, Sends::NrRbDnf, STILL, KEEP),
    },
    // WTR expires, the RPL port open.
    Example {
        at: OWNER,
        path: REPAIRED,
        call: Call::Ticks(30000),
        seen: Seen('A', Marked::Port0, Sends::NrRb, STILL, FLUSH),
    },
    // WTR expires at the owner of RPL port 1.
    Example {
        at: OWNER_1,
        path: NEW,
        call: Call::Ticks(30000),
        seen: Seen('A', Marked::Port1, Sends::NrRbDnf, STILL, KEEP),
    },
    // Guard and WTR run down together.
    Example {
        at: OWNER,
        path: REPAIRED,
        call: Call::Ticks(49),
        seen: Seen('E', Marked::Port1, Sends::Nr, [1, 29_951, 0], KEEP),
    },
    // WTB runs on.
    Example {
        at: OWNER,
        path: RELEASED,
        call: Call::Ticks(549),
        seen: Seen('E', Marked::Port1, Sends::Nr, [0, 0, 1], KEEP),
    },
    // WTB expires, the RPL port open.
    Example {
        at: OWNER,
        path: RELEASED,
        call: Call::Ticks(550),
        seen: Seen('A', Marked::Port0, Sends::NrRb, STILL, FLUSH),
    },
    // WTB expires, the RPL port blocked.
    Example {
        at: OWNER_1,
        path: RELEASED,
        call: Call::Ticks(550),
        seen: Seen('A', Marked::Port1, Sends::NrRbDnf, STILL, KEEP),
    },
    // An owner that is not revertive waits on.
    Example {
        at: KEEPER,
        path: NEW,
        call: Call::Ticks(30001),
        seen: Seen('E', Marked::Port0, Sends::Nr, STILL, KEEP),
    },
    // So does role other.
    Example {
        at: OTHER,
        path: NEW,
        call: Call::Ticks(30001),
        seen: Seen('E', Marked::Port0, Sends::Nr, STILL, KEEP),
    },
];

// A running WTR or WTB is above R-APS(NR,RB) and R-APS(NR) only.
const HEARD: [Example; 18] = [
    // R-APS(FS) at the owner.
    Example {
        at: OWNER,
        path: NEW,
        call: Call::Hear(0, 7, FS),
        seen: Seen('D', Marked::NoPort, Sends::Nothing, STILL, FLUSH),
    },
    // R-APS(SF) at the owner.
    Example {
        at: OWNER,
        path: NEW,
        call: Call::Hear(0, 7, SF),
        seen: Seen('B', Marked::NoPort, Sends::Nothing, STILL, FLUSH),
    },
    // R-APS(SF) at a neighbour.
    Example {
        at: NEIGHBOUR,
        path: NEW,
        call: Call::Hear(0, 7, SF),
        seen: Seen('B', Marked::NoPort, Sends::Nothing, STILL, FLUSH),
    },
    // R-APS(MS) at the owner.
    Example {
        at: OWNER,
        path: NEW,
        call: Call::Hear(0, 7, MS),
        seen: Seen('C', Marked::NoPort, Sends::Nothing, STILL, FLUSH),
    },
    // R-APS(MS) at role other.
    Example {
        at: OTHER,
        path: NEW,
        call: Call::Hear(0, 7, MS),
        seen: Seen('C', Marked::NoPort, Sends::Nothing, STILL, FLUSH),
    },
    // R-APS(NR,RB) below WTR.
    Example {
        at: OWNER,
        path: NEW,
        call: Call::Hear(0, 9, NR_RB),
        seen: Seen('E', Marked::Port0, Sends::Nr, [0, 30_000, 0], FLUSH),
    },
    // R-APS(NR,RB) below WTB.
    Example {
        at: OWNER,
        path: &[Call::Switch(1), Call::Clear, Call::Ticks(50)],
        call: Call::Hear(0, 9, NR_RB),
        seen: Seen('E', Marked::Port1, Sends::Nr, [0, 0, 500], FLUSH),
    },
    // R-APS(NR,RB) at an owner that is not revertive: only the state changes.
    Example {
        at: KEEPER,
        path: NEW,
        call: Call::Hear(0, 9, NR_RB),
        seen: Seen('A', Marked::Port0, Sends::Nr, STILL, FLUSH),
    },
    // R-APS(NR,RB) leaves the RPL port of the owner open.
    Example {
        at: KEEPER,
        path: &[Call::Fail(1), Call::Repair(1), Call::Ticks(50)],
        call: Call::Hear(0, 9, NR_RB),
        seen: Seen('A', Marked::Port1, Sends::Nr, STILL, FLUSH),
    },
    // R-APS(NR,RB) at a neighbour.
    Example {
        at: NEIGHBOUR,
        path: NEW,
        call: Call::Hear(0, 9, NR_RB),
        seen: Seen('A', Marked::Port1, Sends::Nothing, STILL, FLUSH),
    },
    // R-APS(NR,RB) at a neighbour, the RPL port open.
    Example {
        at: NEIGHBOUR,
        path: NEIGHBOUR_REPAIRED,
        call: Call::Hear(0, 9, NR_RB),
        seen: Seen('A', Marked::Port1, Sends::Nothing, STILL, FLUSH),
    },
    // R-APS(NR,RB) at role other.
    Example {
        at: OTHER,
        path: NEW,
        call: Call::Hear(0, 9, NR_RB),
        seen: Seen('A', Marked::NoPort, Sends::Nothing, STILL, FLUSH),
    },
    // R-APS(NR) below WTR.
    Example {
        at: OWNER,
        path: NEW,
        call: Call::Hear(0, 9, NR),
        seen: Seen('E', Marked::Port0, Sends::Nr, [0, 30_000, 0], KEEP),
    },
    // R-APS(NR) below WTB.
    Example {
        at: OWNER,
        path: &[Call::Hear(0, 7, MS), Call::Hear(0, 7, NR)],
        call: Call::Hear(0, 9, NR),
        seen: Seen('E', Marked::NoPort, Sends::Nothing, [0, 0, 550], KEEP),
    },
    // R-APS(NR) of a higher ID at an owner that is not revertive.
    Example {
        at: KEEPER,
        path: NEW,
        call: Call::Hear(0, 9, NR),
        seen: Seen('E', Marked::NoPort, Sends::Nothing, STILL, KEEP),
    },
    // R-APS(NR) of a higher ID at a neighbour.
    Example {
        at: NEIGHBOUR,
        path: NEW,
        call: Call::Hear(0, 9, NR),
        seen: Seen('E', Marked::NoPort, Sends::Nothing, STILL, KEEP),
    },
    // R-APS(NR) of a higher ID at role other.
    Example {
        at: OTHER,
        path: NEW,
        call: Call::Hear(0, 9, NR),
        seen: Seen('E', Marked::NoPort, Sends::Nothing, STILL, KEEP),
    },
    // R-APS(NR) of a lower ID.
    Example {
        at: OTHER,
        path: NEW,
        call: Call::Hear(0, 3, NR),
        seen: Seen('E', Marked::Port0, Sends::Nr, STILL, KEEP),
    },
];

#[test]
fn local_requests(rt: HostRuntime) -> Result<(), Fail> {
    run(&rt, &LOCAL)
}

#[test]
fn timers(rt: HostRuntime) -> Result<(), Fail> {
    run(&rt, &TIMERS)
}

#[test]
fn received_requests(rt: HostRuntime) -> Result<(), Fail> {
    run(&rt, &HEARD)
}
