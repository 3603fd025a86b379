// The rows of state B, protection.
use crate::bench::*;
use std::test::*;

// An owner with a failure, and one that heard of one.
const FAILED: &[Call] = &[Call::Clear, Call::Fail(1)];

const BOTH_FAILED: &[Call] = &[Call::Clear, Call::Fail(1), Call::Fail(0)];

const OWNER_TOLD: &[Call] = &[Call::Clear, Call::Hear(0, 7, SF)];

// The same at another role.
const OTHER_FAILED: &[Call] = &[Call::Hear(0, 9, NR_RB), Call::Fail(1)];

const OTHER_TOLD: &[Call] = &[Call::Hear(0, 9, NR_RB), Call::Hear(0, 7, SF)];

const LOCAL: [Example; 13] = [
    // Clear at the owner is taken and does nothing.
    Example {
        at: OWNER,
        path: FAILED,
        call: Call::Clear,
        seen: Seen('B', Marked::Port1, Sends::Sf, STILL, KEEP),
    },
    // FS at the open port opens the failed one.
    Example {
        at: OWNER,
        path: FAILED,
        call: Call::Force(0),
        seen: Seen('D', Marked::Port0, Sends::Fs, STILL, FLUSH),
    },
    // FS at the failed port.
    Example {
        at: OWNER,
        path: FAILED,
        call: Call::Force(1),
        seen: Seen('D', Marked::Port1, Sends::FsDnf, STILL, KEEP),
    },
    // FS where a failure was heard of.
    Example {
        at: OTHER,
        path: OTHER_TOLD,
        call: Call::Force(1),
        seen: Seen('D', Marked::Port1, Sends::Fs, STILL, FLUSH),
    },
    // Local SF at the other port too.
    Example {
        at: OWNER,
        path: FAILED,
        call: Call::Fail(0),
        seen: Seen('B', Marked::Both, Sends::Sf, STILL, FLUSH),
    },
    // A failure that stands already.
    Example {
        at: OWNER,
        path: FAILED,
        call: Call::Fail(1),
        seen: Seen('B', Marked::Port1, Sends::Sf, STILL, KEEP),
    },
    // Local SF where a failure was heard of.
    Example {
        at: OWNER,
        path: OWNER_TOLD,
        call: Call::Fail(0),
        seen: Seen('B', Marked::Port0, Sends::Sf, STILL, FLUSH),
    },
    // One of two failures repaired.
    Example {
        at: OWNER,
        path: BOTH_FAILED,
        call: Call::Repair(1),
        seen: Seen('B', Marked::Port0, Sends::SfDnf, STILL, KEEP),
    },
    // Local clear SF at the owner.
    Example {
        at: OWNER,
        path: FAILED,
        call: Call::Repair(1),
        seen: Seen('E', Marked::Port1, Sends::Nr, [50, 30_000, 0], KEEP),
    },
    // Local clear SF at an owner that is not revertive.
    Example {
        at: KEEPER,
        path: FAILED,
        call: Call::Repair(1),
        seen: Seen('E', Marked::Port1, Sends::Nr, [50, 0, 0], KEEP),
    },
    // Local clear SF at role other.
    Example {
        at: OTHER,
        path: OTHER_FAILED,
        call: Call::Repair(1),
        seen: Seen('E', Marked::Port1, Sends::Nr, [50, 0, 0], KEEP),
    },
    // A repair of no failure.
    Example {
        at: OWNER,
        path: OWNER_TOLD,
        call: Call::Repair(0),
        seen: Seen('B', Marked::NoPort, Sends::Nothing, STILL, KEEP),
    },
    // No delay timer runs.
    Example {
        at: OWNER,
        path: FAILED,
        call: Call::Ticks(1),
        seen: Seen('B', Marked::Port1, Sends::Sf, STILL, KEEP),
    },
];

// Below a standing local SF a message reaches no row, and still may flush.
const HEARD: [Example; 13] = [
    // R-APS(FS) opens the failed port too.
    Example {
        at: OWNER,
        path: FAILED,
        call: Call::Hear(0, 7, FS),
        seen: Seen('D', Marked::NoPort, Sends::Nothing, STILL, FLUSH),
    },
    // R-APS(FS) where a failure was heard of.
    Example {
        at: OTHER,
        path: OTHER_TOLD,
        call: Call::Hear(0, 3, FS),
        seen: Seen('D', Marked::NoPort, Sends::Nothing, STILL, FLUSH),
    },
    // R-APS(SF) below local SF.
    Example {
        at: OWNER,
        path: FAILED,
        call: Call::Hear(0, 7, SF),
        seen: Seen('B', Marked::Port1, Sends::Sf, STILL, FLUSH),
    },
    // R-APS(SF) of one more.
    Example {
        at: OTHER,
        path: OTHER_TOLD,
        call: Call::Hear(1, 3, SF),
        seen: Seen('B', Marked::NoPort, Sends::Nothing, STILL, FLUSH),
    },
    // R-APS(MS).
    Example {
        at: OTHER,
        path: OTHER_TOLD,
        call: Call::Hear(0, 3, MS),
        seen: Seen('B', Marked::NoPort, Sends::Nothing, STILL, FLUSH),
    },
    // R-APS(MS) below local SF.
    Example {
        at: OTHER,
        path: OTHER_FAILED,
        call: Call::Hear(0, 3, MS),
        seen: Seen('B', Marked::Port1, Sends::Sf, STILL, FLUSH),
    },
    // R-APS(NR,RB).
    Example {
        at: OTHER,
        path: OTHER_TOLD,
        call: Call::Hear(0, 9, NR_RB),
        seen: Seen('E', Marked::NoPort, Sends::Nothing, STILL, FLUSH),
    },
    // R-APS(NR,RB) at the owner.
    Example {
        at: OWNER,
        path: OWNER_TOLD,
        call: Call::Hear(0, 9, NR_RB),
        seen: Seen('E', Marked::NoPort, Sends::Nothing, STILL, FLUSH),
    },
    // R-APS(NR,RB) below local SF.
    Example {
        at: OTHER,
        path: OTHER_FAILED,
        call: Call::Hear(0, 9, NR_RB),
        seen: Seen('B', Marked::Port1, Sends::Sf, STILL, FLUSH),
    },
    // R-APS(NR) at the owner.
    Example {
        at: OWNER,
        path: OWNER_TOLD,
        call: Call::Hear(0, 7, NR),
        seen: Seen('E', Marked::NoPort, Sends::Nothing, [0, 30_000, 0], KEEP),
    },
    // R-APS(NR) at an owner that is not revertive.
    Example {
        at: KEEPER,
        path: OWNER_TOLD,
        call: Call::Hear(0, 7, NR),
        seen: Seen('E', Marked::NoPort, Sends::Nothing, STILL, KEEP),
    },
    // R-APS(NR) at role other.
    Example {
        at: OTHER,
        path: OTHER_TOLD,
        call: Call::Hear(0, 3, NR),
        seen: Seen('E', Marked::NoPort, Sends::Nothing, STILL, KEEP),
    },
    // R-APS(NR) below local SF.
    Example {
        at: OWNER,
        path: FAILED,
        call: Call::Hear(0, 9, NR),
        seen: Seen('B', Marked::Port1, Sends::Sf, STILL, KEEP),
    },
];

#[test]
fn local_requests(rt: HostRuntime) -> Result<(), Fail> {
    run(&rt, &LOCAL)
}

#[test]
fn received_requests(rt: HostRuntime) -> Result<(), Fail> {
    run(&rt, &HEARD)
}
