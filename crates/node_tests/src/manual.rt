// The rows of state C, manual switch.
use crate::bench::*;
use std::test::*;

// An owner with MS at the open port, and one that heard of one.
const SWITCHED: &[Call] = &[Call::Clear, Call::Switch(1)];

const OWNER_TOLD: &[Call] = &[Call::Clear, Call::Hear(0, 7, MS)];

// The same at another role.
const OTHER_SWITCHED: &[Call] = &[Call::Hear(0, 9, NR_RB), Call::Switch(1)];

const OTHER_TOLD: &[Call] = &[Call::Hear(0, 9, NR_RB), Call::Hear(0, 7, MS)];

const LOCAL: [Example; 11] = [
    // Clear at the owner.
    Example {
        at: OWNER,
        path: SWITCHED,
        call: Call::Clear,
        seen: Seen('E', Marked::Port1, Sends::Nr, [50, 0, 550], KEEP),
    },
    // Clear at an owner that is not revertive.
    Example {
        at: KEEPER,
        path: SWITCHED,
        call: Call::Clear,
        seen: Seen('E', Marked::Port1, Sends::Nr, [50, 0, 0], KEEP),
    },
    // Clear at role other.
    Example {
        at: OTHER,
        path: OTHER_SWITCHED,
        call: Call::Clear,
        seen: Seen('E', Marked::Port1, Sends::Nr, [50, 0, 0], KEEP),
    },
    // FS at the open port.
    Example {
        at: OWNER,
        path: SWITCHED,
        call: Call::Force(0),
        seen: Seen('D', Marked::Port0, Sends::Fs, STILL, FLUSH),
    },
    // FS at the port under MS.
    Example {
        at: OWNER,
        path: SWITCHED,
        call: Call::Force(1),
        seen: Seen('D', Marked::Port1, Sends::FsDnf, STILL, KEEP),
    },
    // FS where an MS was heard of.
    Example {
        at: OTHER,
        path: OTHER_TOLD,
        call: Call::Force(1),
        seen: Seen('D', Marked::Port1, Sends::Fs, STILL, FLUSH),
    },
    // Local SF at the open port.
    Example {
        at: OWNER,
        path: SWITCHED,
        call: Call::Fail(0),
        seen: Seen('B', Marked::Port0, Sends::Sf, STILL, FLUSH),
    },
    // Local SF at the port under MS.
    Example {
        at: OTHER,
        path: OTHER_SWITCHED,
        call: Call::Fail(1),
        seen: Seen('B', Marked::Port1, Sends::SfDnf, STILL, KEEP),
    },
    // Local SF where an MS was heard of.
    Example {
        at: OTHER,
        path: OTHER_TOLD,
        call: Call::Fail(0),
        seen: Seen('B', Marked::Port0, Sends::Sf, STILL, FLUSH),
    },
    // A repair of no failure.
    Example {
        at: OWNER,
        path: SWITCHED,
        call: Call::Repair(1),
        seen: Seen('C', Marked::Port1, Sends::Ms, STILL, KEEP),
    },
    // No delay timer runs.
    Example {
        at: OWNER,
        path: SWITCHED,
        call: Call::Ticks(1),
        seen: Seen('C', Marked::Port1, Sends::Ms, STILL, KEEP),
    },
];

// R-APS(NR,RB) and R-APS(NR) are below a standing MS, R-APS(MS) above it.
const HEARD: [Example; 13] = [
    // R-APS(FS).
    Example {
        at: OWNER,
        path: SWITCHED,
        call: Call::Hear(0, 7, FS),
        seen: Seen('D', Marked::NoPort, Sends::Nothing, STILL, FLUSH),
    },
    // R-APS(SF).
    Example {
        at: OWNER,
        path: SWITCHED,
        call: Call::Hear(0, 7, SF),
        seen: Seen('B', Marked::NoPort, Sends::Nothing, STILL, FLUSH),
    },
    // R-APS(SF) where an MS was heard of.
    Example {
        at: OTHER,
        path: OTHER_TOLD,
        call: Call::Hear(0, 3, SF),
        seen: Seen('B', Marked::NoPort, Sends::Nothing, STILL, FLUSH),
    },
    // R-APS(MS) with a port blocked, at the owner.
    Example {
        at: OWNER,
        path: SWITCHED,
        call: Call::Hear(0, 7, MS),
        seen: Seen('E', Marked::Port1, Sends::Nr, [50, 0, 550], FLUSH),
    },
    // R-APS(MS) with a port blocked, at role other.
    Example {
        at: OTHER,
        path: OTHER_SWITCHED,
        call: Call::Hear(0, 7, MS),
        seen: Seen('E', Marked::Port1, Sends::Nr, [50, 0, 0], FLUSH),
    },
    // R-APS(MS) with no port blocked.
    Example {
        at: OWNER,
        path: OWNER_TOLD,
        call: Call::Hear(0, 3, MS),
        seen: Seen('C', Marked::NoPort, Sends::Nothing, STILL, FLUSH),
    },
    // R-APS(NR,RB) below MS.
    Example {
        at: OTHER,
        path: OTHER_SWITCHED,
        call: Call::Hear(0, 9, NR_RB),
        seen: Seen('C', Marked::Port1, Sends::Ms, STILL, FLUSH),
    },
    // R-APS(NR,RB) where an MS was heard of.
    Example {
        at: OTHER,
        path: OTHER_TOLD,
        call: Call::Hear(0, 9, NR_RB),
        seen: Seen('E', Marked::NoPort, Sends::Nothing, STILL, FLUSH),
    },
    // R-APS(NR,RB) at an owner that heard of an MS.
    Example {
        at: OWNER,
        path: OWNER_TOLD,
        call: Call::Hear(0, 9, NR_RB),
        seen: Seen('E', Marked::NoPort, Sends::Nothing, STILL, FLUSH),
    },
    // R-APS(NR) below MS.
    Example {
        at: OWNER,
        path: SWITCHED,
        call: Call::Hear(0, 9, NR),
        seen: Seen('C', Marked::Port1, Sends::Ms, STILL, KEEP),
    },
    // R-APS(NR) at the owner.
    Example {
        at: OWNER,
        path: OWNER_TOLD,
        call: Call::Hear(0, 7, NR),
        seen: Seen('E', Marked::NoPort, Sends::Nothing, [0, 0, 550], KEEP),
    },
    // R-APS(NR) at an owner that is not revertive.
    Example {
        at: KEEPER,
        path: OWNER_TOLD,
        call: Call::Hear(0, 7, NR),
        seen: Seen('E', Marked::NoPort, Sends::Nothing, STILL, KEEP),
    },
    // R-APS(NR) at role other.
    Example {
        at: OTHER,
        path: OTHER_TOLD,
        call: Call::Hear(0, 7, NR),
        seen: Seen('E', Marked::NoPort, Sends::Nothing, STILL, KEEP),
    },
];

#[test]
fn local_requests(rt: HostRuntime) -> Result<(), Fail> {
    run(&rt, &LOCAL)
}

#[test]
fn received_requests(rt: HostRuntime) -> Result<(), Fail> {
    run(&rt, &HEARD)
}
