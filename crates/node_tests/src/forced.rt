// The rows of state D, forced switch.
use crate::bench::*;
use std::test::*;

// An owner with FS at the RPL port, one with FS at the open port, and one that heard of one.
const FORCED_0: &[Call] = &[Call::Clear, Call::Force(0)];

const FORCED_1: &[Call] = &[Call::Clear, Call::Force(1)];

const OWNER_TOLD: &[Call] = &[Call::Clear, Call::Hear(0, 7, FS)];

// The same at another role.
const OTHER_FORCED: &[Call] = &[Call::Hear(0, 9, NR_RB), Call::Force(1)];

const OTHER_TOLD: &[Call] = &[Call::Hear(0, 9, NR_RB), Call::Hear(0, 7, FS)];

// A failure stands in forced switch.
const FAILED_FIRST: &[Call] = &[Call::Clear, Call::Fail(1), Call::Force(0)];

const BOTH_FAILED: &[Call] = &[
    Call::Clear,
    Call::Force(0),
    Call::Force(1),
    Call::Fail(0),
    Call::Fail(1),
];

const OWNER_TOLD_FAILED: &[Call] = &[Call::Clear, Call::Hear(0, 7, FS), Call::Fail(1)];

const OTHER_TOLD_FAILED: &[Call] = &[Call::Hear(0, 9, NR_RB), Call::Hear(0, 7, FS), Call::Fail(1)];

const LOCAL: [Example; 13] = [
    // Clear at the owner.
    Example {
        at: OWNER,
        path: FORCED_1,
        call: Call::Clear,
        seen: Seen('E', Marked::Port1, Sends::Nr, [50, 0, 550], KEEP),
    },
    // Clear at an owner that is not revertive.
    Example {
        at: KEEPER,
        path: FORCED_1,
        call: Call::Clear,
        seen: Seen('E', Marked::Port1, Sends::Nr, [50, 0, 0], KEEP),
    },
    // Clear at role other.
    Example {
        at: OTHER,
        path: OTHER_FORCED,
        call: Call::Clear,
        seen: Seen('E', Marked::Port1, Sends::Nr, [50, 0, 0], KEEP),
    },
    // Clear presents a failure that stood before the FS.
    Example {
        at: OWNER,
        path: FAILED_FIRST,
        call: Call::Clear,
        seen: Seen('B', Marked::Port1, Sends::Sf, [50, 0, 0], FLUSH),
    },
    // Clear with both ports forced and failed.
    Example {
        at: OWNER,
        path: BOTH_FAILED,
        call: Call::Clear,
        seen: Seen('B', Marked::Both, Sends::SfDnf, [50, 0, 0], KEEP),
    },
    // Clear with both ports forced and one failed opens the other.
    Example {
        at: OWNER,
        path: &[Call::Force(0), Call::Force(1), Call::Fail(0)],
        call: Call::Clear,
        seen: Seen('B', Marked::Port0, Sends::SfDnf, [50, 0, 0], KEEP),
    },
    // FS at the other port too.
    Example {
        at: OWNER,
        path: FORCED_0,
        call: Call::Force(1),
        seen: Seen('D', Marked::Both, Sends::Fs, STILL, FLUSH),
    },
    // FS at the same port again.
    Example {
        at: OWNER,
        path: FORCED_0,
        call: Call::Force(0),
        seen: Seen('D', Marked::Port0, Sends::Fs, STILL, FLUSH),
    },
    // FS where an FS was heard of.
    Example {
        at: OTHER,
        path: OTHER_TOLD,
        call: Call::Force(0),
        seen: Seen('D', Marked::Port0, Sends::Fs, STILL, FLUSH),
    },
    // Local SF is only noted.
    Example {
        at: OWNER,
        path: FORCED_0,
        call: Call::Fail(1),
        seen: Seen('D', Marked::Port0, Sends::FsDnf, STILL, KEEP),
    },
    // Local clear SF is only noted.
    Example {
        at: OWNER,
        path: FAILED_FIRST,
        call: Call::Repair(1),
        seen: Seen('D', Marked::Port0, Sends::Fs, STILL, KEEP),
    },
    // Local SF where an FS was heard of.
    Example {
        at: OTHER,
        path: OTHER_TOLD,
        call: Call::Fail(1),
        seen: Seen('D', Marked::NoPort, Sends::Nothing, STILL, KEEP),
    },
    // No delay timer runs.
    Example {
        at: OWNER,
        path: FORCED_1,
        call: Call::Ticks(1),
        seen: Seen('D', Marked::Port1, Sends::Fs, STILL, KEEP),
    },
];

// A standing FS is above every message; local SF does not count here.
const HEARD: [Example; 14] = [
    // R-APS(FS) below FS.
    Example {
        at: OWNER,
        path: FORCED_0,
        call: Call::Hear(0, 7, FS),
        seen: Seen('D', Marked::Port0, Sends::FsDnf, STILL, FLUSH),
    },
    // R-APS(FS) of one more.
    Example {
        at: OTHER,
        path: OTHER_TOLD,
        call: Call::Hear(0, 3, FS),
        seen: Seen('D', Marked::NoPort, Sends::Nothing, STILL, FLUSH),
    },
    // R-APS(SF) below FS.
    Example {
        at: OWNER,
        path: FORCED_0,
        call: Call::Hear(0, 7, SF),
        seen: Seen('D', Marked::Port0, Sends::FsDnf, STILL, FLUSH),
    },
    // R-APS(SF).
    Example {
        at: OTHER,
        path: OTHER_TOLD,
        call: Call::Hear(0, 3, SF),
        seen: Seen('D', Marked::NoPort, Sends::Nothing, STILL, FLUSH),
    },
    // R-APS(MS).
    Example {
        at: OTHER,
        path: OTHER_TOLD,
        call: Call::Hear(0, 3, MS),
        seen: Seen('D', Marked::NoPort, Sends::Nothing, STILL, FLUSH),
    },
    // R-APS(NR,RB) below FS.
    Example {
        at: OTHER,
        path: OTHER_FORCED,
        call: Call::Hear(0, 9, NR_RB),
        seen: Seen('D', Marked::Port1, Sends::Fs, STILL, FLUSH),
    },
    // R-APS(NR,RB).
    Example {
        at: OTHER,
        path: OTHER_TOLD,
        call: Call::Hear(0, 9, NR_RB),
        seen: Seen('E', Marked::NoPort, Sends::Nothing, STILL, FLUSH),
    },
    // R-APS(NR,RB) at the owner.
    Example {
        at: OWNER,
        path: OWNER_TOLD,
        call: Call::Hear(0, 9, NR_RB),
        seen: Seen('E', Marked::NoPort, Sends::Nothing, STILL, FLUSH),
    },
    // R-APS(NR,RB) presents a failure.
    Example {
        at: OTHER,
        path: OTHER_TOLD_FAILED,
        call: Call::Hear(0, 9, NR_RB),
        seen: Seen('B', Marked::Port1, Sends::Sf, STILL, FLUSH),
    },
    // R-APS(NR) below FS.
    Example {
        at: OWNER,
        path: FORCED_0,
        call: Call::Hear(0, 9, NR),
        seen: Seen('D', Marked::Port0, Sends::FsDnf, STILL, KEEP),
    },
    // R-APS(NR) at the owner.
    Example {
        at: OWNER,
        path: OWNER_TOLD,
        call: Call::Hear(0, 7, NR),
        seen: Seen('E', Marked::NoPort, Sends::Nothing, [0, 0, 550], KEEP),
    },
    // R-APS(NR) at an owner that is not revertive.
    Example {
        at: KEEPER,
        path: OWNER_TOLD,
        call: Call::Hear(0, 7, NR),
        seen: Seen('E', Marked::NoPort, Sends::Nothing, STILL, KEEP),
    },
    // R-APS(NR) at role other.
    Example {
        at: OTHER,
        path: OTHER_TOLD,
        call: Call::Hear(0, 7, NR),
        seen: Seen('E', Marked::NoPort, Sends::Nothing, STILL, KEEP),
    },
    // R-APS(NR) presents a failure, and WTB stops again.
    Example {
        at: OWNER,
        path: OWNER_TOLD_FAILED,
        call: Call::Hear(0, 7, NR),
        seen: Seen('B', Marked::Port1, Sends::Sf, STILL, FLUSH),
    },
];

#[test]
fn local_requests(rt: HostRuntime) -> Result<(), Fail> {
    run(&rt, &LOCAL)
}

#[test]
fn received_requests(rt: HostRuntime) -> Result<(), Fail> {
    run(&rt, &HEARD)
}
