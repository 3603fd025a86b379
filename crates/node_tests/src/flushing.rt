// The flush logic: a pair of Node ID and BPR is kept for each port.
use crate::bench::*;
use frame::NodeId;
use std::process::Abort;
use std::test::*;

// The last octet of the ID and the BPR: short, so that a line of a table is read as a whole.
type Pair = (u8, bool);

const ZERO: Pair = (0, false);

// A call, whether it flushes, and the pairs after it.
#[derive(Clone, Copy)]
struct Step(Call, bool, Pair, Pair);

const BPR: bool = true;

const DNF: bool = true;

fn short(pair: (NodeId, bool)) -> Pair {
    (pair.0.octets[5], pair.1)
}

fn walk(rt: &impl Abort, station: &mut Station, steps: &[Step]) -> Result<(), Fail> {
    for (number, Step(call, flushed, pair0, pair1)) in (1..).zip(steps) {
        station.call(*call)?;
        let Seen(_, _, _, _, gone) = station.seen();
        assert_eq!(rt; gone, *flushed, "step {number}");
        assert_eq!(rt; short(station.node.values.pair0), *pair0, "step {number}");
        assert_eq!(rt; short(station.node.values.pair1), *pair1, "step {number}");
        station.drives_well(rt, number);
    }
    Ok(())
}

// A new station of role other: the first message makes it idle, the others reach no row that changes it.
const PAIRS: [Step; 14] = [
    Step(
        Call::HearWith(0, 9, NR_RB, false, false),
        FLUSH,
        (9, false),
        ZERO,
    ),
    // The same pair again.
    Step(
        Call::HearWith(0, 9, NR_RB, false, false),
        KEEP,
        (9, false),
        ZERO,
    ),
    // Known from the other port.
    Step(
        Call::HearWith(1, 9, NR_RB, false, false),
        KEEP,
        (9, false),
        (9, false),
    ),
    // Another BPR.
    Step(
        Call::HearWith(0, 9, NR_RB, false, BPR),
        FLUSH,
        (9, true),
        (9, false),
    ),
    Step(
        Call::HearWith(1, 9, NR_RB, false, BPR),
        KEEP,
        (9, true),
        (9, true),
    ),
    // DNF: stored, not flushed; then the pair is known.
    Step(
        Call::HearWith(0, 9, NR_RB, DNF, false),
        KEEP,
        (9, false),
        (9, true),
    ),
    Step(
        Call::HearWith(0, 9, NR_RB, false, false),
        KEEP,
        (9, false),
        (9, true),
    ),
    // The own ID: stored, not flushed, and no row.
    Step(
        Call::HearWith(0, OWN, SF, false, false),
        KEEP,
        (OWN, false),
        (9, true),
    ),
    // NR zeroes the pair of the receiving port, so the next message flushes.
    Step(
        Call::HearWith(1, 3, NR, false, BPR),
        KEEP,
        (OWN, false),
        ZERO,
    ),
    Step(
        Call::HearWith(1, 9, NR_RB, false, BPR),
        FLUSH,
        (OWN, false),
        (9, true),
    ),
    Step(
        Call::HearWith(1, OWN, NR, false, false),
        KEEP,
        (OWN, false),
        ZERO,
    ),
    // An event flushes and leaves the pairs; the own one does nothing.
    Step(Call::Event(0, 9), FLUSH, (OWN, false), ZERO),
    Step(Call::Event(1, 3), FLUSH, (OWN, false), ZERO),
    Step(Call::Event(0, OWN), KEEP, (OWN, false), ZERO),
];

#[test]
fn pairs(rt: HostRuntime) -> Result<(), Fail> {
    let mut station = Station::new(OTHER)?;
    walk(&rt, &mut station, &PAIRS)?;
    assert_eq!(rt;
        station.seen(),
        Seen('A', Marked::NoPort, Sends::Nothing, STILL, KEEP)
    );
    Ok(())
}

// Guard runs: signals are dropped whole, events are not.
const GUARDED: [Step; 6] = [
    Step(Call::Clear, KEEP, ZERO, ZERO),
    Step(Call::Hear(0, 9, SF), KEEP, ZERO, ZERO),
    Step(Call::Hear(1, 9, NR_RB), KEEP, ZERO, ZERO),
    Step(Call::Event(0, 9), FLUSH, ZERO, ZERO),
    Step(Call::Ticks(49), KEEP, ZERO, ZERO),
    Step(Call::Hear(0, 9, FS), KEEP, ZERO, ZERO),
];

const GUARD_OVER: [Step; 2] = [
    Step(Call::Ticks(1), KEEP, ZERO, ZERO),
    Step(Call::Hear(0, 9, SF), FLUSH, (9, false), ZERO),
];

#[test]
fn guard(rt: HostRuntime) -> Result<(), Fail> {
    let mut station = Station::brought(OTHER, &[Call::Switch(1)])?;
    walk(&rt, &mut station, &GUARDED)?;
    assert_eq!(rt;
        station.seen(),
        Seen('E', Marked::Port1, Sends::Nr, [1, 0, 0], KEEP)
    );
    walk(&rt, &mut station, &GUARD_OVER)?;
    assert_eq!(rt;
        station.seen(),
        Seen('B', Marked::NoPort, Sends::Nothing, STILL, FLUSH)
    );
    Ok(())
}

// A port that goes from open to blocked zeroes both pairs; one that stays blocked, or opens, does not.
const BLOCKING: [Step; 9] = [
    Step(Call::Hear(0, 9, NR_RB), FLUSH, (9, false), ZERO),
    Step(Call::Hear(1, 9, NR_RB), KEEP, (9, false), (9, false)),
    Step(Call::Switch(1), FLUSH, ZERO, ZERO),
    Step(Call::Hear(0, 9, NR_RB), FLUSH, (9, false), ZERO),
    Step(Call::Fail(1), KEEP, (9, false), ZERO),
    Step(Call::Fail(0), FLUSH, ZERO, ZERO),
    Step(Call::Hear(1, 9, SF), FLUSH, ZERO, (9, false)),
    Step(Call::Repair(1), KEEP, ZERO, (9, false)),
    Step(Call::Hear(1, 9, SF), KEEP, ZERO, (9, false)),
];

#[test]
fn blocking(rt: HostRuntime) -> Result<(), Fail> {
    let mut station = Station::new(OTHER)?;
    walk(&rt, &mut station, &BLOCKING)?;
    assert_eq!(rt;
        station.seen(),
        Seen('B', Marked::Port0, Sends::SfDnf, STILL, KEEP)
    );
    Ok(())
}

// The last message makes the neighbour block its RPL port again, so a pair that it knew flushes.
const BLOCKED_BY_A_MESSAGE: [Step; 5] = [
    Step(Call::Hear(0, 9, NR_RB), FLUSH, (9, false), ZERO),
    Step(Call::Hear(1, 9, NR_RB), KEEP, (9, false), (9, false)),
    Step(Call::Hear(0, 7, SF), FLUSH, (7, false), (9, false)),
    Step(Call::Hear(0, 9, NR_RB), KEEP, (9, false), (9, false)),
    Step(Call::Hear(0, 9, NR_RB), FLUSH, (9, false), ZERO),
];

#[test]
fn blocked_by_a_message(rt: HostRuntime) -> Result<(), Fail> {
    let mut station = Station::new(NEIGHBOUR)?;
    walk(&rt, &mut station, &BLOCKED_BY_A_MESSAGE)?;
    assert_eq!(rt;
        station.seen(),
        Seen('A', Marked::Port1, Sends::Nothing, STILL, FLUSH)
    );
    Ok(())
}

// Restart zeroes the pairs.
#[test]
fn restart(rt: HostRuntime) -> Result<(), Fail> {
    let mut station = Station::brought(OTHER, &[Call::Hear(0, 9, NR_RB), Call::Hear(1, 7, NR_RB)])?;
    walk(&rt, &mut station, &[Step(Call::Restart, KEEP, ZERO, ZERO)])
}
