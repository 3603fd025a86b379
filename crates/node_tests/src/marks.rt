// The marks that a node holds beside its state: mismatch, failed, forced, and the port under MS.
use crate::bench::*;
use std::test::*;

// A way, and whether the mismatch mark stands after it.
#[derive(Clone, Copy)]
struct Way(At, &'static [Call], bool);

// An owner that hears NR,RB of another has the mark until it restarts.
const MISMATCH: [Way; 12] = [
    Way(OWNER, &[Call::Clear, Call::Hear(0, 9, NR_RB)], true),
    Way(KEEPER, &[Call::Hear(1, 3, NR_RB)], true),
    // Below a standing WTR, local SF, FS and MS.
    Way(OWNER, &[Call::Hear(0, 9, NR_RB)], true),
    Way(OWNER, &[Call::Fail(1), Call::Hear(0, 9, NR_RB)], true),
    Way(OWNER, &[Call::Force(1), Call::Hear(0, 9, NR_RB)], true),
    Way(OWNER, &[Call::Switch(1), Call::Hear(0, 9, NR_RB)], true),
    // Not while guard runs, and not the own one.
    Way(
        OWNER,
        &[Call::Switch(1), Call::Clear, Call::Hear(0, 9, NR_RB)],
        false,
    ),
    Way(OWNER, &[Call::Clear, Call::Hear(0, OWN, NR_RB)], false),
    // NR of another, and another role.
    Way(OWNER, &[Call::Clear, Call::Hear(0, 9, NR)], false),
    Way(NEIGHBOUR, &[Call::Hear(0, 9, NR_RB)], false),
    // It stays, and ends with a restart.
    Way(
        OWNER,
        &[
            Call::Hear(0, 9, NR_RB),
            Call::Clear,
            Call::Fail(0),
            Call::Repair(0),
        ],
        true,
    ),
    Way(OWNER, &[Call::Hear(0, 9, NR_RB), Call::Restart], false),
];

#[test]
fn mismatch(rt: HostRuntime) -> Result<(), Fail> {
    for (number, Way(at, path, marked)) in (1..).zip(&MISMATCH) {
        let station = Station::brought(*at, path)?;
        assert_eq!(rt; station.node.status().mismatch, *marked, "way {number}");
        station.drives_well(&rt, number);
    }
    Ok(())
}

// A way, and after it the failed ports, the forced ports and the port under MS.
#[derive(Clone, Copy)]
struct Held(&'static [Call], Marked, Marked, Marked);

const COMMANDS: [Held; 13] = [
    Held(&[], Marked::NoPort, Marked::NoPort, Marked::NoPort),
    Held(
        &[Call::Switch(1)],
        Marked::NoPort,
        Marked::NoPort,
        Marked::Port1,
    ),
    Held(
        &[Call::Switch(0), Call::Force(1)],
        Marked::NoPort,
        Marked::Port1,
        Marked::NoPort,
    ),
    Held(
        &[Call::Switch(0), Call::Fail(1)],
        Marked::Port1,
        Marked::NoPort,
        Marked::NoPort,
    ),
    Held(
        &[Call::Switch(0), Call::Hear(0, 9, MS)],
        Marked::NoPort,
        Marked::NoPort,
        Marked::NoPort,
    ),
    Held(
        &[Call::Switch(0), Call::Clear],
        Marked::NoPort,
        Marked::NoPort,
        Marked::NoPort,
    ),
    Held(
        &[Call::Force(0), Call::Force(1)],
        Marked::NoPort,
        Marked::Both,
        Marked::NoPort,
    ),
    Held(
        &[Call::Force(0), Call::Force(1), Call::Clear],
        Marked::NoPort,
        Marked::NoPort,
        Marked::NoPort,
    ),
    Held(
        &[Call::Fail(1), Call::Force(0)],
        Marked::Port1,
        Marked::Port0,
        Marked::NoPort,
    ),
    Held(
        &[
            Call::Force(0),
            Call::Fail(1),
            Call::Fail(0),
            Call::Repair(1),
        ],
        Marked::Port0,
        Marked::Port0,
        Marked::NoPort,
    ),
    Held(
        &[Call::Fail(0), Call::Fail(1), Call::Repair(0)],
        Marked::Port1,
        Marked::NoPort,
        Marked::NoPort,
    ),
    Held(
        &[Call::Fail(1), Call::Hear(0, 9, FS)],
        Marked::Port1,
        Marked::NoPort,
        Marked::NoPort,
    ),
    Held(
        &[Call::Force(0), Call::Fail(1), Call::Restart],
        Marked::Port1,
        Marked::NoPort,
        Marked::NoPort,
    ),
];

#[test]
fn commands_and_failures(rt: HostRuntime) -> Result<(), Fail> {
    for (number, Held(path, failed, forced, manual)) in (1..).zip(&COMMANDS) {
        let station = Station::brought(OWNER, path)?;
        let status = station.node.status();
        assert_eq!(rt; Marked::from(status.failed), *failed, "way {number}");
        assert_eq!(rt; Marked::from(status.forced), *forced, "way {number}");
        assert_eq!(rt; Marked::from(status.manual), *manual, "way {number}");
    }
    Ok(())
}
