// Whole frames, and a fabric that keeps a table of addresses.
use crate::bench::*;
use fabric::{Address, Fabric, Side, TableFabric};
use frame::{Body, Request, worked_frame};
use node::{Node, Settings};
use std::test::*;

// As in the other crates of examples, of which none stands on another.
fn address(last: u8) -> Address {
    Address {
        octets: [2, 0, 0, 0, 0, last],
    }
}

// An owner with the RPL at port 0. Addresses 1, 2 and 3 are learned at port 0, at port 1 and off the ring.
#[test]
fn table_of_addresses(rt: HostRuntime) -> Result<(), Fail> {
    let mut table = TableFabric::new();
    assert!(rt; table.learn(address(1), 0).is_ok() && table.learn(address(2), 1).is_ok());
    assert!(rt; table.learn(address(3), 2).is_ok());
    let Ok(mut node) = Node::set_up(Settings::from(OWNER), &mut table) else {
        return Err(Fail::new("refused"));
    };
    assert!(rt; holds(table.is_blocked(0)) && !holds(table.is_blocked(1)));
    assert!(rt; node.clear(&mut table).is_ok());
    assert!(rt; holds(table.is_taught(0)) && holds(table.is_taught(1)));
    assert!(rt; table.learn(address(4), 0).is_err());
    assert!(rt; node.fail(&mut table, 1).is_ok());
    assert!(rt; !holds(table.is_blocked(0)) && holds(table.is_blocked(1)));
    assert!(rt; !holds(table.is_taught(0)) && !holds(table.is_taught(1)));
    assert!(rt; table.lookup(address(1)).is_none() && table.lookup(address(2)).is_none());
    assert_eq!(rt; table.lookup(address(3)), Some(Side::OffRing));
    assert!(rt; table.learn(address(4), 0).is_ok());
    Ok(())
}

// The question reads a frame and changes nothing; delivery takes it: SF, BPR 1, from the ID that ends 01.
#[test]
fn a_frame(rt: HostRuntime) -> Result<(), Fail> {
    let mut station = Station::brought(OWNER, &[Call::Clear])?;
    let before = station;
    let Ok(message) = station.node.question(&station.fabric, 1, &worked_frame()) else {
        return Err(Fail::new("refused"));
    };
    assert_eq!(rt; u64::from(message.node), 0x0000_5E00_5301);
    assert_eq!(rt;
        message.body,
        Body::Signal {
            request: Request::SignalFail,
            dnf: false,
            bpr: true
        }
    );
    assert_eq!(rt; station.seen(), before.seen());
    assert!(rt;
        station
            .node
            .deliver(&mut station.fabric, 1, &worked_frame())
            .is_ok()
    );
    assert_eq!(rt;
        station.seen(),
        Seen('B', Marked::NoPort, Sends::Nothing, STILL, FLUSH)
    );
    assert_eq!(rt; u64::from(station.node.values.pair1.0), 0x0000_5E00_5301);
    assert!(rt; station.node.values.pair1.1);
    station.drives_well(&rt, 1);
    Ok(())
}
