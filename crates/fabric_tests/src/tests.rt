// Examples, with expected values worked out by hand from the rules.
use super::change::hand_over;
use super::lamp::LampFabric;
use fabric::{Address, Fabric, FabricFault, Ports, Record, RegisterFabric, Side, TableFabric};
use std::process::Abort;
use std::test::Fail;

// As in the other crates of examples, of which none stands on another.
fn address(last: u8) -> Address {
    Address {
        octets: [2, 0, 0, 0, 0, last],
    }
}

fn known(last: u8, at: Side) -> Option<Record> {
    Some(Record {
        address: address(last),
        at,
    })
}

// Blocked 0, blocked 1, taught 0, taught 1.
fn read<F: Fabric>(fabric: &F) -> Result<[bool; 4], FabricFault> {
    Ok([
        fabric.is_blocked(0)?,
        fabric.is_blocked(1)?,
        fabric.is_taught(0)?,
        fabric.is_taught(1)?,
    ])
}

// The same for every fabric that begins blocked at port 0 and taught at both.
fn moves_the_block<F: Fabric>(rt: &impl Abort, fabric: &mut F) -> Result<(), Fail> {
    assert_eq!(rt; read(fabric)?, [true, false, true, true]);
    assert_eq!(rt;
        hand_over(fabric, 0, 2),
        Err(FabricFault::NoSuchPort { port: 2 })
    );
    assert_eq!(rt;
        hand_over(fabric, 7, 1),
        Err(FabricFault::NoSuchPort { port: 7 })
    );
    assert_eq!(rt; read(fabric)?, [true, false, true, true]);
    hand_over(fabric, 0, 1)?;
    assert_eq!(rt; read(fabric)?, [false, true, false, false]);
    Ok(())
}

#[test]
fn lamps_hand_over(rt: HostRuntime) -> Result<(), Fail> {
    let mut lamps = LampFabric {
        blocked: Ports {
            p0: true,
            p1: false,
        },
        taught: Ports { p0: true, p1: true },
    };
    moves_the_block(&rt, &mut lamps)
}

#[test]
fn register_hands_over(rt: HostRuntime) -> Result<(), Fail> {
    let mut register = RegisterFabric { word: 0xb234_5678 };
    moves_the_block(&rt, &mut register)?;
    assert_eq!(rt; register.word, 0x4234_5678);
    Ok(())
}

#[test]
fn table_hands_over(rt: HostRuntime) -> Result<(), Fail> {
    let mut table = TableFabric::new();
    table.learn(address(1), 0)?;
    table.learn(address(2), 2)?;
    table.learn(address(3), 1)?;
    table.block(0)?;
    moves_the_block(&rt, &mut table)?;
    assert_eq!(rt; table.lookup(address(1)), None);
    assert_eq!(rt; table.lookup(address(2)), Some(Side::OffRing));
    assert_eq!(rt; table.records[1], known(2, Side::OffRing));
    Ok(())
}

#[test]
fn known_address_moves_in_place(rt: HostRuntime) -> Result<(), Fail> {
    let mut table = TableFabric::new();
    table.learn(address(1), 0)?;
    table.learn(address(2), 1)?;
    table.learn(address(1), 2)?;
    assert_eq!(rt; table.records[0], known(1, Side::OffRing));
    assert_eq!(rt; table.records[1], known(2, Side::Port1));
    assert_eq!(rt; table.records[2], None);
    assert_eq!(rt; table.lookup(address(1)), Some(Side::OffRing));
    Ok(())
}

#[test]
fn new_address_takes_the_first_free_record(rt: HostRuntime) -> Result<(), Fail> {
    let mut table = TableFabric::new();
    table.learn(address(1), 0)?;
    table.learn(address(2), 2)?;
    table.learn(address(3), 1)?;
    table.flush();
    assert_eq!(rt; table.records[0], None);
    assert_eq!(rt; table.records[1], known(2, Side::OffRing));
    assert_eq!(rt; table.records[2], None);
    table.learn(address(4), 1)?;
    assert_eq!(rt; table.records[0], known(4, Side::Port1));
    assert_eq!(rt; table.records[2], None);
    Ok(())
}

#[test]
fn blocked_port_learns_nothing(rt: HostRuntime) -> Result<(), Fail> {
    let mut table = TableFabric::new();
    table.learn(address(1), 0)?;
    table.block(1)?;
    let before = table;
    let refusal = FabricFault::OnBlocked { port: 1 };
    assert_eq!(rt; table.learn(address(1), 1), Err(refusal));
    assert_eq!(rt; table.learn(address(2), 1), Err(refusal));
    assert_eq!(rt; (refusal.number(), refusal.port()), (19, 1));
    assert_eq!(rt; table, before);
    table.learn(address(2), 2)?;
    assert_eq!(rt; table.lookup(address(2)), Some(Side::OffRing));
    Ok(())
}

#[test]
fn full_table_still_moves_a_known_address(rt: HostRuntime) -> Result<(), Fail> {
    let mut table = TableFabric::new();
    for last in 0..64 {
        table.learn(address(last), 2)?;
    }
    let before = table;
    let refusal = FabricFault::TableFull { port: 0 };
    assert_eq!(rt; table.learn(address(64), 0), Err(refusal));
    assert_eq!(rt; (refusal.number(), refusal.port()), (20, 0));
    assert_eq!(rt; table, before);
    table.learn(address(63), 1)?;
    assert_eq!(rt; table.records[63], known(63, Side::Port1));
    assert_eq!(rt; table.lookup(address(62)), Some(Side::OffRing));
    Ok(())
}

#[test]
fn refusals_have_an_order(rt: HostRuntime) -> Result<(), Fail> {
    let mut table = TableFabric::new();
    for last in 0..64 {
        table.learn(address(last), 2)?;
    }
    table.block(0)?;
    let before = table;
    let wrong = FabricFault::NoSuchPort { port: 3 };
    assert_eq!(rt; table.learn(address(64), 3), Err(wrong));
    assert_eq!(rt; (wrong.number(), wrong.port()), (8, 3));
    let blocked = FabricFault::OnBlocked { port: 0 };
    assert_eq!(rt; table.learn(address(64), 0), Err(blocked));
    assert_eq!(rt; table.block(2), Err(FabricFault::NoSuchPort { port: 2 }));
    assert_eq!(rt; table, before);
    Ok(())
}
