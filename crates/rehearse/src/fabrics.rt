// Shows the two fabrics: learning, blocking, opening, flushing, and what is refused.
use fabric::{Address, Fabric, FabricFault, RegisterFabric, TableFabric};
use script::{Hex, Refused};
use std::{fmt, io};

// What a call answers: `ok`, or the refusal.
#[derive(Clone, Copy, PartialEq, Eq, Debug)]
struct Answer(Result<(), FabricFault>);

impl fmt::Display for Answer {
    fn fmt<W: fmt::Write>(&self, f: &mut fmt::Formatter<W>) -> fmt::Result {
        match self.0 {
            Ok(()) => write!(f, "ok"),
            Err(fault) => {
                let refused = Refused(fault);
                write!(f, "{refused}")
            }
        }
    }
}

// One line: a call at a port, and what it answers.
fn tell(rt: &HostRuntime, call: &str, port: u8, answer: Result<(), FabricFault>) -> io::Result<()> {
    let answer = Answer(answer);
    println!(rt; "  {call} port {port}: {answer}")
}

fn flush<F: Fabric>(rt: &HostRuntime, fabric: &mut F) -> io::Result<()> {
    fabric.flush();
    println!(rt; "  flush")
}

fn learn(rt: &HostRuntime, table: &mut TableFabric, address: Address, port: u8) -> io::Result<()> {
    let answer = Answer(table.learn(address, port));
    let hex = Hex(&address.octets);
    println!(rt; "  learn {hex} at port {port}: {answer}")
}

fn look_up(rt: &HostRuntime, table: &TableFabric, address: Address) -> io::Result<()> {
    let hex = Hex(&address.octets);
    match table.lookup(address) {
        Some(side) => {
            let port = u8::from(side);
            println!(rt; "  look up {hex}: port {port}")
        }
        None => println!(rt; "  look up {hex}: not known"),
    }
}

fn show_word(rt: &HostRuntime, register: &RegisterFabric) -> io::Result<()> {
    let word = register.word;
    println!(rt; "  word {word:08X}")
}

// The address of a host, by its last octet; a program stands on no crate of examples, which build theirs alike.
fn host(last: u8) -> Address {
    Address {
        octets: [0x00, 0x00, 0x5E, 0x00, 0x53, last],
    }
}

pub(crate) fn show_table(rt: &HostRuntime) -> io::Result<()> {
    println!(rt;
        "A switch with a table of addresses; ports 0 and 1 are on the ring, port 2 is off it:"
    )?;
    let mut table = TableFabric::new();
    learn(rt, &mut table, host(0x10), 0)?;
    look_up(rt, &table, host(0x10))?;
    tell(rt, "block", 0, table.block(0))?;
    learn(rt, &mut table, host(0x11), 0)?;
    learn(rt, &mut table, host(0x12), 2)?;
    flush(rt, &mut table)?;
    look_up(rt, &table, host(0x10))?;
    look_up(rt, &table, host(0x12))
}

pub(crate) fn show_register(rt: &HostRuntime) -> io::Result<()> {
    println!(rt;
        "A switch with a register; its first digit has blocked 0, blocked 1, taught 0, taught 1, the rest is the host's:"
    )?;
    let mut register = RegisterFabric { word: 0xB123_4567 };
    show_word(rt, &register)?;
    tell(rt, "block", 1, register.block(1))?;
    show_word(rt, &register)?;
    tell(rt, "open", 0, register.open(0))?;
    show_word(rt, &register)?;
    flush(rt, &mut register)?;
    show_word(rt, &register)?;
    tell(rt, "block", 3, register.block(3))?;
    show_word(rt, &register)
}
