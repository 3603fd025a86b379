// A fabric that keeps a table of learned addresses.
ghost use Rattle.std.specs.Prelude.{◌≡◌, map};
ghost use Rattle.fabric.specs.Laws.{Single, LearnLaw, FlushLaw};
ghost use Rattle.fabric.specs.Marks.{done_answer, after_block, after_open, after_flush};
ghost use Rattle.fabric.specs.Table.{side_number, side_at, blocked_at, found_at, empty_table, table_marks, off_ring_octets, freed, learning_at, learning};
ghost use Rattle.std.specs.Option.{ok_or};
ghost use Rattle.fabric.specs.declared.types.FabricFault.TheVariants.{NoSuchPort};

use super::fabric::Fabric;
use super::records::{free_ring, has_side, place_for, place_of, side};
use super::types::{FabricFault, Ports, of_port};

// An Ethernet address, of any host: no `NodeId`, which names a station, though each is six octets.
#[derive(Clone, Copy, PartialEq, Eq, Debug)]
pub struct Address {
    pub octets: [u8; 6],
}

// Where an address was learned. OffRing is port 2, which is never blocked or taught.
#[derive(Clone, Copy, PartialEq, Eq, Debug)]
pub enum Side {
    Port0,
    Port1,
    OffRing,
}

// What the table knows of an address.
#[derive(Clone, Copy, PartialEq, Eq, Debug)]
pub struct Record {
    pub address: Address,
    pub at: Side,
}

// A place without a record is free. The rules fix 64 places, and no heap is used, so it is an array that is searched and no map.
#[derive(Clone, Copy, PartialEq, Eq, Debug)]
pub struct TableFabric {
    pub blocked: Ports,
    pub records: [Option<Record>; 64],
}

// The number of its port.
impl From<Side> for u8 {
    ghost from_gives = { λ side number. number ≡ side_number side };

    fn from(side: Side) -> u8 {
        match side {
            Side::Port0 => 0,
            Side::Port1 => 1,
            Side::OffRing => 2,
        }
    }
}

// The side that a port number names.
impl TryFrom<u8> for Side {
    type Error = FabricFault;

    ghost try_from_gives = { λ port side. side ≡ ok_or (side_at port) (NoSuchPort port) };

    fn try_from(port: u8) -> Result<Side, FabricFault> {
        match port {
            0 => Ok(Side::Port0),
            1 => Ok(Side::Port1),
            2 => Ok(Side::OffRing),
            _ => Err(FabricFault::NoSuchPort { port }),
        }
    }
}

impl TableFabric {
    // Every place is free, and no port is blocked.
    pub fn new() -> TableFabric
        ensures value { result ≡ empty_table }
        ensures single { Single result.records }
    {
        TableFabric {
            blocked: Ports::NONE,
            records: [None; 64],
        }
    }

    // Whether nothing may be learned at a side.
    fn is_shut(&self, side: Side) -> bool
        ensures { result ≡ blocked_at self.now.blocked side }
    {
        match side {
            Side::Port0 => self.blocked.p0,
            Side::Port1 => self.blocked.p1,
            Side::OffRing => false,
        }
    }

    // Where an address is: what the first record that holds it says.
    pub fn lookup(&self, address: Address) -> Option<Side>
        ensures value { result ≡ found_at address self.now.records }
    {
        let place = place_of(&self.records, address)?;
        side(self.records[place])
    }

    // Learns that an address is at a port: 0 and 1 on the ring, 2 off it.
    // A known address moves in place, a new one takes the first free place.
    pub fn learn(&mut self, address: Address, port: u8) -> Result<(), FabricFault>
        ensures answer { result ≡ (learning self.old address port).answer }
        ensures after { self.new.records ≡ (learning self.old address port).after }
        ensures blocks { self.new.blocked ≡ self.old.blocked }
        ensures law { LearnLaw address port self.old.records result self.new.records }
    {
        let side = Side::try_from(port)?;
        self.learn_at(address, port, side)
    }

    // The known address goes first, so that a full table still moves it.
    fn learn_at(&mut self, address: Address, port: u8, side: Side) -> Result<(), FabricFault>
        ensures answer { result ≡ (learning_at self.old address port side).answer }
        ensures after { self.new.records ≡ (learning_at self.old address port side).after }
        ensures blocks { self.new.blocked ≡ self.old.blocked }
    {
        if self.is_shut(side) {
            return Err(FabricFault::OnBlocked { port });
        }
        let Some(place) = place_for(&self.records, address) else {
            return Err(FabricFault::TableFull { port });
        };
        self.records[place] = Some(Record { address, at: side });
        Ok(())
    }
}

// A method with a clause of its own repeats those of the trait, as the language asks.
impl Fabric for TableFabric {
    ghost marks = { λ t. table_marks t };

    ghost kept = { λ t. map off_ring_octets t.records };

    fn is_blocked(&self, port: u8) -> Result<bool, FabricFault> {
        self.blocked.mark(port)
    }

    fn is_taught(&self, port: u8) -> Result<bool, FabricFault> {
        let taught = of_port(port, Side::Port0, Side::Port1)?;
        Ok(has_side(&self.records, taught))
    }

    fn block(&mut self, port: u8) -> Result<(), FabricFault>
        ensures answer { result ≡ done_answer port }
        ensures after { table_marks self.new ≡ after_block (table_marks self.old) port }
        ensures same { map off_ring_octets self.new.records ≡ map off_ring_octets self.old.records }
        ensures records { self.new.records ≡ self.old.records }
    {
        self.blocked.set_mark(port, true)
    }

    fn open(&mut self, port: u8) -> Result<(), FabricFault>
        ensures answer { result ≡ done_answer port }
        ensures after { table_marks self.new ≡ after_open (table_marks self.old) port }
        ensures same { map off_ring_octets self.new.records ≡ map off_ring_octets self.old.records }
        ensures records { self.new.records ≡ self.old.records }
    {
        self.blocked.set_mark(port, false)
    }

    fn flush(&mut self)
        ensures after { table_marks self.new ≡ after_flush (table_marks self.old) }
        ensures same { map off_ring_octets self.new.records ≡ map off_ring_octets self.old.records }
        ensures records { self.new.records ≡ map freed self.old.records }
        ensures blocks { self.new.blocked ≡ self.old.blocked }
        ensures law { FlushLaw self.old.records self.new.records }
    {
        free_ring(&mut self.records);
    }
}
