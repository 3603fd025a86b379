// The places of a table: which one is meant, what its record says, and what flush leaves there.
ghost use Rattle.std.specs.Prelude.{◌≡◌, ◌<◌, length, map, IfSome};
ghost use Rattle.std.specs.List.{list_any, position_from};
ghost use Rattle.std.specs.Option.{option_or};
ghost use Rattle.fabric.specs.Table.{freed, holds, is_free, of_port, side_number, side_of};

use super::table::{Address, Record, Side};

// Whether an entry, a place of the table with what stands in it, has this address.
fn holds(entry: Option<Record>, address: Address) -> bool
    ensures { result ≡ holds address entry }
{
    entry.is_some_and(|record| record.address == address)
}

// Where an entry says that its address is.
pub(crate) fn side(entry: Option<Record>) -> Option<Side>
    ensures { result ≡ side_of entry }
{
    entry.map(|record| record.at)
}

// Whether an entry has an address of this side.
fn is_of(entry: Option<Record>, at: Side) -> bool
    ensures { result ≡ of_port (side_number at) entry }
{
    side(entry) == Some(at)
}

// What flush leaves of an entry.
fn without_ring(entry: Option<Record>) -> Option<Record>
    ensures { result ≡ freed entry }
{
    entry.filter(|record| record.at == Side::OffRing)
}

// The first place where this address stands. (That a place is within the table is said of each answer: a number has no type
// that could say it of an array's length.)
pub(crate) fn place_of(records: &[Option<Record>], address: Address) -> Option<usize>
    ensures place { result ≡ position_from (holds address) 0 records.now }
    ensures within { IfSome result (λ i. i < length records.now) }
{
    records.iter().position(|entry| holds(*entry, address))
}

// The first free place.
fn free_place(records: &[Option<Record>]) -> Option<usize>
    ensures place { result ≡ position_from is_free 0 records.now }
    ensures within { IfSome result (λ i. i < length records.now) }
{
    records.iter().position(|entry| entry.is_none())
}

// Whether some record is of this side.
pub(crate) fn has_side(records: &[Option<Record>], at: Side) -> bool
    ensures { result ≡ list_any (of_port (side_number at)) records.now }
{
    records.iter().any(|entry| is_of(*entry, at))
}

// Where a record of this address goes: over the one that holds it, else into the first free place.
pub(crate) fn place_for(records: &[Option<Record>], address: Address) -> Option<usize>
    ensures place { result ≡ option_or (position_from (holds address) 0 records.now) (position_from is_free 0 records.now) }
    ensures within { IfSome result (λ i. i < length records.now) }
{
    place_of(records, address).or_else(|| free_place(records))
}

// Frees the places of both ring ports.
pub(crate) fn free_ring(records: &mut [Option<Record>])
    ensures { records.new ≡ map freed records.old }
{
    for entry in records.iter_mut() {
        *entry = without_ring(*entry);
    }
}
