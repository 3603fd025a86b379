// Where a call enters a row and leaves it.
ghost use Rattle.std.specs.Prelude.{◌≡◌, ℕ, ◌<◌, length, is_ok, if◌then◌else◌, Some, None, Option, slice_set};
ghost use Rattle.std.specs.Result as Results;
ghost use Rattle.frame.specs.Refusals.{refused};
ghost use Rattle.node.specs.Faults.{told_at};
ghost use Rattle.ring.specs.Calls.{gate, row_gate};
ghost use Rattle.ring.specs.Faults.{cause_at, placed_at, ring_refusal, told_cause, told_ring, with_station};
ghost use Rattle.ring.specs.Row.{view};
ghost use Rattle.ring.specs.Steps.{Opened, written};

use crate::faults::{RingFault, RingRefusal};
use crate::lawful::{are_lawful, are_nodes, count_fits};
use crate::station::{Live, Station};
use fabric::Fabric;
use node::{Node, NodeFault};

// Refusals 14 and 15.
pub(crate) fn check<F: Fabric>(row: &[Station<F>]) -> Result<(), RingFault>
    ensures { Results.MatchResult result (λ _. row_gate (view F.Fabric.marks row.now) ≡ None) (λ e. row_gate (view F.Fabric.marks row.now) ≡ Some e) }
{
    if !count_fits(row.len()) {
        return Err(RingFault::Count);
    }
    if !are_nodes(row) || !are_lawful(row) {
        return Err(RingFault::Unlawful);
    }
    Ok(())
}

// Refusal 16: a station, in a row that was checked.
pub(crate) fn enter<F: Fabric + Copy>(
    row: &[Station<F>],
    station: usize,
) -> Result<Live<F>, RingFault>
    requires { row_gate (view F.Fabric.marks row.now) ≡ None }
    ensures { Results.MatchResult result (Opened F.Fabric.marks row.now station) (λ e. gate (view F.Fabric.marks row.now) station ≡ Some e) }
{
    let at = row.get(station).ok_or(RingFault::NoStation)?;
    let node = Node::from_values(at.values).unwrap();
    Ok(Live {
        node,
        fabric: at.fabric,
    })
}

// Refusals 14, 15 and 16: a station, where the row is lawful and has it.
pub(crate) fn open<F: Fabric + Copy>(
    row: &[Station<F>],
    station: usize,
) -> Result<Live<F>, RingFault>
    ensures { Results.MatchResult result (Opened F.Fabric.marks row.now station) (λ e. gate (view F.Fabric.marks row.now) station ≡ Some e) }
{
    check(row)?;
    enter(row, station)
}

// A node's answer as a ring's: its refusal is held whole.
pub(crate) fn as_ring_answer(answer: Result<(), NodeFault>) -> Result<(), RingFault>
    ensures { (p : Option ℕ) → told_cause p result ≡ told_at p answer }
{
    Ok(answer?)
}

pub(crate) fn at_station(station: usize, called: Option<u8>, cause: RingFault) -> RingRefusal
    ensures { ring_refusal result ≡ with_station station (cause_at called cause) }
{
    RingRefusal {
        station: Some(station),
        port: cause.port(called),
        cause,
    }
}

// Writes the station whole where the call was taken, and puts the station beside a refusal.
pub(crate) fn close<F: Copy>(
    row: &mut [Station<F>],
    station: usize,
    called: Option<u8>,
    after: Live<F>,
    answer: Result<(), RingFault>,
) -> Result<(), RingRefusal>
    requires { station < length row.old }
    ensures answer { told_ring result ≡ placed_at station (told_cause called answer) }
    ensures row { row.new ≡ (if is_ok answer then slice_set row.old station (written after) else row.old) }
{
    answer.map_err(|cause| at_station(station, called, cause))?;
    row[station] = Station {
        values: after.node.values,
        fabric: after.fabric,
    };
    Ok(())
}
