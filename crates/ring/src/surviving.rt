// The survivor question: the station with the highest ID among those that send NR.
ghost use Rattle.std.specs.Prelude.{◌≡◌};
ghost use Rattle.frame.specs.Highest.{option_rank};
ghost use Rattle.frame.specs.Ids.{id_number};
ghost use Rattle.frame.specs.Refusals.{gave};
ghost use Rattle.ring.specs.Faults.{told_ring};
ghost use Rattle.ring.specs.Row.{view};
ghost use Rattle.ring.specs.Survivor.{SurvivorLaw, nr_rank, ring_survivor, sends_nr, survivor_of, ring_values};

use crate::faults::RingRefusal;
use crate::opening::check;
use crate::station::Station;
use fabric::Fabric;
use frame::{NodeId, Ranked, Request, highest};
use node::NodeValues;

fn sends_nr(values: NodeValues) -> bool
    ensures { result ≡ sends_nr values }
{
    values.sending.request == Some(Request::NoRequest)
}

// The ID of a station that sends NR.
fn nr_id(values: NodeValues) -> Option<NodeId>
    ensures { option_rank id_number result ≡ nr_rank values }
{
    sends_nr(values).then_some(values.settings.id)
}

// Stations that send NR rank by their IDs, above all others.
impl<F> Ranked for Station<F> {
    ghost rank = { λ s. nr_rank s.values };

    fn outranks(&self, other: &Station<F>) -> bool {
        nr_id(self.values).outranks(&nr_id(other.values))
    }
}

// Of those that send NR the one that stands highest.
fn find_survivor<F: Fabric>(row: &[Station<F>]) -> Option<usize>
    ensures value { result ≡ survivor_of (ring_values (view F.Fabric.marks row.now)) }
    ensures law { SurvivorLaw (view F.Fabric.marks row.now) (gave result) }
{
    let station = highest(row)?;
    sends_nr(row[station].values).then_some(station)
}

// The number of the station with the highest Node ID among those that send NR, or none.
pub fn survivor<F: Fabric>(row: &[Station<F>]) -> Result<Option<usize>, RingRefusal>
    ensures answer { told_ring result ≡ ring_survivor (view F.Fabric.marks row.now) }
    ensures law { SurvivorLaw (view F.Fabric.marks row.now) (told_ring result) }
{
    check(row)?;
    Ok(find_survivor(row))
}
