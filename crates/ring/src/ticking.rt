// Many ticks at a station; the row is checked once.
ghost use Rattle.std.specs.Prelude.{◌≡◌};
ghost use Rattle.ring.specs.Calls.{Keeps, Ticks};
ghost use Rattle.ring.specs.Faults.{told_ring};

use crate::acting::act_in_checked;
use crate::faults::RingRefusal;
use crate::opening::check;
use crate::resting::node_laws;
use crate::station::{Live, Station};
use fabric::Fabric;

// So many ticks one after the other; the answer is the last one's. A tick that is refused leaves all as it is, so that every
// further one would be refused alike and need not be made.
pub fn ticks<F: Fabric + Copy>(
    row: &mut [Station<F>],
    station: usize,
    count: u32,
) -> Result<(), RingRefusal>
    ensures does { Ticks F.Fabric.marks station count row.old (told_ring result) row.new }
    ensures host { Keeps F.Fabric.kept row.old row.new }
{
    node_laws();
    if count == 0 {
        return Ok(());
    }
    check(row)?;
    let tick = |at: &mut Live<F>| at.node.tick(&mut at.fabric);
    for _ in 1..count {
        act_in_checked(row, station, None, tick)?;
    }
    act_in_checked(row, station, None, tick)
}
