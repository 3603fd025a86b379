// A call at a station: it is read, the step is made, and it is written whole where the step was taken. Station and called
// port go side by side, since a call at no port has a station all the same.
ghost use Rattle.std.specs.Prelude.{◌≡◌, None};
ghost use Rattle.ring.specs.Calls.{Ask, Done, call, row_gate};
ghost use Rattle.ring.specs.Faults.{told_ring};
ghost use Rattle.ring.specs.Row.{view};
ghost use Rattle.ring.specs.Steps.{StepsAs};

use crate::faults::RingRefusal;
use crate::opening::{as_ring_answer, check, close, enter};
use crate::station::{Live, Station};
use fabric::Fabric;
use node::NodeFault;

// In a row that was checked.
pub(crate) fn act_in_checked<F: Fabric + Copy, S: FnOnce(&mut Live<F>) -> Result<(), NodeFault>>(
    row: &mut [Station<F>],
    station: usize,
    called: Option<u8>,
    step: S,
) -> Result<(), RingRefusal>
    requires can { S.IsAlwaysCallable step }
    requires checked { row_gate (view F.Fabric.marks row.old) ≡ None }
    ensures { (a : Ask) → StepsAs F.Fabric.marks F.Fabric.kept S.FnOnce step (view F.Fabric.marks row.old) called a → Done F.Fabric.marks F.Fabric.kept (call station a) row.old (told_ring result) row.new }
{
    let mut at = enter(row, station)?;
    let answer = step(&mut at);
    close(row, station, called, at, as_ring_answer(answer))
}

// In any row: it is checked first.
pub(crate) fn check_and_act<F: Fabric + Copy, S: FnOnce(&mut Live<F>) -> Result<(), NodeFault>>(
    row: &mut [Station<F>],
    station: usize,
    called: Option<u8>,
    step: S,
) -> Result<(), RingRefusal>
    requires { S.IsAlwaysCallable step }
    ensures { (a : Ask) → StepsAs F.Fabric.marks F.Fabric.kept S.FnOnce step (view F.Fabric.marks row.old) called a → Done F.Fabric.marks F.Fabric.kept (call station a) row.old (told_ring result) row.new }
{
    check(row)?;
    act_in_checked(row, station, called, step)
}
