// The set-up of a row, and the law of whatever comes of it.
ghost use Rattle.std.specs.Prelude.{◌≡◌, ℕ, ◌<◌, true, not, length, OnOk, slice_set};
ghost use Rattle.frame.specs.Highest.{first_with};
ghost use Rattle.node.specs.Rules.{settings_ok};
ghost use Rattle.ring.specs.Calls.{Keeps};
ghost use Rattle.ring.specs.Faults.{told_ring};
ghost use Rattle.ring.specs.Row.{seat, seat_of, setting, view};
ghost use Rattle.ring.specs.Runs.{Law};
ghost use Rattle.ring.specs.SetUp.{SetsUp, fresh};

use crate::faults::{RingFault, RingRefusal};
use crate::lawful::{are_lawful, count_fits};
use crate::opening::at_station;
use crate::resting::node_laws;
use crate::station::Station;
use fabric::Fabric;
use node::{Node, NodeFault, Settings, settings_ok};

// Refusal 13: the first station whose settings are out of range.
fn first_at_fault(settings: &[Settings]) -> Option<usize>
    ensures { result ≡ first_with (λ g. not (settings_ok g)) settings.now }
{
    settings.iter().position(|own| !settings_ok(*own))
}

fn start<F: Fabric>(station: &mut Station<F>, settings: Settings)
    requires { settings_ok settings ≡ true }
    ensures seen { seat_of F.Fabric.marks station.new ≡ fresh (seat_of F.Fabric.marks station.old) settings }
    ensures host { F.Fabric.kept station.new.fabric ≡ F.Fabric.kept station.old.fabric }
{
    let node = Node::set_up(settings, &mut station.fabric).unwrap();
    station.values = node.values;
}

// By index: of a slice that is written under `zip` of `iter_mut` a proof knows nothing (tried: with
// `for (station, own) in row.iter_mut().zip(settings)` no invariant of the loop can speak of the row).
fn start_all<F: Fabric>(row: &mut [Station<F>], settings: &[Settings])
    requires count { length settings.now ≡ length row.old }
    requires range { (k : ℕ) → k < length row.old → settings_ok (setting settings.now k) ≡ true }
    ensures seen { (k : ℕ) → k < length row.old → seat (view F.Fabric.marks row.new) k ≡ fresh (seat (view F.Fabric.marks row.old) k) (setting settings.now k) }
    ensures host { Keeps F.Fabric.kept row.old row.new }
{
    for (k, station) in row.iter_mut().enumerate() {
        start(station, settings[k]);
    }
}

// Sets every station up anew, or none. Whatever calls the row then receives, the law of runs holds.
pub fn set_up<F: Fabric + Copy>(
    row: &mut [Station<F>],
    settings: &[Settings],
) -> Result<(), RingRefusal>
    ensures does { SetsUp F.Fabric.marks F.Fabric.kept settings.now row.old (told_ring result) row.new }
    ensures law { OnOk result (Law F.Fabric.marks row.new) }
{
    node_laws();
    if !count_fits(row.len()) || settings.len() != row.len() {
        return Err(RingFault::Count.into());
    }
    if let Some(station) = first_at_fault(settings) {
        return Err(at_station(station, None, NodeFault::Settings.into()));
    }
    if !are_lawful(settings) {
        return Err(RingFault::Unlawful.into());
    }
    start_all(row, settings);
    Ok(())
}
