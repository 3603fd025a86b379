// The calls of a ring at a station: the row is checked, and one station is read, asked, and written whole. Row, station and
// port stand side by side, since the row is the caller's own slice and a refusal tells station and port one by one; a port is a number as at the fabric.
ghost use Rattle.std.specs.Prelude.{◌≡◌};
ghost use Rattle.ring.specs.Calls.{Does, Done, call, clear, deliver, fail, force, frame as frame_into, repair, restart, ring_buffer, ring_status, status, switch, tick, unit_of};
ghost use Rattle.ring.specs.Faults.{told_ring};
ghost use Rattle.ring.specs.Row.{view};

use crate::acting::check_and_act;
use crate::delivery::hear;
use crate::faults::RingRefusal;
use crate::opening::{as_ring_answer, close, open};
use crate::station::Station;
use fabric::Fabric;
use node::Status;

// Forced switch (FS) at a station's port.
pub fn force<F: Fabric + Copy>(
    row: &mut [Station<F>],
    station: usize,
    port: u8,
) -> Result<(), RingRefusal>
    ensures { Done F.Fabric.marks F.Fabric.kept (call station (force port)) row.old (told_ring result) row.new }
{
    check_and_act(
        row,
        station,
        Some(port),
        |at| at.node.force(&mut at.fabric, port),
    )
}

// Manual switch (MS) at a station's port.
pub fn switch<F: Fabric + Copy>(
    row: &mut [Station<F>],
    station: usize,
    port: u8,
) -> Result<(), RingRefusal>
    ensures { Done F.Fabric.marks F.Fabric.kept (call station (switch port)) row.old (told_ring result) row.new }
{
    check_and_act(
        row,
        station,
        Some(port),
        |at| at.node.switch(&mut at.fabric, port),
    )
}

// A failure at a station's port.
pub fn fail<F: Fabric + Copy>(
    row: &mut [Station<F>],
    station: usize,
    port: u8,
) -> Result<(), RingRefusal>
    ensures { Done F.Fabric.marks F.Fabric.kept (call station (fail port)) row.old (told_ring result) row.new }
{
    check_and_act(
        row,
        station,
        Some(port),
        |at| at.node.fail(&mut at.fabric, port),
    )
}

// The repair of a station's port.
pub fn repair<F: Fabric + Copy>(
    row: &mut [Station<F>],
    station: usize,
    port: u8,
) -> Result<(), RingRefusal>
    ensures { Done F.Fabric.marks F.Fabric.kept (call station (repair port)) row.old (told_ring result) row.new }
{
    check_and_act(
        row,
        station,
        Some(port),
        |at| at.node.repair(&mut at.fabric, port),
    )
}

// Clear at a station.
pub fn clear<F: Fabric + Copy>(row: &mut [Station<F>], station: usize) -> Result<(), RingRefusal>
    ensures { Done F.Fabric.marks F.Fabric.kept (call station clear) row.old (told_ring result) row.new }
{
    check_and_act(row, station, None, |at| at.node.clear(&mut at.fabric))
}

// One tick at a station.
pub fn tick<F: Fabric + Copy>(row: &mut [Station<F>], station: usize) -> Result<(), RingRefusal>
    ensures { Done F.Fabric.marks F.Fabric.kept (call station tick) row.old (told_ring result) row.new }
{
    check_and_act(row, station, None, |at| at.node.tick(&mut at.fabric))
}

// Starts a station again.
pub fn restart<F: Fabric + Copy>(row: &mut [Station<F>], station: usize) -> Result<(), RingRefusal>
    ensures { Done F.Fabric.marks F.Fabric.kept (call station restart) row.old (told_ring result) row.new }
{
    check_and_act(row, station, None, |at| {
        at.node.restart(&mut at.fabric);
        Ok(())
    })
}

// Hands a frame to a station at a port.
pub fn deliver<F: Fabric + Copy>(
    row: &mut [Station<F>],
    station: usize,
    port: u8,
    octets: &[u8],
) -> Result<(), RingRefusal>
    ensures { Done F.Fabric.marks F.Fabric.kept (call station (deliver port octets.now)) row.old (told_ring result) row.new }
{
    let mut at = open(row, station)?;
    let answer = hear(row, &mut at, port, octets);
    close(row, station, Some(port), at, answer)
}

// The frame that is due at a station, into the buffer's first 55 octets.
pub fn take_frame<F: Fabric + Copy>(
    row: &mut [Station<F>],
    station: usize,
    buffer: &mut [u8],
) -> Result<(), RingRefusal>
    ensures done { Done F.Fabric.marks F.Fabric.kept (call station (frame_into buffer.old)) row.old (told_ring result) row.new }
    ensures left { buffer.new ≡ ring_buffer (view F.Fabric.marks row.old) station buffer.old }
{
    let mut at = open(row, station)?;
    let answer = at.node.take_frame(buffer);
    close(row, station, None, at, as_ring_answer(answer))
}

// What a station's node holds but the flush pairs; changes nothing.
pub fn status<F: Fabric + Copy>(row: &[Station<F>], station: usize) -> Result<Status, RingRefusal>
    ensures answer { told_ring result ≡ ring_status (view F.Fabric.marks row.now) station }
    ensures does { Does F.Fabric.marks (call station status) row.now (unit_of (told_ring result)) row.now }
{
    let at = open(row, station)?;
    Ok(at.node.status())
}
