// The delivery of a frame: the station is asked, the ring judges refusals 17 and 18, then the message is taken.
ghost use Rattle.std.specs.Prelude.{◌≡◌, Bool, not, ◌&&◌, length, Some, ◌==◌};
ghost use Rattle.frame.specs.Ids.{id_number};
ghost use Rattle.node.specs.Names.{is_owner};
ghost use Rattle.ring.specs.Calls.{deliver, is_owners, is_rb, names_nobody, step_of, usurps};
ghost use Rattle.ring.specs.Faults.{told_cause};
ghost use Rattle.ring.specs.Row.{all_below, view};
ghost use Rattle.ring.specs.Steps.{Stepped, live_seat};

use crate::faults::RingFault;
use crate::station::{Live, Station};
use fabric::Fabric;
use frame::{Body, Message, NodeId, Request};
use node::Role;

fn has_id<F>(station: &Station<F>, node: NodeId) -> bool
    ensures { result ≡ (id_number station.now.values.settings.id == id_number node) }
{
    station.values.settings.id == node
}

// Refusal 17: no station has this ID.
fn names_nobody<F: Fabric>(row: &[Station<F>], node: NodeId) -> bool
    ensures { result ≡ names_nobody (view F.Fabric.marks row.now) node }
{
    row.iter().all(|station| !has_id(station, node))
}

// By a pattern: one field of one case, whatever the others are.
fn is_rb(body: Body) -> bool
    ensures { result ≡ is_rb body }
{
    matches!(
        body,
        Body::Signal {
            request: Request::RplBlocked,
            ..
        }
    )
}

fn is_owners<F>(station: &Station<F>, node: NodeId) -> bool
    ensures { result ≡ (id_number station.now.values.settings.id == id_number node && is_owner station.now.values.settings.role) }
{
    has_id(station, node) && station.values.settings.role == Role::Owner
}

// No station that has this ID is the owner.
fn is_no_owners<F: Fabric>(row: &[Station<F>], node: NodeId) -> bool
    ensures { result ≡ all_below (λ k. not (is_owners (view F.Fabric.marks row.now) node k)) (length (view F.Fabric.marks row.now)) }
{
    row.iter().all(|station| !is_owners(station, node))
}

// Refusal 18: NR,RB that names another than the owner.
fn usurps<F: Fabric>(row: &[Station<F>], message: Message) -> bool
    ensures { result ≡ usurps (view F.Fabric.marks row.now) message }
{
    is_rb(message.body) && is_no_owners(row, message.node)
}

// Refusals 8, 9, 1 to 6, 17 and 18 in this order, then the message is taken.
pub(crate) fn hear<F: Fabric>(
    row: &[Station<F>],
    at: &mut Live<F>,
    port: u8,
    octets: &[u8],
) -> Result<(), RingFault>
    ensures { Stepped F.Fabric.marks F.Fabric.kept (step_of (view F.Fabric.marks row.now) (live_seat F.Fabric.marks at.old) (deliver port octets.now)) (told_cause (Some port) result) at.old at.new }
{
    let message = at.node.question(&at.fabric, port, octets)?;
    if names_nobody(row, message.node) {
        return Err(RingFault::Unnamed);
    }
    if usurps(row, message) {
        return Err(RingFault::NotOwner);
    }
    at.node.take_message(&mut at.fabric, port, message)?;
    Ok(())
}
