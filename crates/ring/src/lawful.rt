// Which settings are lawful together, and which rows hold nodes.
ghost use Rattle.std.specs.Prelude.{◌≡◌, ◌<◌, ◌≤◌, true, Bool, ◌&&◌, map, length, count_by};
ghost use Rattle.node.specs.Names.{is_owner};
ghost use Rattle.node.specs.Rules.{makes_node};
ghost use Rattle.ring.specs.Row.{all_below, all_nodes, count_fits, fits_at, joined_to, lawful, opposite, placed, same_settings, setting, stands, view};

use crate::distinct::are_distinct;
use crate::settled::Settled;
use crate::station::Station;
use fabric::Fabric;
use node::{Node, NodeValues, Port, Role, Settings};

// So many stations make a ring.
pub(crate) fn count_fits(stations: usize) -> bool
    ensures value { result ≡ count_fits stations }
    ensures few { result ≡ true → stations ≤ 255 }
{
    (2..=255).contains(&stations)
}

fn makes_node(values: NodeValues) -> bool
    ensures { result ≡ makes_node values }
{
    Node::from_values(values).is_some()
}

pub(crate) fn are_nodes<F: Fabric>(row: &[Station<F>]) -> bool
    ensures { result ≡ all_nodes (view F.Fabric.marks row.now) }
{
    row.iter().all(|station| makes_node(station.values))
}

fn stands(own: Settings, far: Settings) -> bool
    ensures { result ≡ stands own far own.role }
{
    match own.role {
        Role::Other | Role::Owner => true,
        Role::Neighbour => far.role == Role::Owner && own.rpl != far.rpl,
    }
}

// Channel and MEL alone: in all else settings differ from station to station, so no derived `==` says it.
fn same_settings(a: Settings, b: Settings) -> bool
    ensures { result ≡ same_settings a b }
{
    a.channel == b.channel && a.mel == b.mel
}

// Port 1 of each joins port 0 of the next, the last joins the first.
fn joined_to(n: usize, k: usize, port: Port) -> usize
    requires { k < n }
    ensures value { result ≡ joined_to n k port }
    ensures bound { result < n }
{
    match port {
        Port::Zero => if k == 0 { n - 1 } else { k - 1 },
        Port::One => if k + 1 == n { 0 } else { k + 1 },
    }
}

fn fits<S: Settled>(row: &[S], k: usize, own: Settings) -> bool
    requires { k < length row.now }
    ensures { result ≡ (same_settings own (setting (map S.Settled.settled row.now) 0) && placed (map S.Settled.settled row.now) k own) }
{
    let first = row[0].settings();
    let far = row[joined_to(row.len(), k, own.rpl)].settings();
    same_settings(own, first) && stands(own, far)
}

fn each_fits<S: Settled>(row: &[S]) -> bool
    ensures { result ≡ all_below (fits_at (map S.Settled.settled row.now)) (length row.now) }
{
    row.iter().enumerate().all(
        |(k, station)|
            requires { k < length row.now }
        { fits(row, k, station.settings()) },
    )
}

fn count_owners<S: Settled>(row: &[S]) -> usize
    ensures { result ≡ count_by (λ s. is_owner (S.Settled.settled s).role) row.now }
{
    row.iter()
        .filter(|station| station.settings().role == Role::Owner)
        .count()
}

// Equal ring ID, VID and MEL, distinct IDs, one owner, a neighbour only across its RPL.
pub(crate) fn are_lawful<S: Settled>(row: &[S]) -> bool
    requires { length row.now ≤ 255 }
    ensures { result ≡ lawful (map S.Settled.settled row.now) }
{
    are_distinct(row) && each_fits(row) && count_owners(row) == 1
}
