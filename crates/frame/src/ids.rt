// Node IDs compare as numbers: so the rules have it, and so `==` and `<` are written here. (Both derived from the octets were
// tried: that an octet is below 256 is not known to a proof where an ID lies inside other values.)
ghost use Rattle.std.specs.Prelude.{◌≡◌, ◌==◌};
ghost use Rattle.std.proofs.Common.{rules};
ghost use Rattle.std.specs.Cmp.{partial_order_from_own_ties};
ghost use Rattle.std.specs.Cmp as Keys;
ghost use Rattle.std.specs.Cmp.Rules.{comparing};
ghost use Rattle.std.specs.Ordering.{as_partial_cmp, nat_cmp, on};
ghost use Rattle.frame.specs.Highest.{first_highest};
ghost use Rattle.frame.specs.Ids.{id_number};

use super::choice::{Ranked, highest};
use super::types::NodeId;
use std::cmp::Ordering;

// The octets as one number, the first highest.
impl From<NodeId> for u64 {
    ghost from_gives = { λ id n. n ≡ id_number id };

    #[tactic(auto, unfolding(crate::specs::Ids::id_number))]
    fn from(id: NodeId) -> u64 {
        let [a, b, c, d, e, f] = id.octets;
        u64::from_be_bytes([0, 0, a, b, c, d, e, f])
    }
}

impl PartialEq for NodeId {
    ghost eq = { λ a b. id_number a == id_number b };

    ghost laws = { Keys.partial_equiv_from_equiv (Prim.search (comparing, rules)) };

    fn eq(&self, other: &NodeId) -> bool {
        u64::from(*self) == u64::from(*other)
    }
}

impl Eq for NodeId {
    ghost laws = { Prim.search (comparing, rules) };
}

impl Ord for NodeId {
    ghost cmp = { on id_number nat_cmp };

    ghost total = { Prim.search (comparing, rules) };

    ghost matches_partial_cmp = { Prim.search (comparing, rules) };

    ghost matches_eq = { Prim.search (comparing, rules) };

    fn cmp(&self, other: &NodeId) -> Ordering {
        u64::from(*self).cmp(&u64::from(*other))
    }
}

impl PartialOrd for NodeId {
    ghost partial_cmp = { as_partial_cmp (on id_number nat_cmp) };

    ghost laws = { partial_order_from_own_ties (Prim.search (comparing, rules)) (Prim.search (comparing, rules)) };

    fn partial_cmp(&self, other: &NodeId) -> Option<Ordering> {
        Some(self.cmp(other))
    }
}

impl Ranked for NodeId {
    ghost rank = { id_number };

    // By the numbers: `<` goes through an ordering, and the choice asks this of each in turn.
    fn outranks(&self, other: &NodeId) -> bool {
        u64::from(*other) < u64::from(*self)
    }
}

// The place of the highest Node ID.
pub fn highest_id(ids: &[NodeId]) -> Option<usize>
    ensures { result ≡ first_highest id_number ids.now }
{
    highest(ids)
}
