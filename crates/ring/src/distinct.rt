// Distinct IDs, by a sort of a copy; in an array for the most stations, since no heap is used.
ghost use Rattle.std.specs.Prelude.{◌≡◌, ℕ, ◌<◌, ◌≤◌, map, length, slice_index};
ghost use Rattle.frame.specs.Ids.{id_number};
ghost use Rattle.ring.specs.Row.{all_below, new_id, setting};

use crate::settled::Settled;

// The IDs as numbers, in the row's order. (By index: of a slice that is written under `zip` of `iter_mut` a proof knows
// nothing.)
fn copy_ids<S: Settled>(row: &[S], ids: &mut [u64])
    requires { length ids.old ≡ length row.now }
    ensures len { length ids.new ≡ length row.now }
    ensures items { (k : ℕ) → k < length row.now → slice_index ids.new k ≡ id_number (setting (map S.Settled.settled row.now) k).id }
{
    for (k, id) in ids.iter_mut().enumerate() {
        *id = u64::from(row[k].settings().id);
    }
}

// (The row's numbers alone are written: an array made by a closure asks for all 255 of them, at each call of a short row too.)
pub(crate) fn are_distinct<S: Settled>(row: &[S]) -> bool
    requires { length row.now ≤ 255 }
    ensures { result ≡ all_below (new_id (map S.Settled.settled row.now)) (length row.now) }
{
    let mut all = [0u64; 255];
    let ids = &mut all[..row.len()];
    copy_ids(row, ids);
    ids.sort_unstable();
    ids.is_sorted_by(|a, b| a < b)
}
