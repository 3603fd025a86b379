// The choice of the highest: one text for every type that has a rank.
ghost use Rattle.std.specs.Prelude.{◌≡◌, ℕ, length, MatchOption, nat_lt};
ghost use Rattle.frame.specs.Highest.{HighestAt, first_highest, option_rank};

// An order given by a rank, and no `Ord`: a contract names the rank, and a station has no order of all its values.
pub trait Ranked {
    ghost rank: { Self → ℕ };

    // Whether this one stands higher.
    fn outranks(&self, other: &Self) -> bool
        ensures { result ≡ nat_lt (rank other.now) (rank self.now) };
}

// An empty place stands below all.
impl<T: Ranked> Ranked for Option<T> {
    ghost rank = { λ o. option_rank T.rank o };

    fn outranks(&self, other: &Option<T>) -> bool {
        match (self, other) {
            (Some(own), Some(far)) => own.outranks(far),
            (Some(_), None) => true,
            (None, _) => false,
        }
    }
}

// The place of the highest, among equals the first; none of an empty slice.
pub fn highest<T: Ranked>(items: &[T]) -> Option<usize>
    ensures value { result ≡ first_highest T.rank items.now }
    ensures law { MatchOption result (length items.now ≡ 0) (λ i. HighestAt T.rank items.now i) }
{
    if items.is_empty() {
        return None;
    }
    // The first stands as the best from the start, and is asked about nothing.
    let mut best = 0;
    for (i, item) in items[1..].iter().enumerate() {
        let is_higher = item.outranks(&items[best]);
        if is_higher {
            best = i + 1;
        }
    }
    Some(best)
}
