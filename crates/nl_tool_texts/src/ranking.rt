//! Items by rank, the highest first, and those of one rank in their order.
ghost use Rattle.std.specs.Prelude.{◌≡◌, ℕ, take, IfOk};
ghost use Rattle.nl_tool_texts.specs.Falling.{falling};

use crate::text::AllocResult;
use std::alloc::Global;

// Up to this many items are put in their places as they are met; if more are wanted, all are sorted.
const FEW: usize = 64;

pub trait Ranking<T> {
    ghost rank: { Self → T → ℕ };

    fn rank(&self, item: &T) -> u128
        ensures { result ≡ rank self.now item.now };
}

pub fn highest<T: Copy, R: Ranking<T>>(
    alloc: Global,
    by: &R,
    most: usize,
    items: &[T],
) -> AllocResult<Vec<T>>
    ensures value { IfOk result (λ kept. kept.items ≡ take most (falling (R.rank by.now) items.now)) }
{
    if most > FEW {
        let mut sorted = Vec::from_slice(alloc, items)?;
        sorted.sort_by(|a, b| by.rank(b).cmp(&by.rank(a)))?;
        sorted.truncate(most);
        return Ok(sorted);
    }
    let mut kept = Vec::new(alloc);
    for item in items {
        // It comes after those that rank as high, and only the first `most` are kept.
        let rank = by.rank(item);
        let at = kept.partition_point(|other| by.rank(other) >= rank);
        if at < most {
            kept.insert(at, *item)?;
            kept.truncate(most);
        }
    }
    Ok(kept)
}
