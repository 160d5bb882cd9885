//! Groups items by rank. The rank of a row determines the position of its segment in the
//! application.
ghost use Rattle.std.specs.Prelude.{◌≡◌, ℕ, All, IfOk, map};
ghost use Rattle.store_data.specs.Ranks.{IsRank, by_rank};

use crate::groups::join_at;
use std::alloc::{AllocError, Global};

/// An item with a rank.
pub(crate) trait Ranked {
    ghost rank: { Self → ℕ };

    /// Returns the rank, 1 to 999.
    fn rank(&self) -> u16
        ensures { result ≡ rank self.now };
}

/// Groups `items` by rank, in the order of rising rank. The items of a group keep their order.
/// Takes as long as sorting the items.
pub(crate) fn by_rank<T: Ranked + Drop>(
    alloc: Global,
    items: Vec<T>,
) -> Result<Vec<Vec<T>>, AllocError>
    requires { All (λ x. IsRank (T.rank x)) items.items }
    ensures { IfOk result
        (λ groups. map (λ g. g.items) groups.items ≡ by_rank T.rank items.items) }
{
    let mut sorted = items;
    sorted.sort_by_key(|item| item.rank())?;
    let mut groups: Vec<Vec<T>> = Vec::new(alloc);
    let mut last = 0;
    for item in sorted {
        let rank = item.rank();
        let place = if rank == last {
            groups.len() - 1
        } else {
            groups.len()
        };
        join_at(alloc, &mut groups, place, item)?;
        last = rank;
    }
    Ok(groups)
}
