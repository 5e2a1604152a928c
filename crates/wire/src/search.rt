ghost use Rattle.std.specs.Prelude.{length};
ghost use Rattle.std.specs.Fn.{ComputesKey};
ghost use Rattle.std.specs.List.Sorted.{IsBinarySearchResult, IsSearchInRange};

use std::cmp::Ordering;

// As the standard library's `binary_search_by`, but it stops at the first item that compares equal.
pub fn search_by<T, F: FnMut(&T) -> Ordering>(items: &[T], mut compare: F) -> Result<usize, usize>
    requires { F.IsAlwaysCallable compare }
    ensures bound { IsSearchInRange result (length items.now) }
    ensures position { (ord : T → Ordering) → ComputesKey F.FnMut ord compare → IsBinarySearchResult ord items.now result }
{
    let mut low = 0;
    let mut high = items.len();
    while low < high {
        let middle = low + (high - low) / 2;
        match compare(&items[middle]) {
            Ordering::Equal => return Ok(middle),
            Ordering::Less => low = middle + 1,
            Ordering::Greater => high = middle,
        }
    }
    Err(low)
}
