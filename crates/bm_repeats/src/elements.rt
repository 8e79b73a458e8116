//! Whether two elements of a list are equal.

ghost use Rattle.std.specs.Prelude.{◌≡◌, IfOk};
ghost use Rattle.std.specs.List.{list_any};
ghost use Rattle.bm_repeats.specs.Repeats.{has_repeat};

use spec_data::OutOfMemory;
use std::alloc::Global;
use std::collections::BTreeSet;

// Up to so many elements are compared pair by pair, which takes no memory.
pub(crate) const FEW: usize = 16;

// One of the others is equal to the element.
fn is_repeated<T: Ord>(element: &T, others: &[T]) -> bool
    ensures { result ≡ list_any (λ other. T.eq other element.now) others.now }
{
    others.iter().any(|other| *other == *element)
}

// The same pair by pair.
fn repeats_pairwise<T: Ord>(elements: &[T]) -> bool
    ensures { result ≡ has_repeat T.eq elements.now }
{
    let mut rest = elements;
    while let Some((first, others)) = rest.split_first() {
        if is_repeated(first, others) {
            return true;
        }
        rest = others;
    }
    false
}

// The same by an ordered set of the elements so far.
fn repeats_by_order<T: Ord + Copy + Drop>(
    alloc: Global,
    elements: &[T],
) -> Result<bool, OutOfMemory>
    ensures { IfOk result (λ repeats. repeats ≡ has_repeat T.eq elements.now) }
{
    let mut seen = BTreeSet::new(alloc);
    let mut rest = elements;
    while let Some((first, others)) = rest.split_first() {
        if !seen.insert(*first)? {
            return Ok(true);
        }
        rest = others;
    }
    Ok(false)
}

/// Whether two elements are equal. Many are found in an ordered set, in n log n; where there is no memory for it, they are compared pair by
/// pair.
pub(crate) fn repeats<T: Ord + Copy + Drop>(alloc: Global, elements: &[T]) -> bool
    ensures { result ≡ has_repeat T.eq elements.now }
{
    if elements.len() <= FEW {
        return repeats_pairwise(elements);
    }
    match repeats_by_order(alloc, elements) {
        Ok(answer) => answer,
        Err(_) => repeats_pairwise(elements),
    }
}
