//! Numbers that stand in a list twice.

ghost use Rattle.std.specs.Prelude.{◌≡◌, ◌==◌, ℕ, false, slice_index_or, IfSome};
ghost use Rattle.spec_data.specs.Lists as lists;
ghost use Rattle.bm_repeats.specs.Repeats.{has_repeat};

use crate::elements::{FEW, repeats};
use std::alloc::Global;

// Numbers are marked in a row where that is at most so many times as long as their list.
const SPREAD: usize = 64;

// The highest of the numbers, 0 where there is none.
fn highest(numbers: &[u32]) -> u32 {
    let mut most = 0;
    for number in numbers {
        most = most.max(*number);
    }
    most
}

// Whether two numbers are equal, by a mark for each number so far. It isn't told where one lies beyond the marks.
fn repeats_by_marks(marks: &mut [bool], numbers: &[u32]) -> Option<bool>
    requires { (n : ℕ) → slice_index_or marks.old n false ≡ false }
    ensures { IfSome result (λ repeats. repeats ≡ has_repeat (λ a b. a == b) numbers.now) }
{
    let mut rest = numbers;
    while let Some((first, others)) = rest.split_first() {
        let place = *first as usize;
        if place >= marks.len() {
            return None;
        }
        if marks[place] {
            return Some(true);
        }
        marks[place] = true;
        rest = others;
    }
    Some(false)
}

// The same with marks for these numbers, where there aren't too many of them and there is memory for them.
fn repeats_marked(alloc: Global, numbers: &[u32]) -> Option<bool>
    ensures { IfSome result (λ repeats. repeats ≡ has_repeat (λ a b. a == b) numbers.now) }
{
    let most = highest(numbers) as usize;
    if most / SPREAD >= numbers.len() {
        return None;
    }
    match vec![in alloc; false; most + 1] {
        Ok(marks) => {
            let mut marks = marks;
            repeats_by_marks(&mut marks, numbers)
        }
        Err(_) => None,
    }
}

/// Whether all numbers differ. Many are marked in a row, or found in an ordered set where they lie far apart.
pub fn are_distinct(alloc: Global, numbers: &[u32]) -> bool
    ensures { result ≡ lists.are_distinct numbers.now }
{
    if numbers.len() > FEW {
        if let Some(repeats) = repeats_marked(alloc, numbers) {
            return !repeats;
        }
    }
    !repeats(alloc, numbers)
}
