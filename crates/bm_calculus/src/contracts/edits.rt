//! What is found and changed in a list of active contracts by ascending numbers. Nothing here walks all of them.

ghost use Rattle.std.specs.Prelude.{◌≡◌, ◌≤◌, ◌<◌, ◌++◌, map, true, length, slice_get, IfOk, IfErr, OnOk, OnErr, None};
ghost use Rattle.std.specs.Prelude.{vec_len, vec_capacity};
ghost use Rattle.std.specs.List as lists;
ghost use Rattle.spec_calculus.specs.Branches as spec;
ghost use Rattle.spec_calculus.specs.InOrder.{are_ascending};

use spec_calculus::ActiveContract;
use spec_data::OutOfMemory;

/// The place of the active contract of this number.
pub fn place(active: &[ActiveContract], number: u32) -> Result<usize, usize>
    requires ascending { are_ascending (map (λ a. a.number) active.now) ≡ true }
    ensures found { IfOk result (λ i. slice_get active.now i ≡ spec.active_at active.now number) }
    ensures absent { IfErr result (λ _. spec.active_at active.now number ≡ None) }
    ensures within { IfOk result (λ i. i < length active.now) }
    ensures taken { IfOk result (λ i. lists.remove active.now i ≡ spec.others active.now number) }
    ensures kept { IfErr result (λ _. active.now ≡ spec.others active.now number) }
{
    active.binary_search_by_key(&number, |a| a.number)
}

/// Removes the active contract of this number, which takes no memory.
pub fn remove(active: &mut Vec<ActiveContract>, number: u32)
    requires ascending { are_ascending (map (λ a. a.number) active.old.items) ≡ true }
    ensures items { active.new.items ≡ spec.others active.old.items number }
    ensures len { vec_len active.new ≤ vec_len active.old }
    ensures capacity { vec_capacity active.new ≡ vec_capacity active.old }
{
    if let Ok(place) = place(active, number) {
        active.remove(place);
    }
}

/// Puts others in the place of the active contract of this number. The memory is taken before it goes.
pub fn replace(
    active: &mut Vec<ActiveContract>,
    number: u32,
    mut others: Vec<ActiveContract>,
) -> Result<(), OutOfMemory>
    requires ascending { are_ascending (map (λ a. a.number) active.old.items) ≡ true }
    ensures ok { OnOk result (active.new.items ≡ spec.others active.old.items number ++ others.items) }
    ensures err { OnErr result (active.new.items ≡ active.old.items) }
{
    active.reserve(others.len())?;
    remove(active, number);
    match active.append(&mut others) {
        Ok(()) => Ok(()),
        Err(_) => unreachable!(),
    }
}
