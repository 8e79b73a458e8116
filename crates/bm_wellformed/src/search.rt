//! Where an advert shows a flaw first, in the order of the text.

ghost use Rattle.std.specs.Prelude.{◌≡◌, ◌≤◌, ◌<◌, ◌+◌, ◌*◌, ◌^◌, ◌++◌, ◌∷◌, [], length, All, IfOk};
ghost use Rattle.spec_terms.specs.Term.{branches as branches_of, parts_list};
ghost use Rattle.spec_terms.specs.Readable.{depth_of, depth_of_choice, depth_of_parts};
ghost use Rattle.bm_syntax.specs.View.{guarded, contract, choice_view, parts_view};
ghost use Rattle.bm_wellformed.specs.Search as spec;
ghost use Rattle.bm_wellformed.specs.Small.{value_in, IsSmall, AreSmall, AreSmallParts, IsBalance, IsSearchable};

use crate::entries::{after_put, root_balance};
use crate::flaw::{Flaw, branch_shows, position_shows};
use bm_syntax::{Advert, Contract, Guarded, Part, Path, PathStep, longer};
use spec_data::OutOfMemory;
use spec_terms::Place;
use std::alloc::Global;

/// Where the advert shows the flaw first.
pub fn find(alloc: Global, advert: &Advert, flaw: Flaw) -> Result<Option<Place>, OutOfMemory>
    requires { IsSearchable advert.now }
    ensures { IfOk result (λ place. place ≡ spec.found flaw advert.now) }
{
    let root = Path::of(Vec::new(alloc));
    in_choice(
        alloc,
        advert,
        flaw,
        &root,
        root_balance(advert),
        &advert.root,
    )
}

#[cycle(find)]
fn in_choice(
    alloc: Global,
    advert: &Advert,
    flaw: Flaw,
    position: &Path,
    balance: i128,
    choice: &Contract,
) -> Result<Option<Place>, OutOfMemory>
    requires values { All (λ e. value_in e ≤ 2 ^ 51) advert.now.pre }
    requires few { length (branches_of (contract choice.now)) ≤ 32 }
    requires small { AreSmall (contract choice.now) }
    requires low { length position.now + 2 * depth_of_choice (contract choice.now) ≤ 128 }
    requires bounded { IsBalance (length position.now + 1) balance }
    ensures { IfOk result (λ place. place ≡ spec.found_in_choice flaw advert.now position.now balance (contract choice.now)) }
{
    if position_shows(advert, flaw, balance, choice) {
        return Ok(Some(Place::Position(position.copy(alloc)?)));
    }
    in_branches(alloc, advert, flaw, position, balance, &choice.branches)
}

#[cycle(find)]
#[tactic(auto, using(crate::proofs::Smallness::length_branches))]
fn in_branches(
    alloc: Global,
    advert: &Advert,
    flaw: Flaw,
    position: &Path,
    balance: i128,
    branches: &[Guarded],
) -> Result<Option<Place>, OutOfMemory>
    requires values { All (λ e. value_in e ≤ 2 ^ 51) advert.now.pre }
    requires few { length (branches_of (choice_view branches.now)) ≤ 32 }
    requires small { AreSmall (choice_view branches.now) }
    requires low { length position.now + 2 * depth_of_choice (choice_view branches.now) ≤ 128 }
    requires bounded { IsBalance (length position.now + 1) balance }
    ensures { IfOk result (λ place. place ≡ spec.found_in_branches flaw advert.now position.now balance 0 (choice_view branches.now)) }
{
    let mut number: u32 = 0;
    for branch in branches {
        let path = longer(alloc, position, PathStep::Branch(number))?;
        if branch_shows(advert, flaw, balance, branch) {
            return Ok(Some(Place::Branch(path)));
        }
        if let Some(place) = under(alloc, advert, flaw, &path, balance, branch)? {
            return Ok(Some(place));
        }
        number += 1;
    }
    Ok(None)
}

#[cycle(find)]
fn under(
    alloc: Global,
    advert: &Advert,
    flaw: Flaw,
    path: &Path,
    balance: i128,
    branch: &Guarded,
) -> Result<Option<Place>, OutOfMemory>
    requires values { All (λ e. value_in e ≤ 2 ^ 51) advert.now.pre }
    requires small { IsSmall (guarded branch.now) }
    requires low { length path.now + 2 * depth_of (guarded branch.now) ≤ 129 }
    requires bounded { IsBalance (length path.now) balance }
    ensures { IfOk result (λ place. place ≡ spec.found_under flaw advert.now path.now balance (guarded branch.now)) }
{
    match branch {
        Guarded::Auth { body, .. } => under(alloc, advert, flaw, path, balance, body),
        Guarded::After { body, .. } => under(alloc, advert, flaw, path, balance, body),
        Guarded::PutReveal { puts, next, .. } => in_choice(
            alloc,
            advert,
            flaw,
            path,
            after_put(advert, balance, puts),
            next,
        ),
        Guarded::Withdraw { .. } => Ok(None),
        Guarded::Split { parts } => in_parts(alloc, advert, flaw, path, parts),
    }
}

#[cycle(find)]
#[tactic(auto, using(crate::proofs::Smallness::length_parts))]
fn in_parts(
    alloc: Global,
    advert: &Advert,
    flaw: Flaw,
    path: &Path,
    parts: &[Part],
) -> Result<Option<Place>, OutOfMemory>
    requires values { All (λ e. value_in e ≤ 2 ^ 51) advert.now.pre }
    requires few { length (parts_list (parts_view parts.now)) ≤ 64 }
    requires small { AreSmallParts (parts_view parts.now) }
    requires low { length path.now + 2 * depth_of_parts (parts_view parts.now) ≤ 127 }
    ensures { IfOk result (λ place. place ≡ spec.found_in_parts flaw advert.now path.now 0 (parts_view parts.now)) }
{
    let mut number: u32 = 0;
    for part in parts {
        let position = longer(alloc, path, PathStep::Part(number))?;
        let value = i128::from(part.value);
        if let Some(place) = in_choice(alloc, advert, flaw, &position, value, &part.next)? {
            return Ok(Some(place));
        }
        number += 1;
    }
    Ok(None)
}
