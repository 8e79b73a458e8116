//! What a path leads to.

ghost use Rattle.std.specs.Prelude.{◌≡◌, [], ◌∷◌, ◌++◌, option_map, slice_get};
ghost use Rattle.std.specs.Option.{option_copied};
ghost use Rattle.spec_terms.specs.Term.{branches, parts_list};
ghost use Rattle.spec_terms.specs.Core.{continuation as continuation_of};
ghost use Rattle.spec_terms.specs.Paths as spec;
ghost use Rattle.bm_syntax.specs.View.{guarded, contract, part_view, parts_view};
ghost use Rattle.bm_syntax.specs.SubtermView.{subterm};

use crate::head::core;
use crate::term::{Contract, Guarded, Part};
use spec_terms::{Path, PathStep};

// A position or a branch.
#[derive(Clone, Copy)]
enum Standing<'a> {
    Position(&'a Contract),
    Branch(&'a Guarded),
}

/// The branch at this path, if there is one.
pub fn at<'a>(root: &'a Contract, path: &Path) -> Option<&'a Guarded>
    ensures { option_map (λ b. guarded b.now) result ≡ spec.at (contract root.now) path.now }
{
    as_branch(follow(root, path)?)
}

/// Branch i of the choice at this position, if there is one.
#[tactic(auto, using(spec_terms::proofs::PathLemmas::at_longer))]
pub fn branch_at<'a>(root: &'a Contract, position: &Path, i: u32) -> Option<&'a Guarded>
    ensures { option_map (λ b. guarded b.now) result ≡ spec.at (contract root.now) (position.now ++ PathStep.Branch i ∷ []) }
{
    as_branch(next(follow(root, position)?, PathStep::Branch(i))?)
}

/// The choice at this position, if there is one.
pub fn choice_at<'a>(root: &'a Contract, position: &Path) -> Option<&'a Contract>
    ensures { option_map (λ c. contract c.now) result ≡ spec.contract_under (contract root.now) position.now }
{
    as_choice(follow(root, position)?)
}

fn as_branch<'a>(place: Standing<'a>) -> Option<&'a Guarded>
    ensures { option_map (λ b. guarded b.now) result ≡ spec.as_branch (subterm place.entry) }
{
    match place {
        Standing::Position(_) => None,
        Standing::Branch(branch) => Some(branch),
    }
}

fn as_choice<'a>(place: Standing<'a>) -> Option<&'a Contract>
    ensures { option_map (λ c. contract c.now) result ≡ spec.as_contract (subterm place.entry) }
{
    match place {
        Standing::Position(choice) => Some(choice),
        Standing::Branch(branch) => continuation(core(branch)),
    }
}

fn continuation(branch: &Guarded) -> Option<&Contract>
    ensures { option_map (λ c. contract c.now) result ≡ continuation_of (guarded branch.now) }
{
    match branch {
        Guarded::PutReveal { next, .. } => Some(next),
        _ => None,
    }
}

fn follow<'a>(root: &'a Contract, path: &Path) -> Option<Standing<'a>>
    ensures { option_map subterm result ≡ spec.subterm_from (spec.position (contract root.now)) path.now }
{
    let mut place = Standing::Position(root);
    for step in path.steps() {
        place = next(place, *step)?;
    }
    Some(place)
}

fn next<'a>(place: Standing<'a>, step: PathStep) -> Option<Standing<'a>>
    ensures { option_map subterm result ≡ spec.next_subterm (subterm place.entry) step }
{
    match (place, step) {
        (Standing::Position(contract), PathStep::Branch(i)) => branch_of(contract, i).map(
            Standing::Branch,
        ),
        (Standing::Position(_), PathStep::Part(_)) => None,
        (Standing::Branch(branch), step) => below(core(branch), step),
    }
}

fn below<'a>(branch: &'a Guarded, step: PathStep) -> Option<Standing<'a>>
    ensures { option_map subterm result ≡ spec.below (guarded branch.now) step }
{
    match (branch, step) {
        (Guarded::PutReveal { next, .. }, PathStep::Branch(i)) => branch_of(next, i).map(
            Standing::Branch,
        ),
        (Guarded::Split { parts }, PathStep::Part(k)) => {
            let part = part_of(parts, k)?;
            Some(Standing::Position(&part.next))
        }
        _ => None,
    }
}

/// Branch i of a contract.
#[tactic(auto, using(crate::proofs::Views::seen_branch))]
pub fn branch_of(choice: &Contract, i: u32) -> Option<&Guarded>
    ensures { option_map (λ b. guarded b.now) result ≡ slice_get (branches (contract choice.now)) i }
{
    nth(&choice.branches, i)
}

fn nth(branches: &[Guarded], i: u32) -> Option<&Guarded>
    ensures { option_copied result ≡ slice_get branches.now i }
{
    branches.get(i as usize)
}

#[tactic(auto, using(crate::proofs::Views::seen_part))]
fn part_of(parts: &Vec<Part>, k: u32) -> Option<&Part>
    ensures { option_map (λ p. part_view p.now) result ≡ slice_get (parts_list (parts_view parts.now.items)) k }
{
    nth_part(parts, k)
}

fn nth_part(parts: &[Part], k: u32) -> Option<&Part>
    ensures { option_copied result ≡ slice_get parts.now k }
{
    parts.get(k as usize)
}
