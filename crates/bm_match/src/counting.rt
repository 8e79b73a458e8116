//! How many branches a position has, by the node of its choice.

ghost use Rattle.std.specs.Prelude.{◌≡◌, List, Some};
ghost use Rattle.spec_terms.specs.Term.{Contract as Term};
ghost use Rattle.spec_terms.specs.Paths.{contract_under};
ghost use Rattle.spec_terms.specs.declared.path.PathStep.{PathStep};
ghost use Rattle.spec_nodes.specs.Nodes.{nodes_of};
ghost use Rattle.spec_nodes.specs.Numbers.{choice_number_at};
ghost use Rattle.spec_run.specs.Ledger.{count_of};

use bm_arena::{Arena, Path};
use theory_nodes::choices_are_found;

/// How many branches the position has whose choice has this number.
#[tactic(auto, using(crate::proofs::FewBranches::counted))]
pub(crate) fn branches_of(arena: &Arena, number: u32) -> u32
    ensures { (root : Term) (position : List PathStep) → arena.now ≡ nodes_of root → choice_number_at arena.now position ≡ Some number
        → result ≡ count_of (contract_under root position) }
{
    choices_are_found();
    arena.listed_at(number)
}

/// How many branches a position has, none where there is no such position.
pub fn branches_at(arena: &Arena, position: &Path) -> u32
    ensures { (root : Term) → arena.now ≡ nodes_of root → result ≡ count_of (contract_under root position.now) }
{
    match arena.find_choice(position) {
        Some(number) => branches_of(arena, number),
        None => 0,
    }
}
