//! The positions that outputs stand for, and the transactions of contracts.

ghost use Rattle.std.specs.Prelude.{◌≡◌, ◌++◌, ◌∷◌, [], option_map, IfOk, OnOk};
ghost use Rattle.spec_tool.specs.declared.which.Which.TheVariants.{Init, At};
ghost use Rattle.spec_page.specs.Moments as spec;

use bm_syntax::longer;
use spec_calculus::{ActiveContract, Step};
use spec_data::{Name, OutOfMemory};
use spec_terms::{Path, PathStep};
use spec_tool::Which;
use std::alloc::Global;
use std::marker::Model;

/// An output, and the contract and the position that it stands for.
pub struct Place {
    pub output: u32,
    pub contract: u32,
    pub position: Path,
}

impl Model for Place {
    ghost use Rattle.std.specs.Coded.{codes};
    ghost use Rattle.spec_page.specs.Moments.{Place as Plain};

    ghost Value = { Plain };

    ghost coded = { Prim.hlevel (codes) };

    ghost view = { λ p. record { output = p.output; contract = p.contract; position = p.position } };
}

impl Drop for Place {
    fn drop(self) {
        let Place {
            output: _,
            contract: _,
            position: _,
        } = self;
    }
}

/// A transaction of a contract.
pub struct Taking {
    pub contract: u32,
    pub which: Which,
}

impl Model for Taking {
    ghost use Rattle.std.specs.Coded.{codes};
    ghost use Rattle.spec_page.specs.Moments.{Move};

    ghost Value = { Move };

    ghost coded = { Prim.hlevel (codes) };

    ghost view = { λ t. record { contract = t.contract; which = t.which } };
}

impl Drop for Taking {
    fn drop(self) {
        let Taking {
            contract: _,
            which: _,
        } = self;
    }
}

/// A party agrees to a transaction.
pub struct Agreement {
    pub party: Name,
    pub taking: Taking,
}

impl Model for Agreement {
    ghost use Rattle.std.specs.Coded.{codes};
    ghost use Rattle.spec_page.specs.Moments.{Agreement as Plain};

    ghost Value = { Plain };

    ghost coded = { Prim.hlevel (codes) };

    ghost view = { λ a. record { party = a.party; move = a.taking } };
}

impl Drop for Agreement {
    fn drop(self) {
        let Agreement {
            party: _,
            taking: _,
        } = self;
    }
}

// ---- places

fn is_placed(places: &[Place], output: u32) -> bool
    ensures { result ≡ spec.is_placed places.now output }
{
    places.iter().any(|p| p.output == output)
}

/// The place of an output.
pub(crate) fn place_of(output: u32, places: &[Place]) -> Option<&Place>
    ensures { option_map (λ p. p.now) result ≡ spec.place_of output places.now }
{
    for place in places {
        if place.output == output {
            return Some(place);
        }
    }
    None
}

fn placed(alloc: Global, active: &ActiveContract) -> Result<Place, OutOfMemory>
    ensures { IfOk result (λ p. p ≡ spec.placed active.now) }
{
    let position = active.position.copy(alloc)?;
    Ok(Place {
        output: active.number,
        contract: active.contract,
        position,
    })
}

/// Adds the places of the active contracts that aren't among them.
pub(crate) fn add_active(
    alloc: Global,
    places: &mut Vec<Place>,
    active: &[ActiveContract],
) -> Result<(), OutOfMemory>
    ensures { OnOk result (places.new.items ≡ spec.with_active places.old.items active.now) }
{
    for contract in active {
        if !is_placed(places, contract.number) {
            let place = placed(alloc, contract)?;
            places.push(place)?;
        }
    }
    Ok(())
}

// ---- transactions

/// The initial transaction of a contract.
pub(crate) fn initial(contract: u32) -> Taking
    ensures { result ≡ spec.move contract Init }
{
    Taking {
        contract,
        which: Which::Init,
    }
}

/// That of the branch at a path.
pub(crate) fn at_path(alloc: Global, contract: u32, path: &Path) -> Result<Taking, OutOfMemory>
    ensures { IfOk result (λ t. t ≡ spec.move contract (At path.now)) }
{
    let path = path.copy(alloc)?;
    Ok(Taking {
        contract,
        which: Which::At(path),
    })
}

/// That of this branch of a position.
pub(crate) fn at_branch(
    alloc: Global,
    contract: u32,
    position: &Path,
    branch: u32,
) -> Result<Taking, OutOfMemory>
    ensures { IfOk result (λ t. t ≡ spec.move contract (At (position.now ++ PathStep.Branch branch ∷ []))) }
{
    let path = longer(alloc, position, PathStep::Branch(branch))?;
    Ok(Taking {
        contract,
        which: Which::At(path),
    })
}

// That of this branch of the position that an output stands for.
fn branch_taking(
    alloc: Global,
    places: &[Place],
    output: u32,
    branch: u32,
) -> Result<Option<Taking>, OutOfMemory>
    ensures { IfOk result (λ t. t ≡ spec.branch_move places.now output branch) }
{
    match place_of(output, places) {
        None => Ok(None),
        Some(place) => {
            let taking = at_branch(alloc, place.contract, &place.position, branch)?;
            Ok(Some(taking))
        }
    }
}

// The transaction that a step takes, if it takes one.
fn step_taking(alloc: Global, places: &[Place], step: &Step) -> Result<Option<Taking>, OutOfMemory>
    ensures { IfOk result (λ t. t ≡ spec.step_move places.now step.now) }
{
    match step {
        Step::Init { contract } => Ok(Some(initial(*contract))),
        Step::PutReveal { output, branch } => branch_taking(alloc, places, *output, *branch),
        Step::Withdraw { output, branch } => branch_taking(alloc, places, *output, *branch),
        Step::Split { output, branch } => branch_taking(alloc, places, *output, *branch),
        _ => Ok(None),
    }
}

/// Adds those that these steps take.
#[tactic(auto, using(std::proofs::Common::append_assoc))]
pub(crate) fn put_takings(
    alloc: Global,
    takings: &mut Vec<Taking>,
    places: &[Place],
    steps: &[Step],
) -> Result<(), OutOfMemory>
    ensures { OnOk result (takings.new.items ≡ takings.old.items ++ spec.moves_by places.now steps.now) }
{
    for step in steps {
        if let Some(taking) = step_taking(alloc, places, step)? {
            takings.push(taking)?;
        }
    }
    Ok(())
}

// ---- agreements

// The agreement of a party to this branch of the position that an output stands for.
fn branch_agreement(
    alloc: Global,
    places: &[Place],
    party: &Name,
    output: u32,
    branch: u32,
) -> Result<Option<Agreement>, OutOfMemory>
    ensures { IfOk result (λ a. a ≡ option_map (spec.agreement party.now) (spec.branch_move places.now output branch)) }
{
    match branch_taking(alloc, places, output, branch)? {
        None => Ok(None),
        Some(taking) => Ok(Some(Agreement {
            party: *party,
            taking,
        })),
    }
}

// The agreement that a step is, if it is one.
fn step_agreement(
    alloc: Global,
    places: &[Place],
    step: &Step,
) -> Result<Option<Agreement>, OutOfMemory>
    ensures { IfOk result (λ a. a ≡ spec.step_agreement places.now step.now) }
{
    match step {
        Step::AuthBranch {
            party,
            output,
            branch,
        } => branch_agreement(alloc, places, party, *output, *branch),
        _ => Ok(None),
    }
}

/// Adds those that these steps are.
#[tactic(auto, using(std::proofs::Common::append_assoc))]
pub(crate) fn put_agreements(
    alloc: Global,
    agreements: &mut Vec<Agreement>,
    places: &[Place],
    steps: &[Step],
) -> Result<(), OutOfMemory>
    ensures { OnOk result (agreements.new.items ≡ agreements.old.items ++ spec.agreements_by places.now steps.now) }
{
    for step in steps {
        if let Some(agreement) = step_agreement(alloc, places, step)? {
            agreements.push(agreement)?;
        }
    }
    Ok(())
}
