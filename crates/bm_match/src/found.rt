//! What a transaction is to a contract.

ghost use Rattle.std.specs.Prelude.{◌≡◌, ◌<◌, ◌^◌, ℕ, List, Option, None, length, option_map};
ghost use Rattle.spec_terms.specs.Term.{Contract as Term};
ghost use Rattle.spec_terms.specs.declared.path.PathStep.{PathStep};
ghost use Rattle.spec_nodes.specs.Nodes.{nodes_of};
ghost use Rattle.spec_compiler.specs.Instance.{Instance};
ghost use Rattle.spec_run.specs.Setup.{Setup};
ghost use Rattle.spec_run.specs.World.{ContractPosition, World};
ghost use Rattle.spec_run.specs.Ledger as spec;
ghost use Rattle.bm_compile.specs.Numbered.{numbered};
ghost use Rattle.bm_match.specs.Matches as matches;

use crate::chosen::{chosen_by, first_witness};
use crate::counting::{branches_at, branches_of};
use crate::same::same_bare;
use bm_arena::{Arena, Path};
use bm_compile::Compiled;
use spec_bitcoin::Tx;

/// What a transaction is to the contracts that are compiled.
#[derive(Clone, Copy, Debug, PartialEq, Eq)]
pub enum Match {
    /// The initial transaction of the contract of this number.
    Init(u32),
    /// Another one that spends this live output of the contract, and the branch which its witness chooses.
    Branch {
        contract: u32,
        output: u32,
        branch: u32,
    },
    Move,
}

/// A live contract output: the number of its contract, its own, and that of the choice of its position among the
/// contract's nodes.
#[derive(Clone, Copy, Debug, PartialEq, Eq)]
pub struct Active {
    pub contract: u32,
    pub output: u32,
    pub node: u32,
}

/// Whether it is the initial transaction of what is compiled so, but for witnesses.
pub fn is_initial(compiled: &Compiled, tx: &Tx) -> bool
    ensures { result ≡ spec.same_bare tx.now compiled.now.init.tx }
{
    same_bare(tx, &compiled.init().tx)
}

// What it is, by whether it is the initial transaction, and by the output that it takes and the branch.
fn matched(contract: u32, initial: bool, taken: Option<(u32, u32)>) -> Match
    ensures { result ≡ matches.matched contract initial taken }
{
    match (initial, taken) {
        (true, _) => Match::Init(contract),
        (false, Some((output, branch))) => Match::Branch {
            contract,
            output,
            branch,
        },
        (false, None) => Match::Move,
    }
}

// The branch that the first input's witness chooses at a position.
fn chosen_at(arena: &Arena, position: &Path, tx: &Tx) -> u32
    ensures { (root : Term) → arena.now ≡ nodes_of root → result ≡ matches.chosen_at root position.now tx.now }
{
    chosen_by(branches_at(arena, position), first_witness(tx))
}

/// What a transaction is to the contract of this number that is compiled so. `active` is the live output of the contract that
/// its first input spends, by its number and its position. It is the initial transaction wherever it is the same as that but
/// for witnesses; then a branch, if there is an active output; and else a move.
pub fn find(contract: u32, compiled: &Compiled, active: Option<(u32, &Path)>, tx: &Tx) -> Match
    ensures { (hash : List ℕ → List ℕ) (s : Instance) → compiled.now ≡ numbered hash s
        → result ≡ matches.match_in contract hash s (option_map {U = ℕ × List PathStep} (λ a. (a.0, a.1.now)) active.entry) tx.now }
{
    let taken = match active {
        Some((output, position)) => Some((output, chosen_at(compiled.arena(), position, tx))),
        None => None,
    };
    matched(contract, is_initial(compiled, tx), taken)
}

// Whether it is the initial transaction of a contract, where that is compiled.
fn begins(compiled: &Option<Compiled>, tx: &Tx) -> bool
    ensures { result ≡ matches.begins tx.now compiled.now }
{
    match compiled {
        Some(compiled) => is_initial(compiled, tx),
        None => false,
    }
}

// The first of these whose initial transaction it is.
fn first_begun(compiled: &[Option<Compiled>], tx: &Tx) -> Option<u32>
    requires { length compiled.now < 2 ^ 32 }
    ensures { result ≡ matches.first_begun tx.now 0 compiled.now }
{
    for (k, compiled) in compiled.iter().enumerate() {
        if begins(compiled, tx) {
            return Some(k as u32);
        }
    }
    None
}

/// The first contract whose initial transaction it is, of these by number; a contract that isn't compiled has none.
#[tactic(auto, using(crate::proofs::WholeRun::begun_is))]
pub fn first_initial(compiled: &[Option<Compiled>], tx: &Tx) -> Option<u32>
    requires { length compiled.now < 2 ^ 32 }
    ensures listed { result ≡ matches.first_begun tx.now 0 compiled.now }
    ensures run { (s : Setup) (w : World) → compiled.now ≡ matches.all_compiled s w → result ≡ spec.initial_of s w tx.now }
{
    first_begun(compiled, tx)
}

// The nodes of the contract of this number, where it is compiled.
fn arena_at(compiled: &[Option<Compiled>], contract: u32) -> Option<&Arena>
    ensures { option_map (λ a. a.now) result ≡ matches.nodes_at compiled.now contract }
{
    match compiled.get(contract as usize) {
        Some(Some(compiled)) => Some(compiled.arena()),
        _ => None,
    }
}

// How many branches the position of a live contract output has.
fn count_held(compiled: &[Option<Compiled>], active: &Active) -> u32
    ensures { (s : Setup) (w : World) (held : ContractPosition) (number : ℕ) → compiled.now ≡ matches.all_compiled s w
        → matches.IsHeld s w held number active.now → result ≡ spec.branch_count s held }
{
    match arena_at(compiled, active.contract) {
        Some(arena) => branches_of(arena, active.node),
        None => 0,
    }
}

// What a transaction is that isn't an initial one.
fn taken(compiled: &[Option<Compiled>], active: Option<Active>, tx: &Tx) -> Match
    ensures { (s : Setup) (w : World) (held : Option ContractPosition) (spent : List ℕ) → compiled.now ≡ matches.all_compiled s w
        → matches.IsActive s w held (spec.first_number spent) active
        → result ≡ matches.seen_kind (spec.kind_by s tx.now spent None held) }
{
    match active {
        Some(active) => Match::Branch {
            contract: active.contract,
            output: active.output,
            branch: chosen_by(count_held(compiled, &active), first_witness(tx)),
        },
        None => Match::Move,
    }
}

/// What a transaction is to all contracts of a run, which are compiled so by number. `active` is the live contract output that
/// its first input spends.
pub fn find_among(compiled: &[Option<Compiled>], active: Option<Active>, tx: &Tx) -> Match
    requires { length compiled.now < 2 ^ 32 }
    ensures { (s : Setup) (w : World) (spent : List ℕ) → compiled.now ≡ matches.all_compiled s w
        → matches.IsActive s w (spec.first_position w spent) (spec.first_number spent) active
        → result ≡ matches.seen_kind (spec.kind_of s w tx.now spent) }
{
    match first_initial(compiled, tx) {
        Some(contract) => Match::Init(contract),
        None => taken(compiled, active, tx),
    }
}
