//! Which transaction of a deal a confirmed one is.

ghost use Rattle.std.specs.Prelude.{◌≡◌, length, option_map, IfOk};
ghost use Rattle.spec_terms.specs.Term.{branches};
ghost use Rattle.spec_tool.specs.Keyed.Listed.{same_which as same};
ghost use Rattle.spec_deal.specs.declared.transaction.Transaction.{Transaction as Listed};
ghost use Rattle.spec_deal.specs.Finished as finished;
ghost use Rattle.spec_chain.specs.Following as spec;
ghost use Rattle.spec_chain.specs.Outputs as outputs;
ghost use Rattle.bm_syntax.specs.View.{contract};
ghost use Rattle.deal_follow.specs.Boards.{setting, IsBoard};

use crate::board::Board;
use crate::known::transaction_of;
use bm_match::{chosen_by, first_witness};
use bm_syntax::{Contract, choice_at, longer};
use bm_tx::encode_stripped;
use spec_bitcoin::Tx;
use spec_data::OutOfMemory;
use spec_deal::Transaction;
use spec_terms::{Path, PathStep};
use spec_tool::Which;
use std::alloc::{AllocError, Global};

/// The first transaction of the deal that has its bytes without witnesses.
pub(crate) fn own_transaction<'a>(
    alloc: Global,
    board: &Board<'a>,
    tx: &Tx,
) -> Result<Option<&'a Transaction>, OutOfMemory>
    requires { IsBoard board.now }
    ensures { IfOk result (λ o. option_map (λ t. t.now) o ≡ spec.own_transaction board.now.transactions.now tx.now) }
{
    let bytes = encode_stripped(alloc, tx)?;
    Ok(transaction_of(board.transactions, &board.known, &bytes))
}

// The position whose branch has this path.
fn position_of(alloc: Global, path: &Path) -> Result<Path, OutOfMemory>
    ensures { IfOk result (λ position. position ≡ outputs.position_of path.now) }
{
    let steps = path.steps();
    let prefix = &steps[..steps.len().saturating_sub(1)];
    Ok(Path::of(Vec::from_slice(alloc, prefix)?))
}

// How many branches a choice has; more than 32 bits can tell are taken for lack of memory.
#[tactic(auto, using(crate::proofs::ChoiceLemmas::choice_count))]
fn count_of(choice: &Contract) -> Result<u32, OutOfMemory>
    ensures { IfOk result (λ n. n ≡ length (branches (contract choice.now))) }
{
    let count = choice.branches.as_slice().len();
    if count > u32::MAX as usize {
        return Err(AllocError);
    }
    Ok(count as u32)
}

/// How many branches a position has.
pub(crate) fn choices_at(board: &Board, position: &Path) -> Result<u32, OutOfMemory>
    ensures { IfOk result (λ n. n ≡ finished.choices_at (setting board.now) position.now) }
{
    match choice_at(&board.checked.advert().root, position) {
        Some(choice) => count_of(choice),
        None => Ok(0),
    }
}

/// The branch that the first witness selects, at the position of a path.
pub(crate) fn selected(
    alloc: Global,
    board: &Board,
    tx: &Tx,
    path: &Path,
) -> Result<u32, OutOfMemory>
    ensures { IfOk result (λ i. i ≡ spec.selected (setting board.now) tx.now path.now) }
{
    let position = position_of(alloc, path)?;
    let count = choices_at(board, &position)?;
    Ok(chosen_by(count, first_witness(tx)))
}

// The path of the branch that the first witness selects, at the position of a path.
fn path_shown(alloc: Global, board: &Board, tx: &Tx, path: &Path) -> Result<Path, OutOfMemory>
    ensures { IfOk result (λ p. Which.At p ≡ spec.which_shown (setting board.now) tx.now (Which.At path.now)) }
{
    let position = position_of(alloc, path)?;
    let branch = selected(alloc, board, tx, path)?;
    longer(alloc, &position, PathStep::Branch(branch))
}

/// Two branches of a position may have one transaction: the witness says which it is.
pub(crate) fn which_shown(
    alloc: Global,
    board: &Board,
    tx: &Tx,
    which: &Which,
) -> Result<Which, OutOfMemory>
    ensures { IfOk result (λ w. w ≡ spec.which_shown (setting board.now) tx.now which.now) }
{
    match which {
        Which::Init => Ok(Which::Init),
        Which::At(path) => Ok(Which::At(path_shown(alloc, board, tx, path)?)),
    }
}

/// Which transaction of the deal it is, by the first that has its bytes.
pub(crate) fn which_of(
    alloc: Global,
    board: &Board,
    tx: &Tx,
    own: Option<&Transaction>,
) -> Result<Option<Which>, OutOfMemory>
    ensures { IfOk result (λ o. o ≡ option_map (λ (t : Listed). spec.which_shown (setting board.now) tx.now t.which)
        (option_map (λ t. t.now) own.entry)) }
{
    match own {
        Some(transaction) => Ok(Some(which_shown(alloc, board, tx, &transaction.which)?)),
        None => Ok(None),
    }
}

// ---- transactions by name

/// Whether two names are the same.
pub fn same_which(one: &Which, other: &Which) -> bool
    ensures { result ≡ same one.now other.now }
{
    match (one, other) {
        (Which::Init, Which::Init) => true,
        (Which::At(path), Which::At(other)) => *path == *other,
        _ => false,
    }
}

fn is_named(transaction: &Transaction, which: &Which) -> bool
    ensures { result ≡ same transaction.now.which which.now }
{
    same_which(&transaction.which, which)
}

/// The transaction of this name.
pub fn transaction_named<'a>(
    transactions: &'a [Transaction],
    which: &Which,
) -> Option<&'a Transaction>
    ensures { option_map (λ t. t.now) result ≡ outputs.transaction_named transactions.now which.now }
{
    for transaction in transactions {
        if is_named(transaction, which) {
            return Some(transaction);
        }
    }
    None
}
