//! One of a deal's transactions, by its name.

ghost use Rattle.std.specs.Prelude.{◌≡◌, option_map, IfOk};
ghost use Rattle.spec_tool.specs.Keyed.Listed.{same_which};
ghost use Rattle.spec_deal.specs.Answers as answers;
ghost use Rattle.spec_tool.specs.Replies.{printed};
ghost use Rattle.bitml_deal.specs.Named as spec;

use bm_keys::put_path;
use bm_text::put;
use spec_data::OutOfMemory;
use spec_deal::Transaction;
use spec_tool::{Reply, Which};
use std::alloc::Global;

fn same_which(which: &Which, other: &Which) -> bool
    ensures { result ≡ same_which which.now other.now }
{
    match (which, other) {
        (Which::Init, Which::Init) => true,
        (Which::At(path), Which::At(other)) => *path == *other,
        _ => false,
    }
}

fn is_named(transaction: &Transaction, which: &Which) -> bool
    ensures { result ≡ spec.is_named which.now transaction.now }
{
    same_which(&transaction.which, which)
}

/// The transaction of this name.
pub(crate) fn named<'a>(transactions: &'a [Transaction], which: &Which) -> Option<&'a Transaction>
    ensures { option_map (λ t. t.now) result ≡ spec.named which.now transactions.now }
{
    for transaction in transactions {
        if is_named(transaction, which) {
            return Some(transaction);
        }
    }
    None
}

/// The contract has no path of this name.
#[tactic(auto, using(std::proofs::Common::append_assoc))]
pub(crate) fn no_path(alloc: Global, which: &Which) -> Result<Reply, OutOfMemory>
    ensures { IfOk result (λ reply. printed reply ≡ answers.no_path which.now) }
{
    let mut text = Vec::new(alloc);
    put(&mut text, b"refused path ")?;
    match which {
        Which::Init => put(&mut text, b"init")?,
        Which::At(path) => put_path(alloc, &mut text, path.steps())?,
    }
    put(&mut text, b"\n")?;
    Ok(Reply::new(16, text))
}
