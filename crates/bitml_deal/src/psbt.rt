//! What `psbt` replies.

ghost use Rattle.std.specs.Prelude.{◌≡◌, ℕ, List, true, IfOk};
ghost use Rattle.std.specs.List.{list_all};
ghost use Rattle.spec_terms.specs.Advert.{Advert};
ghost use Rattle.spec_compiler.specs.Keyed.Instance.{Instance};
ghost use Rattle.spec_compiler.specs.Keyed.Keys.{Keys};
ghost use Rattle.spec_tool.specs.Commands.{prints};
ghost use Rattle.spec_tool.specs.Keyed.Listed.{Listed};
ghost use Rattle.spec_tool.specs.PsbtText.{psbt_line};
ghost use Rattle.spec_deal.specs.Answers as answers;
ghost use Rattle.spec_deal.specs.DealText as shown;
ghost use Rattle.spec_deal.specs.Transactions.{transaction as transaction_of, transactions as transactions_of};
ghost use Rattle.deal_compile.specs.Signable.{is_signable};
ghost use Rattle.spec_tool.specs.Replies.{printed};

use crate::naming::{named, no_path};
use deal_plan::{psbt_text, psbts_text};
use spec_data::OutOfMemory;
use spec_deal::Transaction;
use spec_tool::{Reply, Which};
use std::alloc::Global;

/// All transactions for signers.
pub(crate) fn psbts_reply(alloc: Global, transactions: &[Transaction]) -> Result<Reply, OutOfMemory>
    requires { list_all is_signable transactions.now ≡ true }
    ensures { (hash : List ℕ → List ℕ) (keys : Keys) (s : Instance) → transactions.now ≡ transactions_of hash keys s
        → IfOk result (λ reply. printed reply ≡ prints 0 (shown.psbts_text hash keys s)) }
{
    let text = psbts_text(alloc, transactions)?;
    Ok(Reply::new(0, text))
}

// A transaction for signers.
fn one_reply(alloc: Global, transaction: &Transaction) -> Result<Reply, OutOfMemory>
    requires { is_signable transaction.now ≡ true }
    ensures { (hash : List ℕ → List ℕ) (keys : Keys) (advert : Advert) (l : Listed) → transaction.now ≡ transaction_of hash keys advert l
        → IfOk result (λ reply. printed reply ≡ prints 0 (psbt_line (shown.unsigned_psbt hash keys advert l))) }
{
    let text = psbt_text(alloc, transaction)?;
    Ok(Reply::new(0, text))
}

/// The transaction of this name for signers.
pub(crate) fn psbt_reply(
    alloc: Global,
    transactions: &[Transaction],
    which: &Which,
) -> Result<Reply, OutOfMemory>
    requires { list_all is_signable transactions.now ≡ true }
    ensures { (hash : List ℕ → List ℕ) (keys : Keys) (s : Instance) → transactions.now ≡ transactions_of hash keys s
        → IfOk result (λ reply. printed reply
        ≡ answers.of_transaction hash which.now (λ keys s l. prints 0 (psbt_line (shown.unsigned_psbt hash keys s.advert l))) keys s) }
{
    match named(transactions, which) {
        None => no_path(alloc, which),
        Some(transaction) => one_reply(alloc, transaction),
    }
}
