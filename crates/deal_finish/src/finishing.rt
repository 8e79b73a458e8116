//! A transaction with its witnesses.

ghost use Rattle.std.specs.Prelude.{◌≡◌, ℕ, List, Some, IfOk};
ghost use Rattle.spec_bitcoin.specs.Spelling.{spelling};
ghost use Rattle.spec_compiler.specs.Keyed.Instance.{Instance};
ghost use Rattle.spec_compiler.specs.Keyed.Keys.{Keys};
ghost use Rattle.spec_tool.specs.Keyed.Listed.{Listed, listed_at};
ghost use Rattle.spec_deal.specs.Finished.{finished, finish_refusal};
ghost use Rattle.spec_deal.specs.Transactions.{transaction as transaction_of, transactions as transactions_of};
ghost use Rattle.deal_finish.specs.Filled.{finished_by};
ghost use Rattle.deal_finish.specs.Finishes.{Finishes};

use crate::error::FinishError;
use crate::refusing::complete;
use crate::witnesses::witnesses_of;
use bm_tx::encode;
use bm_tx_filled::with_witnesses;
use bm_wellformed::Checked;
use deal_secrets::Strings;
use deal_signatures::Given;
use spec_bitcoin::Tx;
use spec_data::OutOfMemory;
use spec_deal::Transaction;
use std::alloc::Global;

// The transaction with its witnesses.
fn filled(
    alloc: Global,
    checked: &Checked,
    transaction: &Transaction,
    given: &Given,
    strings: &Strings,
) -> Result<Tx, OutOfMemory>
    ensures { IfOk result (λ tx. tx ≡ finished_by checked.now given.now strings.now transaction.now) }
{
    let witnesses = witnesses_of(alloc, checked, given, strings, transaction)?;
    with_witnesses(alloc, &transaction.tx, &witnesses)
}

// Its bytes.
fn spelled(
    alloc: Global,
    checked: &Checked,
    transaction: &Transaction,
    given: &Given,
    strings: &Strings,
) -> Result<Vec<u8>, OutOfMemory>
    ensures { (hash : List ℕ → List ℕ) (keys : Keys) (s : Instance) (l : Listed) → s.advert ≡ checked.now
        → transaction.now ≡ transaction_of hash keys s.advert l → listed_at hash keys s l.which ≡ Some l
        → IfOk result (λ bytes. bytes.items ≡ spelling (finished hash keys s given.now strings.now l)) }
{
    encode(alloc, &filled(alloc, checked, transaction, given, strings)?)
}

/// The bytes of a transaction of a deal for the network, with the witnesses that the given signatures and strings make, or the first
/// reason why it isn't finished. The signatures stand in it as they were given. Without a file of secrets there are no strings.
pub fn finish(
    alloc: Global,
    checked: &Checked,
    transactions: &[Transaction],
    transaction: &Transaction,
    given: &Given,
    strings: &Strings,
) -> Result<Vec<u8>, FinishError>
    ensures { (hash : List ℕ → List ℕ) (keys : Keys) (s : Instance) (l : Listed) → s.advert ≡ checked.now
        → transactions.now ≡ transactions_of hash keys s → transaction.now ≡ transaction_of hash keys s.advert l
        → listed_at hash keys s l.which ≡ Some l
        → Finishes (λ v. v.items) result (finish_refusal hash keys s given.now strings.now l) (spelling (finished hash keys s given.now strings.now l)) }
{
    complete(alloc, checked, transactions, transaction, given, strings)?;
    let bytes = spelled(alloc, checked, transaction, given, strings)?;
    Ok(bytes)
}
