//! What `endorse` replies.

ghost use Rattle.std.specs.Prelude.{◌≡◌, ◌++◌, ℕ, List, [], map, flat_map, true, IfOk, OnOk};
ghost use Rattle.std.specs.List.{list_all};
ghost use Rattle.spec_terms.specs.Advert.{Advert};
ghost use Rattle.spec_compiler.specs.Keyed.Instance.{Instance};
ghost use Rattle.spec_compiler.specs.Keyed.Keys.{Keys};
ghost use Rattle.spec_tool.specs.Commands.{prints};
ghost use Rattle.spec_tool.specs.Keyed.Listed.{Listed};
ghost use Rattle.spec_deal.specs.ReadyText as spec;
ghost use Rattle.spec_deal.specs.Transactions.{transaction as transaction_of, transactions as transactions_of};
ghost use Rattle.deal_compile.specs.Signable.{is_signable};
ghost use Rattle.spec_tool.specs.Replies.{printed};
ghost use Rattle.bitml_deal.specs.Endorsed.{endorsed_part};

use bm_text::put;
use deal_missing::is_endorsed_by;
use deal_plan::psbt_text;
use spec_data::OutOfMemory;
use spec_deal::Transaction;
use spec_tool::Reply;
use std::alloc::Global;

// A transaction for signers, if the party endorses it.
fn put_endorsed(
    alloc: Global,
    out: &mut Vec<u8>,
    transaction: &Transaction,
    party: &[u8],
) -> Result<(), OutOfMemory>
    requires { is_signable transaction.now ≡ true }
    ensures { (hash : List ℕ → List ℕ) (keys : Keys) (advert : Advert) (l : Listed) → transaction.now ≡ transaction_of hash keys advert l
        → OnOk result (out.new.items ≡ out.old.items ++ endorsed_part hash keys advert party.now l) }
{
    if !is_endorsed_by(alloc, transaction, party)? {
        return Ok(());
    }
    let line = psbt_text(alloc, transaction)?;
    put(out, &line)
}

// Those of these transactions that the party endorses, in order.
fn put_all_endorsed(
    alloc: Global,
    out: &mut Vec<u8>,
    transactions: &[Transaction],
    party: &[u8],
) -> Result<(), OutOfMemory>
    requires { list_all is_signable transactions.now ≡ true }
    ensures { (hash : List ℕ → List ℕ) (keys : Keys) (advert : Advert) (ls : List Listed)
        → transactions.now ≡ map (transaction_of hash keys advert) ls
        → OnOk result (out.new.items ≡ out.old.items ++ flat_map (endorsed_part hash keys advert party.now) ls) }
{
    for transaction in transactions {
        put_endorsed(alloc, out, transaction, party)?;
    }
    Ok(())
}

// The same, as a text.
fn endorsed(
    alloc: Global,
    transactions: &[Transaction],
    party: &[u8],
) -> Result<Vec<u8>, OutOfMemory>
    requires { list_all is_signable transactions.now ≡ true }
    ensures { (hash : List ℕ → List ℕ) (keys : Keys) (s : Instance) → transactions.now ≡ transactions_of hash keys s
        → IfOk result (λ text. text.items ≡ spec.endorse_text hash keys s party.now) }
{
    let mut out = Vec::new(alloc);
    put_all_endorsed(alloc, &mut out, transactions, party)?;
    Ok(out)
}

/// The transactions that a party endorses, for signers.
pub(crate) fn endorse_reply(
    alloc: Global,
    transactions: &[Transaction],
    party: &[u8],
) -> Result<Reply, OutOfMemory>
    requires { list_all is_signable transactions.now ≡ true }
    ensures { (hash : List ℕ → List ℕ) (keys : Keys) (s : Instance) → transactions.now ≡ transactions_of hash keys s
        → IfOk result (λ reply. printed reply ≡ prints 0 (spec.endorse_text hash keys s party.now)) }
{
    let text = endorsed(alloc, transactions, party)?;
    Ok(Reply::new(0, text))
}
