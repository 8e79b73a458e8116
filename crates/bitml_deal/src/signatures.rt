//! What `missing` and `held` reply: which signatures of a file are there, and which aren't.

ghost use Rattle.std.specs.Prelude.{◌≡◌, ℕ, List, IfOk};
ghost use Rattle.spec_compiler.specs.Keyed.Instance.{Instance};
ghost use Rattle.spec_compiler.specs.Keyed.Keys.{Keys};
ghost use Rattle.spec_tool.specs.Commands.{prints};
ghost use Rattle.spec_deal.specs.Answers as answers;
ghost use Rattle.spec_deal.specs.DealText as shown;
ghost use Rattle.spec_deal.specs.RefusedText.{signatures_refused_line};
ghost use Rattle.spec_deal.specs.Transactions.{transactions as transactions_of};
ghost use Rattle.spec_deal.specs.Verifier.{secp256k1};
ghost use Rattle.spec_tool.specs.Replies.{printed};
ghost use Rattle.deal_signatures.specs.Gives.{Gives};
ghost use Rattle.bitml_deal.specs.Later.{given_in};

use deal_missing::{held_text, missing_text};
use deal_signatures::{Given, SignatureError, put_signatures_refused, read_signatures};
use spec_data::{Bytes, OutOfMemory};
use spec_deal::{SignatureFault, Transaction};
use spec_tool::Reply;
use std::alloc::{AllocError, Global};

/// The signatures of a file, none of whose bytes are given where it is too long; or why it is refused.
pub(crate) fn signatures_in(
    alloc: Global,
    transactions: &[Transaction],
    text: &Option<Bytes>,
) -> Result<Given, SignatureError>
    ensures { Gives (λ given. given) result (given_in transactions.now text.now) }
{
    match text {
        None => Err(SignatureError::Refused(SignatureFault::Size)),
        Some(bytes) => read_signatures(alloc, transactions, bytes.as_slice()),
    }
}

/// The file of signatures is refused.
pub(crate) fn signatures_refused(alloc: Global, fault: SignatureFault) -> Result<Reply, OutOfMemory>
    ensures { IfOk result (λ reply. printed reply ≡ prints 14 (signatures_refused_line fault)) }
{
    let mut text = Vec::new(alloc);
    put_signatures_refused(alloc, &mut text, fault)?;
    Ok(Reply::new(14, text))
}

// The signatures that aren't there, and whether the initial transaction may be signed.
fn missing_given(
    alloc: Global,
    transactions: &[Transaction],
    given: &Given,
) -> Result<Reply, OutOfMemory>
    ensures { (hash : List ℕ → List ℕ) (keys : Keys) (s : Instance) → transactions.now ≡ transactions_of hash keys s
        → IfOk result (λ reply. printed reply ≡ prints 0 (shown.missing_text hash keys s given.now)) }
{
    Ok(Reply {
        status: 0,
        text: Bytes::of(missing_text(alloc, transactions, given)?),
    })
}

// The signatures that are there.
fn held_given(
    alloc: Global,
    transactions: &[Transaction],
    given: &Given,
) -> Result<Reply, OutOfMemory>
    ensures { (hash : List ℕ → List ℕ) (keys : Keys) (s : Instance) → transactions.now ≡ transactions_of hash keys s
        → IfOk result (λ reply. printed reply ≡ prints 0 (shown.held_text hash keys s given.now)) }
{
    Ok(Reply {
        status: 0,
        text: Bytes::of(held_text(alloc, transactions, given)?),
    })
}

/// What `missing` replies to a file of signatures.
pub(crate) fn missing_reply(
    alloc: Global,
    transactions: &[Transaction],
    text: &Option<Bytes>,
) -> Result<Reply, OutOfMemory>
    ensures { (hash : List ℕ → List ℕ) (keys : Keys) (s : Instance) → transactions.now ≡ transactions_of hash keys s
        → IfOk result (λ reply. printed reply
        ≡ answers.of_signatures secp256k1 hash (λ keys s given. prints 0 (shown.missing_text hash keys s given)) text.now keys s) }
{
    match signatures_in(alloc, transactions, text) {
        Ok(given) => missing_given(alloc, transactions, &given),
        Err(SignatureError::Refused(fault)) => signatures_refused(alloc, fault),
        Err(SignatureError::Memory) => Err(AllocError),
    }
}

/// What `held` replies to a file of signatures.
pub(crate) fn held_reply(
    alloc: Global,
    transactions: &[Transaction],
    text: &Option<Bytes>,
) -> Result<Reply, OutOfMemory>
    ensures { (hash : List ℕ → List ℕ) (keys : Keys) (s : Instance) → transactions.now ≡ transactions_of hash keys s
        → IfOk result (λ reply. printed reply
        ≡ answers.of_signatures secp256k1 hash (λ keys s given. prints 0 (shown.held_text hash keys s given)) text.now keys s) }
{
    match signatures_in(alloc, transactions, text) {
        Ok(given) => held_given(alloc, transactions, &given),
        Err(SignatureError::Refused(fault)) => signatures_refused(alloc, fault),
        Err(SignatureError::Memory) => Err(AllocError),
    }
}
