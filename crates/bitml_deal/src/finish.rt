//! What `finish` replies.

ghost use Rattle.std.specs.Prelude.{◌≡◌, ◌++◌, ℕ, List, option_map, IfOk};
ghost use Rattle.spec_data.specs.Digits.{hex_text};
ghost use Rattle.spec_text.specs.RunText.{newline};
ghost use Rattle.spec_tool.specs.Commands.{prints};
ghost use Rattle.spec_tool.specs.Keyed.Listed.{Listed};
ghost use Rattle.spec_deal.specs.Answers as answers;
ghost use Rattle.spec_deal.specs.RefusedText.{finish_refused_line};
ghost use Rattle.spec_tool.specs.Replies.{printed};
ghost use Rattle.bitml_deal.specs.Later as later;
ghost use Rattle.bitml_deal.specs.Later.{IsUnfinished};
ghost use Rattle.bitml_deal.specs.Named.{IsOne};
ghost use Rattle.bitml_deal.specs.Opens.{answered, IsMade, HashedAll};

use crate::naming::{named, no_path};
use crate::opening::Compiled;
use crate::secrets::{Shown, strings_in};
use crate::signatures::{signatures_in, signatures_refused};
use bm_hash::{Hash32, Trail};
use bm_text::{put, put_hex};
use deal_finish::{FinishError, finish, put_finish_refused};
use deal_secrets::Strings;
use deal_signatures::{Given, SignatureError};
use spec_data::{Bytes, OutOfMemory};
use spec_deal::{FinishRefusal, Transaction};
use spec_tool::{Reply, Which};
use std::alloc::{AllocError, Global};

// The transaction can't be finished.
fn finish_refused(alloc: Global, refusal: &FinishRefusal) -> Result<Reply, OutOfMemory>
    ensures { IfOk result (λ reply. printed reply ≡ prints 16 (finish_refused_line refusal.now)) }
{
    let mut text = Vec::new(alloc);
    put_finish_refused(alloc, &mut text, refusal)?;
    Ok(Reply::new(16, text))
}

// What is replied where it isn't.
fn not_finished(alloc: Global, error: &FinishError) -> Result<Reply, OutOfMemory>
    ensures { IfOk result (λ reply. IsUnfinished error.now (printed reply)) }
{
    match error {
        FinishError::Refused(refusal) => finish_refused(alloc, refusal),
        FinishError::Memory => Err(AllocError),
    }
}

// The transaction, in hexadecimal.
fn finished(alloc: Global, bytes: &[u8]) -> Result<Reply, OutOfMemory>
    ensures { IfOk result (λ reply. printed reply ≡ prints 0 (hex_text bytes.now ++ newline)) }
{
    let mut text = Vec::new(alloc);
    put_hex(alloc, &mut text, bytes)?;
    put(&mut text, b"\n")?;
    Ok(Reply::new(0, text))
}

// What is replied to these signatures and strings.
fn finish_by(
    alloc: Global,
    compiled: &Compiled,
    transaction: &Transaction,
    given: &Given,
    strings: &Strings,
) -> Result<Reply, OutOfMemory>
    ensures { (hash : List ℕ → List ℕ) (l : Listed) → IsMade hash compiled.now → IsOne hash compiled.now transaction.now l
        → IfOk result (λ reply. printed reply
        ≡ answered (λ keys s. answers.finished_answer hash keys s l given.now strings.now) compiled.now) }
{
    match finish(
        alloc,
        &compiled.contract,
        compiled.made.transactions.as_slice(),
        transaction,
        given,
        strings,
    ) {
        Ok(bytes) => finished(alloc, &bytes),
        Err(error) => not_finished(alloc, &error),
    }
}

// What is replied to these signatures and a file of secrets, or none.
fn finish_by_file<H: Hash32 + Drop>(
    alloc: Global,
    trail: &mut Trail<H>,
    compiled: &Compiled,
    transaction: &Transaction,
    given: &Given,
    secrets: Option<&Option<Bytes>>,
) -> Result<Reply, OutOfMemory>
    requires made { IsMade (H.digest_of trail.old.hasher) compiled.now }
    requires hashed { HashedAll (H.digest_of trail.old.hasher) trail.old.messages compiled.now }
    ensures { let hash = H.digest_of trail.old.hasher in (l : Listed) → IsOne hash compiled.now transaction.now l
        → IfOk result (λ reply. printed reply ≡ answered (λ keys s. answers.with_secrets
        (λ strings. answers.finished_answer hash keys s l given.now strings)
        (later.strings_in hash keys s (option_map (λ text. text.now) secrets.entry))) compiled.now) }
{
    match strings_in(alloc, trail, compiled, secrets)? {
        Shown::Refused(reply) => Ok(reply),
        Shown::Taken(strings) => finish_by(alloc, compiled, transaction, given, &strings),
    }
}

// What is replied of this transaction to a file of signatures and one of secrets, or none.
fn finish_one<H: Hash32 + Drop>(
    alloc: Global,
    trail: &mut Trail<H>,
    compiled: &Compiled,
    transaction: &Transaction,
    signatures: &Option<Bytes>,
    secrets: Option<&Option<Bytes>>,
) -> Result<Reply, OutOfMemory>
    requires made { IsMade (H.digest_of trail.old.hasher) compiled.now }
    requires hashed { HashedAll (H.digest_of trail.old.hasher) trail.old.messages compiled.now }
    ensures { let hash = H.digest_of trail.old.hasher in (l : Listed) → IsOne hash compiled.now transaction.now l
        → IfOk result (λ reply. printed reply
        ≡ answered (λ keys s. later.finish_answer hash signatures.now (option_map (λ text. text.now) secrets.entry) keys s l) compiled.now) }
{
    match signatures_in(alloc, compiled.made.transactions.as_slice(), signatures) {
        Ok(given) => finish_by_file(alloc, trail, compiled, transaction, &given, secrets),
        Err(SignatureError::Refused(fault)) => signatures_refused(alloc, fault),
        Err(SignatureError::Memory) => Err(AllocError),
    }
}

/// What `finish` replies to a file of signatures and, where the words name one, to a file of secrets.
pub(crate) fn finish_reply<H: Hash32 + Drop>(
    alloc: Global,
    trail: &mut Trail<H>,
    compiled: &Compiled,
    which: &Which,
    signatures: &Option<Bytes>,
    secrets: Option<&Option<Bytes>>,
) -> Result<Reply, OutOfMemory>
    requires made { IsMade (H.digest_of trail.old.hasher) compiled.now }
    requires hashed { HashedAll (H.digest_of trail.old.hasher) trail.old.messages compiled.now }
    ensures { let hash = H.digest_of trail.old.hasher in IfOk result (λ reply. printed reply
        ≡ answered (answers.of_transaction hash which.now
        (later.finish_answer hash signatures.now (option_map (λ text. text.now) secrets.entry))) compiled.now) }
{
    match named(compiled.made.transactions.as_slice(), which) {
        None => no_path(alloc, which),
        Some(transaction) => finish_one(alloc, trail, compiled, transaction, signatures, secrets),
    }
}
