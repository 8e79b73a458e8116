//! What `ready` replies: the warnings, and whether the initial transaction may be signed.

ghost use Rattle.std.specs.Prelude.{◌≡◌, ℕ, List, if◌then◌else◌, option_map, IfOk};
ghost use Rattle.spec_deal.specs.Answers as answers;
ghost use Rattle.spec_tool.specs.Replies.{printed};
ghost use Rattle.bitml_deal.specs.Later as later;
ghost use Rattle.bitml_deal.specs.Opens.{answered, IsMade, HashedAll};

use crate::opening::Compiled;
use crate::secrets::{Shown, strings_in};
use crate::signatures::{signatures_in, signatures_refused};
use bm_hash::{Hash32, Trail};
use deal_missing::{is_ready, ready_text};
use deal_secrets::Strings;
use deal_signatures::{Given, SignatureError};
use deal_warn::warn_text;
use spec_data::{Bytes, OutOfMemory};
use spec_tool::Reply;
use std::alloc::{AllocError, Global};

// The status by which scripts know whether the initial transaction may be signed.
fn status_of(is_ready: bool) -> u8
    ensures { result ≡ (if is_ready then 0 else 16) }
{
    if is_ready { 0 } else { 16 }
}

// What is replied to these signatures and strings.
fn ready_by(
    alloc: Global,
    compiled: &Compiled,
    given: &Given,
    strings: &Strings,
) -> Result<Reply, OutOfMemory>
    ensures { (hash : List ℕ → List ℕ) → IsMade hash compiled.now
        → IfOk result (λ reply. printed reply ≡ answered (λ keys s. answers.ready_answer hash keys s given.now strings.now) compiled.now) }
{
    let transactions = compiled.made.transactions.as_slice();
    let scripts = compiled.made.scripts.as_slice();
    let warnings = warn_text(alloc, &compiled.contract, transactions, scripts, strings)?;
    let text = ready_text(alloc, &warnings, transactions, given)?;
    let is_ready = is_ready(alloc, transactions, given)?;
    Ok(Reply::new(status_of(is_ready), text))
}

// What is replied to these signatures and a file of secrets, or none.
fn ready_by_file<H: Hash32 + Drop>(
    alloc: Global,
    trail: &mut Trail<H>,
    compiled: &Compiled,
    given: &Given,
    secrets: Option<&Option<Bytes>>,
) -> Result<Reply, OutOfMemory>
    requires made { IsMade (H.digest_of trail.old.hasher) compiled.now }
    requires hashed { HashedAll (H.digest_of trail.old.hasher) trail.old.messages compiled.now }
    ensures { let hash = H.digest_of trail.old.hasher in IfOk result (λ reply. printed reply
        ≡ answered (λ keys s. answers.with_secrets (λ strings. answers.ready_answer hash keys s given.now strings)
        (later.strings_in hash keys s (option_map (λ text. text.now) secrets.entry))) compiled.now) }
{
    match strings_in(alloc, trail, compiled, secrets)? {
        Shown::Refused(reply) => Ok(reply),
        Shown::Taken(strings) => ready_by(alloc, compiled, given, &strings),
    }
}

/// What `ready` replies to a file of signatures and, where the words name one, to a file of secrets.
pub(crate) fn ready_reply<H: Hash32 + Drop>(
    alloc: Global,
    trail: &mut Trail<H>,
    compiled: &Compiled,
    signatures: &Option<Bytes>,
    secrets: Option<&Option<Bytes>>,
) -> Result<Reply, OutOfMemory>
    requires made { IsMade (H.digest_of trail.old.hasher) compiled.now }
    requires hashed { HashedAll (H.digest_of trail.old.hasher) trail.old.messages compiled.now }
    ensures { let hash = H.digest_of trail.old.hasher in IfOk result (λ reply. printed reply
        ≡ answered (later.ready_later hash signatures.now (option_map (λ text. text.now) secrets.entry)) compiled.now) }
{
    match signatures_in(alloc, compiled.made.transactions.as_slice(), signatures) {
        Ok(given) => ready_by_file(alloc, trail, compiled, &given, secrets),
        Err(SignatureError::Refused(fault)) => signatures_refused(alloc, fault),
        Err(SignatureError::Memory) => Err(AllocError),
    }
}
