//! What `state` replies: where a deal stands after the transactions of a chain file.

ghost use Rattle.std.specs.Prelude.{◌≡◌, ℕ, List, None, true, option_map, IfOk};
ghost use Rattle.spec_tool.specs.Commands.{prints};
ghost use Rattle.spec_tool.specs.Replies.{printed};
ghost use Rattle.spec_chain.specs.Answers as answers;
ghost use Rattle.spec_chain.specs.RefusedText.{chain_refused_line};
ghost use Rattle.bm_hash.specs.Messages.{evidence_of};
ghost use Rattle.bitml_deal.specs.Opens.{answered, IsMade, HashedAll};
ghost use Rattle.deal_follow.specs.Seen.{course_in};
ghost use Rattle.bitml_deal.specs.Later as later;
ghost use Rattle.bitml_deal.specs.Later.{are_sized};

use crate::opening::{Compiled, collision_reply};
use crate::secrets::{Shown, strings_in};
use crate::signatures::{signatures_in, signatures_refused};
use bm_hash::{Hash32, Trail};
use deal_chain::{put_chain_refused, read_chain};
use deal_follow::{ChainError, Course, follow};
use deal_secrets::Strings;
use deal_signatures::{Given, SignatureError};
use deal_state::state_text;
use spec_chain::{ChainFault, Reading};
use spec_data::{Bytes, OutOfMemory, Seq};
use spec_tool::Reply;
use std::alloc::{AllocError, Global};
use theory_chain::known_fit;

// What a chain file says, none of whose bytes are given where it is too long.
fn reading_in(alloc: Global, text: &Option<Bytes>) -> Result<Reading, OutOfMemory>
    ensures { IfOk result (λ reading. reading ≡ answers.chain_in text.now) }
{
    match text {
        None => Ok(Reading {
            confirmed: Seq::new(alloc),
            tip: 0,
            fault: Some(ChainFault::Size),
        }),
        Some(bytes) => read_chain(alloc, bytes.as_slice()),
    }
}

// The chain file is refused.
fn chain_refused(alloc: Global, fault: ChainFault) -> Result<Reply, OutOfMemory>
    ensures { IfOk result (λ reply. printed reply ≡ prints 17 (chain_refused_line fault)) }
{
    let mut text = Vec::new(alloc);
    put_chain_refused(alloc, &mut text, fault)?;
    Ok(Reply::new(17, text))
}

// Where the deal stands, by these signatures and strings.
fn stood(
    alloc: Global,
    compiled: &Compiled,
    course: &Course,
    tip: u32,
    given: &Given,
    strings: &Strings,
) -> Result<Reply, OutOfMemory>
    requires { are_sized course.now ≡ true }
    ensures { (hash : List ℕ → List ℕ) (messages : List (List ℕ)) → IsMade hash compiled.now
        → IfOk result (λ reply. printed reply ≡ answered (λ keys s. answers.stood_answer hash keys s (course_in messages course.now) tip
        given.now strings.now) compiled.now) }
{
    let transactions = compiled.made.transactions.as_slice();
    let text = state_text(
        alloc,
        &compiled.contract,
        transactions,
        course,
        tip,
        given,
        strings,
    )?;
    Ok(Reply::new(0, text))
}

// The same, by these signatures and a file of secrets, or none.
fn stood_by_file<H: Hash32 + Drop>(
    alloc: Global,
    trail: &mut Trail<H>,
    compiled: &Compiled,
    course: &Course,
    tip: u32,
    given: &Given,
    secrets: Option<&Option<Bytes>>,
) -> Result<Reply, OutOfMemory>
    requires made { IsMade (H.digest_of trail.old.hasher) compiled.now }
    requires clear { evidence_of (H.digest_of trail.old.hasher) trail.old.messages ≡ None }
    requires sized { are_sized course.now ≡ true }
    ensures { let hash = H.digest_of trail.old.hasher in IfOk result (λ reply. printed reply
        ≡ answered (λ keys s. later.given_answer hash keys s (course_in trail.old.messages course.now) tip
        (option_map (λ text. text.now) secrets.entry) given.now) compiled.now) }
{
    match strings_in(alloc, trail, compiled, secrets)? {
        Shown::Refused(reply) => Ok(reply),
        Shown::Taken(strings) => stood(alloc, compiled, course, tip, given, &strings),
    }
}

// The same, by a file of signatures and one of secrets, or none.
fn course_reply<H: Hash32 + Drop>(
    alloc: Global,
    trail: &mut Trail<H>,
    compiled: &Compiled,
    course: &Course,
    tip: u32,
    signatures: &Option<Bytes>,
    secrets: Option<&Option<Bytes>>,
) -> Result<Reply, OutOfMemory>
    requires made { IsMade (H.digest_of trail.old.hasher) compiled.now }
    requires clear { evidence_of (H.digest_of trail.old.hasher) trail.old.messages ≡ None }
    requires sized { are_sized course.now ≡ true }
    ensures { let hash = H.digest_of trail.old.hasher in IfOk result (λ reply. printed reply
        ≡ answered (λ keys s. later.course_answer hash keys s signatures.now (option_map (λ text. text.now) secrets.entry)
        (course_in trail.old.messages course.now) tip) compiled.now) }
{
    match signatures_in(alloc, compiled.made.transactions.as_slice(), signatures) {
        Ok(given) => stood_by_file(alloc, trail, compiled, course, tip, &given, secrets),
        Err(SignatureError::Refused(fault)) => signatures_refused(alloc, fault),
        Err(SignatureError::Memory) => Err(AllocError),
    }
}

/// What `state` replies to a chain file, a file of signatures and, where the words name one, a file of secrets.
pub(crate) fn state_reply<H: Hash32 + Drop>(
    alloc: Global,
    trail: &mut Trail<H>,
    compiled: &Compiled,
    chain: &Option<Bytes>,
    signatures: &Option<Bytes>,
    secrets: Option<&Option<Bytes>>,
) -> Result<Reply, OutOfMemory>
    requires made { IsMade (H.digest_of trail.old.hasher) compiled.now }
    requires hashed { HashedAll (H.digest_of trail.old.hasher) trail.old.messages compiled.now }
    ensures { let hash = H.digest_of trail.old.hasher in IfOk result (λ reply. printed reply
        ≡ answered (later.state_answer hash chain.now signatures.now (option_map (λ text. text.now) secrets.entry)) compiled.now) }
{
    known_fit();
    let reading = reading_in(alloc, chain)?;
    let transactions = compiled.made.transactions.as_slice();
    match follow(
        alloc,
        trail,
        &compiled.contract,
        &compiled.deal,
        transactions,
        &reading,
    ) {
        Ok(course) => {
            course_reply(
                alloc,
                trail,
                compiled,
                &course,
                reading.tip,
                signatures,
                secrets,
            )
        }
        Err(ChainError::Refused(fault)) => chain_refused(alloc, fault),
        Err(ChainError::Collided) => collision_reply(alloc, trail),
        Err(ChainError::Memory) => Err(AllocError),
    }
}
