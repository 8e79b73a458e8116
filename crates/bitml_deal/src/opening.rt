//! The contract and the deal of a command's first two files, compiled.

ghost use Rattle.std.specs.Prelude.{◌≡◌, ◌≤◌, ℕ, List, [], Some, length, option_map, Ok, IfOk};
ghost use Rattle.spec_terms.specs.Precondition.{names_of};
ghost use Rattle.spec_deal.specs.Answers as answers;
ghost use Rattle.spec_deal.specs.Needed.{needed_deposits};
ghost use Rattle.spec_deal.specs.Setting.{deal_keys, deal_instance};
ghost use Rattle.spec_deal.specs.Verifier.{secp256k1};
ghost use Rattle.bm_hash.specs.Messages.{evidence_of};
ghost use Rattle.spec_tool.specs.Replies.{printed};
ghost use Rattle.deal_file.specs.Gives.{Gives};
ghost use Rattle.bitml_deal.specs.Opens.{shown_answered, IsMade, HashedAll, Leads, IsRefused};

use bm_hash::{Hash32, Trail, TrailError};
use bm_wellformed::Checked;
use deal_compile::{CompiledDeal, circular, compile_deal};
use deal_file::{DealError, put_deal_refused, read_deal};
use spec_data::{Bytes, OutOfMemory};
use spec_deal::{Deal, DealFault};
use spec_tool::Reply;
use std::alloc::{AllocError, Global};
use theory_deal::deals_give_all;
use tool_command::{JudgeError, contract_in, contract_refused};
use tool_shows::collided_reply;

/// A contract with its deal, and what they are compiled to.
#[derive(Drop)]
pub(crate) struct Compiled {
    pub(crate) contract: Checked,
    pub(crate) deal: Deal,
    pub(crate) made: CompiledDeal,
}

/// What the first two files of a command come to.
#[derive(Drop)]
pub(crate) enum Opening {
    /// One is refused, or strings collide, and this is replied.
    Refused(Reply),
    /// Both are taken.
    Taken(Compiled),
}

// ---- replies

/// The deal file is refused.
pub(crate) fn deal_refused(alloc: Global, fault: &DealFault) -> Result<Reply, OutOfMemory>
    ensures { IfOk result (λ reply. printed reply ≡ answers.deal_refused fault.now) }
{
    let mut text = Vec::new(alloc);
    put_deal_refused(alloc, &mut text, fault)?;
    Ok(Reply::new(13, text))
}

/// What is replied where two strings of a trail collide.
pub(crate) fn collision_reply<H: Hash32 + Drop>(
    alloc: Global,
    trail: &Trail<H>,
) -> Result<Reply, OutOfMemory>
    ensures { IfOk result (λ reply. Some (printed reply)
        ≡ option_map (λ pair. answers.collides (pair.0) (pair.1)) (evidence_of (H.digest_of trail.now.hasher) trail.now.messages)) }
{
    match trail.evidence() {
        Some((earlier, later)) => collided_reply(alloc, earlier, later),
        None => Err(AllocError),
    }
}

// ---- the deal

// The deal of a file, none of whose bytes are given where it is too long; or why it is refused.
fn deal_in(alloc: Global, contract: &Checked, text: &Option<Bytes>) -> Result<Deal, DealError>
    ensures gives { Gives (λ d. d) result (answers.deal_in secp256k1 contract.now text.now) }
    ensures places { IfOk result (λ d. names_of d.deposits ≡ needed_deposits contract.now) }
{
    deals_give_all();
    match text {
        None => Err(DealError::Refused(DealFault::Size)),
        Some(bytes) => read_deal(alloc, contract, bytes.as_slice()),
    }
}

// What is compiled is taken, unless the deal makes one of its own deposits or pays to one of its positions.
fn unless_circular<H: Hash32>(
    alloc: Global,
    hasher: &H,
    compiled: Compiled,
) -> Result<Opening, OutOfMemory>
    ensures { let hash = H.digest_of hasher.now in
        (messages : List (List ℕ)) → IsMade hash compiled → HashedAll hash messages compiled
        → IfOk result (Leads hash (λ answer. answers.unless_circular (answers.circular hash (deal_keys compiled.deal)
        (deal_instance compiled.contract compiled.deal)) (shown_answered answer compiled)) messages) }
{
    match circular(
        alloc,
        hasher,
        &compiled.contract,
        &compiled.deal,
        &compiled.made,
    )? {
        None => Ok(Opening::Taken(compiled)),
        Some(name) => Ok(Opening::Refused(deal_refused(alloc, &DealFault::Circular(name))?)),
    }
}

// A contract and its deal are compiled.
fn compile<H: Hash32 + Drop>(
    alloc: Global,
    trail: &mut Trail<H>,
    contract: Checked,
    deal: Deal,
) -> Result<Opening, OutOfMemory>
    requires new { trail.old.messages ≡ [] }
    requires places { names_of deal.deposits ≡ needed_deposits contract }
    ensures hasher { trail.new.hasher ≡ trail.old.hasher }
    ensures leads { let hash = H.digest_of trail.old.hasher in
        IfOk result (Leads hash (λ answer. answers.with_shown_deal hash answer contract (Ok deal)) trail.new.messages) }
{
    match compile_deal(alloc, trail, &contract, &deal) {
        Ok(made) => {
            unless_circular(
                alloc,
                trail.hasher(),
                Compiled {
                    contract,
                    deal,
                    made,
                },
            )
        }
        Err(TrailError::Collided) => Ok(Opening::Refused(collision_reply(alloc, trail)?)),
        Err(TrailError::Memory) => Err(AllocError),
    }
}

// What is replied where no deal is taken.
fn not_taken(alloc: Global, error: &DealError) -> Result<Opening, OutOfMemory>
    ensures { IfOk result (IsRefused error.now) }
{
    match error {
        DealError::Refused(fault) => Ok(Opening::Refused(deal_refused(alloc, fault)?)),
        DealError::Memory => Err(AllocError),
    }
}

// The deal of a contract that is taken.
fn open_taken<H: Hash32 + Drop>(
    alloc: Global,
    trail: &mut Trail<H>,
    contract: Checked,
    text: &Option<Bytes>,
) -> Result<Opening, OutOfMemory>
    requires new { trail.old.messages ≡ [] }
    ensures hasher { trail.new.hasher ≡ trail.old.hasher }
    ensures leads { let hash = H.digest_of trail.old.hasher in
        IfOk result (Leads hash (λ answer. answers.with_shown_deal hash answer contract (answers.deal_in secp256k1 contract text.now)) trail.new.messages) }
{
    match deal_in(alloc, &contract, text) {
        Ok(deal) => compile(alloc, trail, contract, deal),
        Err(error) => not_taken(alloc, &error),
    }
}

/// The contract of the first text and the deal of the second, compiled.
pub(crate) fn open<H: Hash32 + Drop>(
    alloc: Global,
    trail: &mut Trail<H>,
    texts: &[Option<Bytes>],
) -> Result<Opening, OutOfMemory>
    requires new { trail.old.messages ≡ [] }
    requires two { 2 ≤ length texts.now }
    ensures hasher { trail.new.hasher ≡ trail.old.hasher }
    ensures leads { let hash = H.digest_of trail.old.hasher in
        IfOk result (Leads hash (λ answer. answers.of_shown_deal secp256k1 hash answer texts.now) trail.new.messages) }
{
    match contract_in(alloc, &texts[0]) {
        Ok(contract) => open_taken(alloc, trail, contract, &texts[1]),
        Err(JudgeError::Refused(why)) => {
            Ok(Opening::Refused(contract_refused(alloc, 0, why.as_slice())?))
        }
        Err(JudgeError::Memory) => Err(AllocError),
    }
}
