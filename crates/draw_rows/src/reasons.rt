//! Why an event is refused, in a few words.

ghost use Rattle.std.specs.Prelude.{◌≡◌, ◌++◌, IfOk, OnOk};
ghost use Rattle.spec_page.specs.ReasonWords as spec;

use bm_report::put_reason;
use bm_text::put;
use spec_bitcoin::Refusal;
use spec_data::OutOfMemory;
use spec_run::Reason;
use std::alloc::Global;

fn refusal_words(refusal: &Refusal) -> &'static [u8]
    ensures { result.now ≡ spec.refusal_words refusal.now }
{
    match refusal {
        Refusal::NoInput => b"it spends nothing",
        Refusal::NoOutput => b"it makes nothing",
        Refusal::InputRepeated => b"it spends an output twice",
        Refusal::MissingInput(_) => b"what it spends is not there",
        Refusal::ValueLimit => b"more money than there is",
        Refusal::InsufficientIn => b"it makes more than it spends",
        Refusal::NotFinal => b"too early",
        Refusal::ScriptSigNotEmpty(_) => b"a witness in the wrong place",
        Refusal::NotWitnessScript(_) => b"what it spends has no witness script",
        Refusal::ScriptMismatch(_) => b"another script",
        Refusal::ItemTooLong(_) => b"a witness too long",
        Refusal::ScriptFalse(_) => b"a signature or a secret is missing",
    }
}

fn reason_words(reason: &Reason) -> &'static [u8]
    ensures { result.now ≡ spec.reason_words reason.now }
{
    match reason {
        Reason::NoContract => b"no such contract",
        Reason::AdvertFull => b"advertised before",
        Reason::WrongNames => b"the names are others",
        Reason::DepositRepeated(_) => b"a deposit twice",
        Reason::NotLive(_) => b"spent, or no deposit",
        Reason::WrongDeposit(_) => b"another owner or value",
        Reason::NoHonest => b"nobody who takes part is honest",
        Reason::NotAdvertised => b"not advertised",
        Reason::NotParticipant => b"takes no part",
        Reason::AlreadyCommitted => b"committed before",
        Reason::NoSecret(_) => b"the secret is not held",
        Reason::BadSecretLength(_) => b"too short or too long",
        Reason::HashRepeated(_) => b"the digest was used before",
        Reason::NotAllCommitted => b"not all have committed",
        Reason::NotEndorsed(_, _) => b"an endorsement is missing",
        Reason::NotActive => b"not there, or gone",
        Reason::NoBranch => b"no such branch",
        Reason::NotAsked => b"not asked for",
        Reason::NotHonest => b"only for the honest",
        Reason::NotCommitted => b"not committed",
        Reason::NotBegun => b"the contract has not begun",
        Reason::AlreadyRevealed => b"shown before",
        Reason::Honest => b"not for the honest",
        Reason::NotOwner => b"not its owner",
        Reason::NotLiveOutput(_) => b"spent, or no deposit",
        Reason::NotOwnerOutput(_) => b"not its owner",
        Reason::BadTx(_) => b"no transaction",
        Reason::NotCompiled => b"not all have committed",
        Reason::SecretUnknown(_) => b"a secret is not shown",
        Reason::TimeLimit => b"more blocks than can be",
        Reason::Ledger(refusal) => refusal_words(refusal),
    }
}

/// The reason as `play` prints it, and the words.
#[tactic(auto, using(std::proofs::Common::append_assoc))]
pub(crate) fn put_refused(
    alloc: Global,
    out: &mut Vec<u8>,
    reason: &Reason,
) -> Result<(), OutOfMemory>
    ensures { OnOk result (out.new.items ≡ out.old.items ++ spec.refused_text reason.now) }
{
    put(out, b"refused, ")?;
    put_reason(alloc, out, reason)?;
    put(out, b": ")?;
    put(out, reason_words(reason))
}
