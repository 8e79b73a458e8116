//! The lines of what happened, of outputs, secrets and of what is missing.

ghost use Rattle.std.specs.Prelude.{◌≡◌, ◌++◌, codes, map, reverse, flat_map, option_map, OnOk, IfOk};
ghost use Rattle.std.specs.Fmt.{decimal};
ghost use Rattle.spec_data.specs.Digits.{hex_text};
ghost use Rattle.spec_deal.specs.DealText.{verb_text};
ghost use Rattle.spec_text.specs.RunText.{outputs_text, newline};
ghost use Rattle.spec_text.specs.StepText as steps;
ghost use Rattle.spec_chain.specs.StateText as spec;
ghost use Rattle.deal_follow.specs.Seen.{step_of, happened_in};
ghost use Rattle.deal_state.specs.Lines as by;

use crate::signatures::Unverified;
use bm_keys::{put_label, put_path};
use bm_runfile::{put_branch, put_output, put_outputs, put_party_name, put_word_name};
use bm_text::{put, put_decimal, put_hex};
use deal_follow::{Deed, Event};
use spec_bitcoin::{Label, OutPoint};
use spec_chain::{Held, Output, Requirement};
use spec_data::{Bytes, Name, OutOfMemory};
use spec_deal::Verb;
use spec_tool::Which;
use std::alloc::Global;
use tool_which::put_which;

// A txid as wallets show it, with its bytes reversed.
fn put_txid(alloc: Global, out: &mut Vec<u8>, txid: &[u8; 32]) -> Result<(), OutOfMemory>
    ensures { OnOk result (out.new.items ≡ out.old.items ++ spec.txid_text txid.now) }
{
    let mut bytes = *txid;
    bytes.reverse();
    put_hex(alloc, out, &bytes)
}

// ---- steps

// ` -> #m ..`, the outputs that were made.
#[tactic(auto, using(std::proofs::Common::append_assoc))]
fn put_leads(alloc: Global, out: &mut Vec<u8>, made: &[u32]) -> Result<(), OutOfMemory>
    ensures { OnOk result (out.new.items ≡ out.old.items ++ steps.leads_text made.now) }
{
    put(out, b" ->")?;
    put_outputs(alloc, out, made)
}

// A word, a branch, and the outputs that were made.
#[tactic(auto, using(std::proofs::Common::append_assoc))]
fn put_taken(
    alloc: Global,
    out: &mut Vec<u8>,
    word: &[u8],
    output: u32,
    branch: u32,
    made: &[u32],
) -> Result<(), OutOfMemory>
    ensures { OnOk result (out.new.items ≡ out.old.items ++ (word.now ++ (steps.branch_text output branch ++ steps.leads_text made.now))) }
{
    put(out, word)?;
    put_branch(alloc, out, output, branch)?;
    put_leads(alloc, out, made)
}

// `authbranch A #n i`
#[tactic(auto, using(std::proofs::Common::append_assoc))]
fn put_agreement(
    alloc: Global,
    out: &mut Vec<u8>,
    party: &Name,
    output: u32,
    branch: u32,
) -> Result<(), OutOfMemory>
    ensures { OnOk result (out.new.items ≡ out.old.items
        ++ (codes "authbranch " ++ (party.now ++ (codes " " ++ steps.branch_text output branch)))) }
{
    put_word_name(out, b"authbranch ", party)?;
    put_branch(alloc, out, output, branch)
}

// `init 0 -> #n`
#[tactic(auto, using(std::proofs::Common::append_assoc))]
fn put_init(alloc: Global, out: &mut Vec<u8>, made: &[u32]) -> Result<(), OutOfMemory>
    ensures { OnOk result (out.new.items ≡ out.old.items ++ (codes "init " ++ (decimal 0 ++ steps.leads_text made.now))) }
{
    put(out, b"init ")?;
    put_decimal(alloc, out, 0)?;
    put_leads(alloc, out, made)
}

// A step behind the word `step`; these outputs were made by its transaction.
fn put_deed_words(
    alloc: Global,
    out: &mut Vec<u8>,
    made: &[u32],
    deed: Deed,
) -> Result<(), OutOfMemory>
    ensures { OnOk result (out.new.items ≡ out.old.items ++ steps.step_words made.now (step_of deed)) }
{
    match deed {
        Deed::Reveal(party, secret) => put_party_name(alloc, out, b"reveal ", 0, &party, &secret),
        Deed::AuthInit(party, name) => put_party_name(alloc, out, b"authinit ", 0, &party, &name),
        Deed::Init => put_init(alloc, out, made),
        Deed::AuthBranch(party, output, branch) => put_agreement(
            alloc, out, &party, output, branch,
        ),
        Deed::PutReveal(output, branch) => put_taken(
            alloc,
            out,
            b"putreveal ",
            output,
            branch,
            made,
        ),
        Deed::Withdraw(output, branch) => put_taken(alloc, out, b"withdraw ", output, branch, made),
        Deed::Split(output, branch) => put_taken(alloc, out, b"split ", output, branch, made),
    }
}

// The line of a step.
#[tactic(auto, using(std::proofs::Common::append_assoc))]
fn put_deed(alloc: Global, out: &mut Vec<u8>, made: &[u32], deed: Deed) -> Result<(), OutOfMemory>
    ensures { OnOk result (out.new.items ≡ out.old.items ++ steps.step_line made.now (step_of deed)) }
{
    put(out, b"step ")?;
    put_deed_words(alloc, out, made, deed)?;
    put(out, b"\n")
}

// The lines of steps.
fn put_deeds(
    alloc: Global,
    out: &mut Vec<u8>,
    made: &[u32],
    deeds: &[Deed],
) -> Result<(), OutOfMemory>
    ensures { OnOk result (out.new.items ≡ out.old.items ++ flat_map (steps.step_line made.now) (map step_of deeds.now)) }
{
    for deed in deeds {
        put_deed(alloc, out, made, *deed)?;
    }
    Ok(())
}

// ---- what happened

// `gone x`
#[tactic(auto, using(std::proofs::Common::append_assoc))]
fn put_gone(out: &mut Vec<u8>, name: &Name) -> Result<(), OutOfMemory>
    ensures { OnOk result (out.new.items ≡ out.old.items ++ spec.gone_line name.now) }
{
    put(out, b"gone ")?;
    put(out, name.bytes())?;
    put(out, b"\n")
}

fn put_all_gone(out: &mut Vec<u8>, names: &[Name]) -> Result<(), OutOfMemory>
    ensures { OnOk result (out.new.items ≡ out.old.items ++ flat_map spec.gone_line names.now) }
{
    for name in names {
        put_gone(out, name)?;
    }
    Ok(())
}

// One of the deal's transactions by its name, any other by its txid.
fn put_name(
    alloc: Global,
    out: &mut Vec<u8>,
    which: &Option<Which>,
    txid: &[u8; 32],
) -> Result<(), OutOfMemory>
    ensures { OnOk result (out.new.items ≡ out.old.items ++ by.name_text which.now txid.now) }
{
    match which {
        Some(which) => put_which(alloc, out, which),
        None => put_txid(alloc, out, txid),
    }
}

// `confirmed WHICH N`
#[tactic(auto, using(std::proofs::Common::append_assoc))]
fn put_confirmed(alloc: Global, out: &mut Vec<u8>, event: &Event) -> Result<(), OutOfMemory>
    ensures { OnOk result (out.new.items ≡ out.old.items ++ by.confirmed_line (happened_in event.now)) }
{
    put(out, b"confirmed ")?;
    put_name(alloc, out, &event.which, &event.txid)?;
    put(out, b" ")?;
    put_decimal(alloc, out, event.height as u64)?;
    put(out, b"\n")
}

/// A transaction, and below it its steps and the deposits that are gone.
#[tactic(auto, using(std::proofs::Common::append_assoc))]
pub(crate) fn put_event(alloc: Global, out: &mut Vec<u8>, event: &Event) -> Result<(), OutOfMemory>
    ensures { OnOk result (out.new.items ≡ out.old.items ++ spec.happened_text (happened_in event.now)) }
{
    put_confirmed(alloc, out, event)?;
    put_deeds(alloc, out, &event.made, &event.deeds)?;
    put_all_gone(out, &event.gone)
}

// ---- outputs

// `TXID VOUT VALUE`, and the end of the line.
#[tactic(auto, using(std::proofs::Common::append_assoc))]
fn put_place(
    alloc: Global,
    out: &mut Vec<u8>,
    place: &OutPoint,
    value: u64,
) -> Result<(), OutOfMemory>
    ensures { OnOk result (out.new.items ≡ out.old.items ++ by.place_text place.now value) }
{
    put_txid(alloc, out, &place.txid)?;
    put(out, b" ")?;
    put_decimal(alloc, out, place.vout as u64)?;
    put(out, b" ")?;
    put_decimal(alloc, out, value)?;
    put(out, b"\n")
}

// `WORD #n `
#[tactic(auto, using(std::proofs::Common::append_assoc))]
fn put_number(alloc: Global, out: &mut Vec<u8>, word: &[u8], number: u32) -> Result<(), OutOfMemory>
    ensures { OnOk result (out.new.items ≡ out.old.items ++ by.number_text word.now number) }
{
    put(out, word)?;
    put(out, b" ")?;
    put_output(alloc, out, number)?;
    put(out, b" ")
}

/// The line of a live position.
#[tactic(auto, using(std::proofs::Common::append_assoc))]
pub(crate) fn put_live(alloc: Global, out: &mut Vec<u8>, output: &Output) -> Result<(), OutOfMemory>
    ensures { OnOk result (out.new.items ≡ out.old.items ++ spec.live_line output.now) }
{
    let Held::Position(path) = &output.held else {
        return Ok(());
    };
    put_number(alloc, out, b"live", output.number)?;
    put_path(alloc, out, path.steps())?;
    put(out, b" ")?;
    put_place(alloc, out, &output.place, output.value)
}

/// The line of a payout, wherever it is now.
#[tactic(auto, using(std::proofs::Common::append_assoc))]
pub(crate) fn put_paid(alloc: Global, out: &mut Vec<u8>, output: &Output) -> Result<(), OutOfMemory>
    ensures { OnOk result (out.new.items ≡ out.old.items ++ spec.paid_line output.now) }
{
    let Held::Payout(party) = &output.held else {
        return Ok(());
    };
    put_number(alloc, out, b"paid", output.number)?;
    put(out, party.bytes())?;
    put(out, b" ")?;
    put_place(alloc, out, &output.place, output.value)
}

// ---- secrets and heights

/// The line of a secret, if it is known.
#[tactic(auto, using(std::proofs::Common::append_assoc))]
pub(crate) fn put_string(
    alloc: Global,
    out: &mut Vec<u8>,
    name: &Name,
    string: Option<&Bytes>,
) -> Result<(), OutOfMemory>
    ensures { OnOk result (out.new.items ≡ out.old.items ++ spec.string_line name.now (option_map (λ b. b.now) string.entry)) }
{
    let Some(bytes) = string else {
        return Ok(());
    };
    put(out, b"secret ")?;
    put(out, name.bytes())?;
    put(out, b" ")?;
    put_hex(alloc, out, bytes.as_slice())?;
    put(out, b"\n")
}

/// `height N`
#[tactic(auto, using(std::proofs::Common::append_assoc))]
pub(crate) fn put_height(alloc: Global, out: &mut Vec<u8>, tip: u32) -> Result<(), OutOfMemory>
    ensures { OnOk result (out.new.items ≡ out.old.items ++ spec.height_line tip) }
{
    put(out, b"height ")?;
    put_decimal(alloc, out, tip as u64)?;
    put(out, b"\n")
}

// ---- what is missing

fn put_verb(out: &mut Vec<u8>, verb: Verb) -> Result<(), OutOfMemory>
    ensures { OnOk result (out.new.items ≡ out.old.items ++ verb_text verb) }
{
    match verb {
        Verb::Init => put(out, b"init"),
        Verb::Authorise => put(out, b"authorise"),
        Verb::Endorse => put(out, b"endorse"),
    }
}

// `LABEL VERB`
#[tactic(auto, using(std::proofs::Common::append_assoc))]
fn put_signer(
    alloc: Global,
    out: &mut Vec<u8>,
    label: &Label,
    verb: Verb,
) -> Result<(), OutOfMemory>
    ensures { OnOk result (out.new.items ≡ out.old.items ++ by.signer_text label.now verb) }
{
    put_label(alloc, out, label)?;
    put(out, b" ")?;
    put_verb(out, verb)
}

// `WHICH k `
#[tactic(auto, using(std::proofs::Common::append_assoc))]
fn put_input(alloc: Global, out: &mut Vec<u8>, which: &Which, input: u32) -> Result<(), OutOfMemory>
    ensures { OnOk result (out.new.items ≡ out.old.items ++ by.input_text which.now input) }
{
    put_which(alloc, out, which)?;
    put(out, b" ")?;
    put_decimal(alloc, out, input as u64)?;
    put(out, b" ")
}

// `needs signature WHICH k LABEL VERB`
#[tactic(auto, using(std::proofs::Common::append_assoc))]
fn put_signature(
    alloc: Global,
    out: &mut Vec<u8>,
    which: &Which,
    input: u32,
    label: &Label,
    verb: Verb,
) -> Result<(), OutOfMemory>
    ensures { OnOk result (out.new.items ≡ out.old.items ++ by.signature_text which.now input label.now verb) }
{
    put(out, b"needs signature ")?;
    put_input(alloc, out, which, input)?;
    put_signer(alloc, out, label, verb)
}

// `W:x VERB`
#[tactic(auto, using(std::proofs::Common::append_assoc))]
fn put_wallet_signer(out: &mut Vec<u8>, deposit: &Name, verb: Verb) -> Result<(), OutOfMemory>
    ensures { OnOk result (out.new.items ≡ out.old.items ++ by.wallet_signer_text deposit.now verb) }
{
    put(out, b"W:")?;
    put(out, deposit.bytes())?;
    put(out, b" ")?;
    put_verb(out, verb)
}

// `needs signature WHICH k W:x VERB`
#[tactic(auto, using(std::proofs::Common::append_assoc))]
fn put_witness(
    alloc: Global,
    out: &mut Vec<u8>,
    which: &Which,
    input: u32,
    deposit: &Name,
    verb: Verb,
) -> Result<(), OutOfMemory>
    ensures { OnOk result (out.new.items ≡ out.old.items ++ by.witness_text which.now input deposit.now verb) }
{
    put(out, b"needs signature ")?;
    put_input(alloc, out, which, input)?;
    put_wallet_signer(out, deposit, verb)
}

// `needs secret a of A`
#[tactic(auto, using(std::proofs::Common::append_assoc))]
fn put_secret(out: &mut Vec<u8>, name: &Name, party: &Name) -> Result<(), OutOfMemory>
    ensures { OnOk result (out.new.items ≡ out.old.items ++ by.secret_text name.now party.now) }
{
    put(out, b"needs secret ")?;
    put(out, name.bytes())?;
    put(out, b" of ")?;
    put(out, party.bytes())
}

#[tactic(auto, using(std::proofs::Common::append_assoc))]
fn put_height_words(alloc: Global, out: &mut Vec<u8>, height: u32) -> Result<(), OutOfMemory>
    ensures { OnOk result (out.new.items ≡ out.old.items ++ (codes "needs height " ++ decimal height)) }
{
    put(out, b"needs height ")?;
    put_decimal(alloc, out, height as u64)
}

#[tactic(auto, using(std::proofs::Common::append_assoc))]
fn put_deposit_words(out: &mut Vec<u8>, name: &Name) -> Result<(), OutOfMemory>
    ensures { OnOk result (out.new.items ≡ out.old.items ++ (codes "needs deposit " ++ name.now)) }
{
    put(out, b"needs deposit ")?;
    put(out, name.bytes())
}

// What is missing.
fn put_requirement(
    alloc: Global,
    out: &mut Vec<u8>,
    requirement: &Requirement,
) -> Result<(), OutOfMemory>
    ensures { OnOk result (out.new.items ≡ out.old.items ++ by.requirement_text requirement.now) }
{
    match requirement {
        Requirement::Height(height) => put_height_words(alloc, out, *height),
        Requirement::Signature(which, input, label, verb) => {
            put_signature(alloc, out, which, *input, label, *verb)
        }
        Requirement::Wallet(which, input, deposit, _, verb) => {
            put_witness(alloc, out, which, *input, deposit, *verb)
        }
        Requirement::Deposit(name) => put_deposit_words(out, name),
        Requirement::Secret(name, party) => put_secret(out, name, party),
        Requirement::DepositGone => put(out, b"never: deposit gone"),
        Requirement::PredicateFalse => put(out, b"never: predicate false"),
    }
}

// The line of what is missing.
#[tactic(auto, using(std::proofs::Common::append_assoc))]
fn put_requirement_text(
    alloc: Global,
    out: &mut Vec<u8>,
    requirement: &Requirement,
) -> Result<(), OutOfMemory>
    ensures { OnOk result (out.new.items ≡ out.old.items ++ (by.requirement_text requirement.now ++ newline)) }
{
    put_requirement(alloc, out, requirement)?;
    put(out, b"\n")
}

// The same.
fn put_requirement_line(
    alloc: Global,
    out: &mut Vec<u8>,
    requirement: &Requirement,
) -> Result<(), OutOfMemory>
    ensures { OnOk result (out.new.items ≡ out.old.items ++ spec.requirement_line requirement.now) }
{
    put_requirement_text(alloc, out, requirement)
}

fn put_requirement_lines(
    alloc: Global,
    out: &mut Vec<u8>,
    requirements: &[Requirement],
) -> Result<(), OutOfMemory>
    ensures { OnOk result (out.new.items ≡ out.old.items ++ flat_map spec.requirement_line requirements.now) }
{
    for requirement in requirements {
        put_requirement_line(alloc, out, requirement)?;
    }
    Ok(())
}

// `can WHICH` or `cannot WHICH`
#[tactic(auto, using(std::proofs::Common::append_assoc))]
fn put_verdict(
    alloc: Global,
    out: &mut Vec<u8>,
    word: &[u8],
    which: &Which,
) -> Result<(), OutOfMemory>
    ensures { OnOk result (out.new.items ≡ out.old.items ++ by.verdict_line word.now which.now) }
{
    put(out, word)?;
    put(out, b" ")?;
    put_which(alloc, out, which)?;
    put(out, b"\n")
}

// `unverified WHICH k W:x VERB`
#[tactic(auto, using(std::proofs::Common::append_assoc))]
fn put_unverified(
    alloc: Global,
    out: &mut Vec<u8>,
    unverified: &Unverified,
) -> Result<(), OutOfMemory>
    ensures { OnOk result (out.new.items ≡ out.old.items ++ by.unverified_text unverified.now) }
{
    put(out, b"unverified ")?;
    put_input(alloc, out, &unverified.which, unverified.input)?;
    put_wallet_signer(out, &unverified.deposit, unverified.verb)?;
    put(out, b"\n")
}

#[tactic(auto, using(std::proofs::Common::append_assoc))]
fn put_all_unverified(
    alloc: Global,
    out: &mut Vec<u8>,
    all: &[Unverified],
) -> Result<(), OutOfMemory>
    ensures { OnOk result (out.new.items ≡ out.old.items ++ flat_map by.unverified_text all.now) }
{
    for unverified in all {
        put_unverified(alloc, out, unverified)?;
    }
    Ok(())
}

/// A transaction, and below it what is missing for it; below one that can come, the wallets' witnesses that it counts on.
#[tactic(auto, using(std::proofs::Common::append_assoc))]
pub(crate) fn put_prospect(
    alloc: Global,
    out: &mut Vec<u8>,
    which: &Which,
    unverified: &[Unverified],
    requirements: &[Requirement],
) -> Result<(), OutOfMemory>
    ensures { OnOk result (out.new.items ≡ out.old.items ++ by.prospect_text which.now unverified.now requirements.now) }
{
    if requirements.is_empty() {
        put_verdict(alloc, out, b"can", which)?;
        return put_all_unverified(alloc, out, unverified);
    }
    put_verdict(alloc, out, b"cannot", which)?;
    put_requirement_lines(alloc, out, requirements)
}

/// `waits A`
#[tactic(auto, using(std::proofs::Common::append_assoc))]
pub(crate) fn put_waits(out: &mut Vec<u8>, party: &Name) -> Result<(), OutOfMemory>
    ensures { OnOk result (out.new.items ≡ out.old.items ++ spec.waits_line party.now) }
{
    put(out, b"waits ")?;
    put(out, party.bytes())?;
    put(out, b"\n")
}
