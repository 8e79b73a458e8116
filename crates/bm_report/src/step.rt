//! How the steps of the calculus are printed.

ghost use Rattle.std.specs.Prelude.{◌≡◌, ◌++◌, codes, flat_map, map, OnOk};
ghost use Rattle.std.specs.Fmt.{decimal};
ghost use Rattle.spec_text.specs.RunText.{newline, outputs_text, contract_party_text};
ghost use Rattle.spec_text.specs.StepText as spec;

use bm_runfile::{
    put_advertise, put_branch, put_byte, put_contract_party, put_named, put_outputs,
    put_party_name, put_share, put_spaced_output, put_word_name, put_word_number,
};
use bm_text::{put, put_decimal};
use spec_calculus::{Owner, Step};
use spec_data::{Name, OutOfMemory};
use spec_run::Outcome;
use std::alloc::Global;

pub(crate) fn owner_text(owner: &Owner) -> &[u8]
    ensures { result.now ≡ spec.owner_text owner.now }
{
    match owner {
        Owner::Party(name) => name.bytes(),
        Owner::Outside => b"Outside",
    }
}

fn put_all_owned(
    alloc: Global,
    out: &mut Vec<u8>,
    outputs: &[(Owner, u64)],
) -> Result<(), OutOfMemory>
    ensures { OnOk result (out.new.items ≡ out.old.items ++ spec.owned_text outputs.now) }
{
    for (owner, value) in outputs {
        put_share(alloc, out, owner_text(owner), *value)?;
    }
    Ok(())
}

pub(crate) fn put_length(
    alloc: Global,
    out: &mut Vec<u8>,
    length: Option<u32>,
) -> Result<(), OutOfMemory>
    ensures { OnOk result (out.new.items ≡ out.old.items ++ spec.length_text length) }
{
    match length {
        Some(number) => put_decimal(alloc, out, number as u64),
        None => put(out, b"none"),
    }
}

#[tactic(auto, using(std::proofs::Common::append_assoc))]
fn put_named_length(
    alloc: Global,
    out: &mut Vec<u8>,
    name: &Name,
    length: Option<u32>,
) -> Result<(), OutOfMemory>
    ensures { OnOk result (out.new.items ≡ out.old.items ++ (codes " " ++ (name.now ++ (codes "=" ++ spec.length_text length)))) }
{
    put_named(out, name)?;
    put_length(alloc, out, length)
}

fn put_lengths(
    alloc: Global,
    out: &mut Vec<u8>,
    lengths: &[(Name, Option<u32>)],
) -> Result<(), OutOfMemory>
    ensures { OnOk result (out.new.items ≡ out.old.items ++ spec.lengths_text lengths.now) }
{
    for (name, length) in lengths {
        put_named_length(alloc, out, name, *length)?;
    }
    Ok(())
}

fn put_numbers(alloc: Global, out: &mut Vec<u8>, made: &[(u32, u64)]) -> Result<(), OutOfMemory>
    ensures { OnOk result (out.new.items ≡ out.old.items ++ outputs_text (map (λ m. m.0) made.now)) }
{
    for pair in made {
        put_spaced_output(alloc, out, pair.0)?;
    }
    Ok(())
}

#[tactic(auto, using(std::proofs::Common::append_assoc))]
fn put_leads(alloc: Global, out: &mut Vec<u8>, made: &[(u32, u64)]) -> Result<(), OutOfMemory>
    ensures { OnOk result (out.new.items ≡ out.old.items ++ spec.leads_text (map (λ m. m.0) made.now)) }
{
    put(out, b" ->")?;
    put_numbers(alloc, out, made)
}

/// A word, a branch, and the outputs that were made.
#[tactic(auto, using(std::proofs::Common::append_assoc))]
fn put_taken(
    alloc: Global,
    out: &mut Vec<u8>,
    word: &[u8],
    output: u32,
    branch: u32,
    made: &[(u32, u64)],
) -> Result<(), OutOfMemory>
    ensures { OnOk result (out.new.items ≡ out.old.items
        ++ (word.now ++ (spec.branch_text output branch ++ spec.leads_text (map (λ m. m.0) made.now)))) }
{
    put(out, word)?;
    put_branch(alloc, out, output, branch)?;
    put_leads(alloc, out, made)
}

#[tactic(auto, using(std::proofs::Common::append_assoc))]
fn put_move(
    alloc: Global,
    out: &mut Vec<u8>,
    inputs: &[u32],
    outputs: &[(Owner, u64)],
) -> Result<(), OutOfMemory>
    ensures { OnOk result (out.new.items ≡ out.old.items
        ++ (codes "move" ++ (outputs_text inputs.now ++ (codes " ->" ++ spec.owned_text outputs.now)))) }
{
    put(out, b"move")?;
    put_outputs(alloc, out, inputs)?;
    put(out, b" ->")?;
    put_all_owned(alloc, out, outputs)
}

#[tactic(auto, using(std::proofs::Common::append_assoc))]
fn put_commit(
    alloc: Global,
    out: &mut Vec<u8>,
    contract: u32,
    party: &Name,
    lengths: &[(Name, Option<u32>)],
) -> Result<(), OutOfMemory>
    ensures { OnOk result (out.new.items ≡ out.old.items
        ++ (codes "commit " ++ (contract_party_text contract party.now ++ spec.lengths_text lengths.now))) }
{
    put(out, b"commit ")?;
    put_contract_party(alloc, out, contract, party)?;
    put_lengths(alloc, out, lengths)
}

#[tactic(auto, using(std::proofs::Common::append_assoc))]
fn put_init(
    alloc: Global,
    out: &mut Vec<u8>,
    contract: u32,
    made: &[(u32, u64)],
) -> Result<(), OutOfMemory>
    ensures { OnOk result (out.new.items ≡ out.old.items
        ++ (codes "init " ++ (decimal contract ++ spec.leads_text (map (λ m. m.0) made.now)))) }
{
    put_word_number(alloc, out, b"init ", contract)?;
    put_leads(alloc, out, made)
}

#[tactic(auto, using(std::proofs::Common::append_assoc))]
fn put_auth_branch(
    alloc: Global,
    out: &mut Vec<u8>,
    party: &Name,
    output: u32,
    branch: u32,
) -> Result<(), OutOfMemory>
    ensures { OnOk result (out.new.items ≡ out.old.items
        ++ (codes "authbranch " ++ (party.now ++ (codes " " ++ spec.branch_text output branch)))) }
{
    put_word_name(out, b"authbranch ", party)?;
    put_branch(alloc, out, output, branch)
}

#[tactic(auto, using(std::proofs::Common::append_assoc))]
fn put_auth_move(out: &mut Vec<u8>, party: &Name) -> Result<(), OutOfMemory>
    ensures { OnOk result (out.new.items ≡ out.old.items ++ (codes "authmove " ++ party.now)) }
{
    put(out, b"authmove ")?;
    put(out, party.bytes())
}

/// A step behind the word `step`; these outputs were made by its event.
fn put_step_words(
    alloc: Global,
    out: &mut Vec<u8>,
    made: &[(u32, u64)],
    step: &Step,
) -> Result<(), OutOfMemory>
    ensures { OnOk result (out.new.items ≡ out.old.items ++ spec.step_words (map (λ m. m.0) made.now) step.now) }
{
    match step {
        Step::Delay { blocks } => put_word_number(alloc, out, b"delay ", *blocks),
        Step::AuthMove { party, .. } => put_auth_move(out, party),
        Step::Move { action } => {
            put_move(
                alloc,
                out,
                action.inputs.as_slice(),
                action.outputs.as_slice(),
            )
        }
        Step::Advertise { contract, bindings } => {
            put_advertise(alloc, out, *contract, bindings.as_slice())
        }
        Step::Commit {
            contract,
            party,
            lengths,
        } => put_commit(alloc, out, *contract, party, lengths.as_slice()),
        Step::AuthInit {
            contract,
            party,
            deposit,
        } => put_party_name(alloc, out, b"authinit ", *contract, party, deposit),
        Step::Init { contract } => put_init(alloc, out, *contract, made),
        Step::Reveal {
            contract,
            party,
            secret,
        } => put_party_name(alloc, out, b"reveal ", *contract, party, secret),
        Step::AuthBranch {
            party,
            output,
            branch,
        } => put_auth_branch(alloc, out, party, *output, *branch),
        Step::PutReveal { output, branch } => {
            put_taken(alloc, out, b"putreveal ", *output, *branch, made)
        }
        Step::Withdraw { output, branch } => {
            put_taken(alloc, out, b"withdraw ", *output, *branch, made)
        }
        Step::Split { output, branch } => put_taken(alloc, out, b"split ", *output, *branch, made),
    }
}

#[tactic(auto, using(std::proofs::Common::append_assoc))]
fn put_delay_line(alloc: Global, out: &mut Vec<u8>, blocks: u32) -> Result<(), OutOfMemory>
    ensures { OnOk result (out.new.items ≡ out.old.items ++ (codes "step " ++ (codes "delay " ++ (decimal blocks ++ newline)))) }
{
    put(out, b"step delay ")?;
    put_decimal(alloc, out, blocks as u64)?;
    put_byte(out, b'\n')
}

/// The line of a step. What passes blocks is written in one piece, since long runs mostly do.
#[tactic(auto, using(std::proofs::Common::append_assoc))]
fn put_step(
    alloc: Global,
    out: &mut Vec<u8>,
    made: &[(u32, u64)],
    step: &Step,
) -> Result<(), OutOfMemory>
    ensures { OnOk result (out.new.items ≡ out.old.items ++ spec.step_line (map (λ m. m.0) made.now) step.now) }
{
    if let Step::Delay { blocks } = step {
        return put_delay_line(alloc, out, *blocks);
    }
    put(out, b"step ")?;
    put_step_words(alloc, out, made, step)?;
    put_byte(out, b'\n')
}

fn put_all_steps(
    alloc: Global,
    out: &mut Vec<u8>,
    made: &[(u32, u64)],
    steps: &[Step],
) -> Result<(), OutOfMemory>
    ensures { OnOk result (out.new.items ≡ out.old.items ++ flat_map (spec.step_line (map (λ m. m.0) made.now)) steps.now) }
{
    for step in steps {
        put_step(alloc, out, made, step)?;
    }
    Ok(())
}

/// The lines of the steps of an event.
pub(crate) fn put_steps(
    alloc: Global,
    out: &mut Vec<u8>,
    outcome: &Outcome,
    steps: &[Step],
) -> Result<(), OutOfMemory>
    ensures { OnOk result (out.new.items ≡ out.old.items ++ spec.step_lines outcome.now steps.now) }
{
    match outcome {
        Outcome::Accepted { made, .. } => {
            put_all_steps(alloc, out, made.value().as_slice(), steps)
        }
        Outcome::Done => put_all_steps(alloc, out, &[], steps),
        Outcome::Refused(_) => put_all_steps(alloc, out, &[], steps),
    }
}
