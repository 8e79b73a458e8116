//! The canonical lines of events and of a header.

ghost use Rattle.std.specs.Prelude.{◌≡◌, ◌++◌, codes, flat_map, OnOk, IfOk};
ghost use Rattle.std.specs.Fmt.{decimal};
ghost use Rattle.spec_bitcoin.specs.Keys.{label_text};
ghost use Rattle.spec_data.specs.Digits.{hex_text};
ghost use Rattle.spec_run.specs.declared.event.Event.TheVariants as events;
ghost use Rattle.spec_text.specs.RunText as spec;

use crate::pieces::{
    put_advertise, put_branch, put_contract_party, put_named, put_outputs, put_party_name,
    put_share, put_word_name, put_word_number,
};
use bm_keys::label_text;
use bm_text::{put, put_decimal, put_hex};
use spec_bitcoin::Label;
use spec_data::{Name, OutOfMemory};
use spec_run::{Event, Header, HeldSecret};
use std::alloc::Global;

fn put_label(alloc: Global, out: &mut Vec<u8>, label: &Label) -> Result<(), OutOfMemory>
    ensures { OnOk result (out.new.items ≡ out.old.items ++ label_text label.now) }
{
    let text = label_text(alloc, label)?;
    put(out, text.as_slice())
}

#[tactic(auto, using(std::proofs::Common::append_assoc))]
fn put_digest(
    alloc: Global,
    out: &mut Vec<u8>,
    name: &Name,
    digest: &[u8; 32],
) -> Result<(), OutOfMemory>
    ensures { OnOk result (out.new.items ≡ out.old.items ++ (codes " " ++ (name.now ++ (codes "=" ++ hex_text digest.now)))) }
{
    put_named(out, name)?;
    put_hex(alloc, out, digest)
}

fn put_digests(
    alloc: Global,
    out: &mut Vec<u8>,
    digests: &[(Name, [u8; 32])],
) -> Result<(), OutOfMemory>
    ensures { OnOk result (out.new.items ≡ out.old.items ++ spec.digests_text digests.now) }
{
    for (name, digest) in digests {
        put_digest(alloc, out, name, digest)?;
    }
    Ok(())
}

fn put_shares(alloc: Global, out: &mut Vec<u8>, shares: &[(Name, u64)]) -> Result<(), OutOfMemory>
    ensures { OnOk result (out.new.items ≡ out.old.items ++ spec.shares_text shares.now) }
{
    for (party, value) in shares {
        put_share(alloc, out, party.bytes(), *value)?;
    }
    Ok(())
}

/// A word, then a contract and a party.
#[tactic(auto, using(std::proofs::Common::append_assoc))]
fn put_word_contract_party(
    alloc: Global,
    out: &mut Vec<u8>,
    word: &[u8],
    contract: u32,
    party: &Name,
) -> Result<(), OutOfMemory>
    ensures { OnOk result (out.new.items ≡ out.old.items ++ (word.now ++ spec.contract_party_text contract party.now)) }
{
    put(out, word)?;
    put_contract_party(alloc, out, contract, party)
}

#[tactic(auto, using(std::proofs::Common::append_assoc))]
fn put_commit(
    alloc: Global,
    out: &mut Vec<u8>,
    contract: u32,
    party: &Name,
    digests: &[(Name, [u8; 32])],
) -> Result<(), OutOfMemory>
    ensures { OnOk result (out.new.items ≡ out.old.items
        ++ (codes "commit " ++ (spec.contract_party_text contract party.now ++ spec.digests_text digests.now))) }
{
    put(out, b"commit ")?;
    put_contract_party(alloc, out, contract, party)?;
    put_digests(alloc, out, digests)
}

#[tactic(auto, using(std::proofs::Common::append_assoc))]
fn put_authorise(
    alloc: Global,
    out: &mut Vec<u8>,
    party: &Name,
    output: u32,
    branch: u32,
) -> Result<(), OutOfMemory>
    ensures { OnOk result (out.new.items ≡ out.old.items
        ++ (codes "authorise " ++ (party.now ++ (codes " " ++ (spec.output_text output ++ (codes " " ++ decimal branch)))))) }
{
    put_word_name(out, b"authorise ", party)?;
    put_branch(alloc, out, output, branch)
}

#[tactic(auto, using(std::proofs::Common::append_assoc))]
fn put_word_hex(
    alloc: Global,
    out: &mut Vec<u8>,
    word: &[u8],
    bytes: &[u8],
) -> Result<(), OutOfMemory>
    ensures { OnOk result (out.new.items ≡ out.old.items ++ (word.now ++ hex_text bytes.now)) }
{
    put(out, word)?;
    put_hex(alloc, out, bytes)
}

#[tactic(auto, using(std::proofs::Common::append_assoc))]
fn put_sign(
    alloc: Global,
    out: &mut Vec<u8>,
    party: &Name,
    label: &Label,
    digest: &[u8; 32],
) -> Result<(), OutOfMemory>
    ensures { OnOk result (out.new.items ≡ out.old.items
        ++ (codes "sign " ++ (party.now ++ (codes " " ++ (label_text label.now ++ (codes " " ++ hex_text digest.now)))))) }
{
    put_word_name(out, b"sign ", party)?;
    put_label(alloc, out, label)?;
    put(out, b" ")?;
    put_hex(alloc, out, digest)
}

#[tactic(auto, using(std::proofs::Common::append_assoc))]
fn put_give(
    alloc: Global,
    out: &mut Vec<u8>,
    party: &Name,
    inputs: &[u32],
    outputs: &[(Name, u64)],
) -> Result<(), OutOfMemory>
    ensures { OnOk result (out.new.items ≡ out.old.items
        ++ (codes "give " ++ (party.now ++ (spec.outputs_text inputs.now ++ (codes " ->" ++ spec.shares_text outputs.now))))) }
{
    put(out, b"give ")?;
    put(out, party.bytes())?;
    put_outputs(alloc, out, inputs)?;
    put(out, b" ->")?;
    put_shares(alloc, out, outputs)
}

#[tactic(auto, using(std::proofs::Common::append_assoc))]
fn put_fire(alloc: Global, out: &mut Vec<u8>, output: u32, branch: u32) -> Result<(), OutOfMemory>
    ensures { OnOk result (out.new.items ≡ out.old.items ++ (codes "fire " ++ (spec.output_text output ++ (codes " " ++ decimal branch)))) }
{
    put(out, b"fire ")?;
    put_branch(alloc, out, output, branch)
}

/// The canonical line of an event at the end of a text, without its end.
pub fn put_event(alloc: Global, out: &mut Vec<u8>, event: &Event) -> Result<(), OutOfMemory>
    ensures { OnOk result (out.new.items ≡ out.old.items ++ spec.event_text event.now) }
{
    match event {
        Event::Advertise { contract, bindings } => {
            put_advertise(alloc, out, *contract, bindings.as_slice())
        }
        Event::Commit {
            contract,
            party,
            digests,
        } => put_commit(alloc, out, *contract, party, digests.as_slice()),
        Event::Endorse { contract, party } => {
            put_word_contract_party(alloc, out, b"endorse ", *contract, party)
        }
        Event::Init { contract, party } => {
            put_word_contract_party(alloc, out, b"init ", *contract, party)
        }
        Event::Authorise {
            party,
            output,
            branch,
        } => put_authorise(alloc, out, party, *output, *branch),
        Event::Reveal {
            contract,
            party,
            secret,
        } => put_party_name(alloc, out, b"reveal ", *contract, party, secret),
        Event::Post { bytes } => put_word_hex(alloc, out, b"post ", bytes.as_slice()),
        Event::Sign {
            party,
            label,
            digest,
        } => put_sign(alloc, out, party, label.value(), digest),
        Event::Give {
            party,
            inputs,
            outputs,
        } => {
            let outputs = outputs.value().as_slice();
            put_give(alloc, out, party, inputs.as_slice(), outputs)
        }
        Event::Append { bytes } => put_word_hex(alloc, out, b"append ", bytes.as_slice()),
        Event::FireInit { contract } => put_word_number(alloc, out, b"fire init ", *contract),
        Event::Fire { output, branch } => put_fire(alloc, out, *output, *branch),
        Event::Mine { blocks } => put_word_number(alloc, out, b"mine ", *blocks),
    }
}

/// The canonical line of an event, without its end.
pub fn print_event(alloc: Global, event: &Event) -> Result<Vec<u8>, OutOfMemory>
    ensures { IfOk result (λ text. text.items ≡ spec.event_text event.now) }
{
    let mut out = Vec::new(alloc);
    put_event(alloc, &mut out, event)?;
    Ok(out)
}

#[tactic(auto, using(std::proofs::Common::append_assoc))]
fn put_word_line(out: &mut Vec<u8>, word: &[u8], name: &Name) -> Result<(), OutOfMemory>
    ensures { OnOk result (out.new.items ≡ out.old.items ++ (word.now ++ (name.now ++ spec.newline))) }
{
    put(out, word)?;
    put(out, name.bytes())?;
    put(out, b"\n")
}

fn put_parties(out: &mut Vec<u8>, names: &[Name]) -> Result<(), OutOfMemory>
    ensures { OnOk result (out.new.items ≡ out.old.items ++ flat_map spec.party_text names.now) }
{
    for name in names {
        put_word_line(out, b"party ", name)?;
    }
    Ok(())
}

fn put_honest(out: &mut Vec<u8>, names: &[Name]) -> Result<(), OutOfMemory>
    ensures { OnOk result (out.new.items ≡ out.old.items ++ flat_map spec.honest_text names.now) }
{
    for name in names {
        put_word_line(out, b"honest ", name)?;
    }
    Ok(())
}

#[tactic(auto, using(std::proofs::Common::append_assoc))]
fn put_secret(alloc: Global, out: &mut Vec<u8>, secret: &HeldSecret) -> Result<(), OutOfMemory>
    ensures { OnOk result (out.new.items ≡ out.old.items ++ spec.secret_text secret.now) }
{
    put_word_name(out, b"secret ", &secret.party)?;
    put(out, secret.name.bytes())?;
    put(out, b" ")?;
    put_hex(alloc, out, secret.bytes.as_slice())?;
    put(out, b"\n")
}

fn put_secrets(alloc: Global, out: &mut Vec<u8>, secrets: &[HeldSecret]) -> Result<(), OutOfMemory>
    ensures { OnOk result (out.new.items ≡ out.old.items ++ flat_map spec.secret_text secrets.now) }
{
    for secret in secrets {
        put_secret(alloc, out, secret)?;
    }
    Ok(())
}

#[tactic(auto, using(std::proofs::Common::append_assoc))]
fn put_deposit(
    alloc: Global,
    out: &mut Vec<u8>,
    party: &Name,
    value: u64,
) -> Result<(), OutOfMemory>
    ensures { OnOk result (out.new.items ≡ out.old.items ++ spec.deposit_text (party.now, value)) }
{
    put_word_name(out, b"deposit ", party)?;
    put_decimal(alloc, out, value)?;
    put(out, b"\n")
}

fn put_deposits(
    alloc: Global,
    out: &mut Vec<u8>,
    deposits: &[(Name, u64)],
) -> Result<(), OutOfMemory>
    ensures { OnOk result (out.new.items ≡ out.old.items ++ flat_map spec.deposit_text deposits.now) }
{
    for (party, value) in deposits {
        put_deposit(alloc, out, party, *value)?;
    }
    Ok(())
}

/// The lines of a header, with the line `--` that ends it.
#[tactic(auto, using(std::proofs::Common::append_assoc))]
pub fn print_header(alloc: Global, header: &Header) -> Result<Vec<u8>, OutOfMemory>
    ensures { IfOk result (λ text. text.items ≡ spec.header_text header.now) }
{
    let mut out = Vec::new(alloc);
    put_parties(&mut out, header.parties.as_slice())?;
    put_honest(&mut out, header.honest.as_slice())?;
    put_secrets(alloc, &mut out, header.secrets.as_slice())?;
    put_deposits(alloc, &mut out, header.deposits.as_slice())?;
    put(&mut out, b"--\n")?;
    Ok(out)
}
