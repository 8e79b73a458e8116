//! The lines of signatures.

ghost use Rattle.std.specs.Prelude.{◌≡◌, ◌++◌, codes, None, option_map, OnOk};
ghost use Rattle.std.specs.Fmt.{decimal};
ghost use Rattle.spec_data.specs.Digits.{hex_text};
ghost use Rattle.spec_deal.specs.DealText.{verb_text};
ghost use Rattle.spec_deal.specs.Wallets.{signer_text};
ghost use Rattle.deal_missing.specs.Required as spec;

use crate::looking::party_of;
use crate::requirements::Wanted;
use bm_keys::put_label;
use bm_text::{put, put_decimal, put_hex};
use spec_bitcoin::Label;
use spec_data::OutOfMemory;
use spec_deal::{Verb, Wallet};
use std::alloc::Global;
use tool_which::put_which;

fn put_verb(out: &mut Vec<u8>, verb: Verb) -> Result<(), OutOfMemory>
    ensures { OnOk result (out.new.items ≡ out.old.items ++ verb_text verb) }
{
    match verb {
        Verb::Init => put(out, b"init"),
        Verb::Authorise => put(out, b"authorise"),
        Verb::Endorse => put(out, b"endorse"),
    }
}

// `D:A`, .. of a key, `W:x` of a wallet
#[tactic(auto, using(std::proofs::Common::append_assoc))]
fn put_signer(
    alloc: Global,
    out: &mut Vec<u8>,
    wallet: &Option<Wallet>,
    label: &Label,
) -> Result<(), OutOfMemory>
    ensures { OnOk result (out.new.items ≡ out.old.items ++ signer_text wallet.now label.now) }
{
    match wallet {
        None => put_label(alloc, out, label),
        Some(wallet) => {
            put(out, b"W:")?;
            put(out, wallet.deposit.bytes())
        }
    }
}

/// `WHICH k LABEL VERB`
#[tactic(auto, using(std::proofs::Common::append_assoc))]
pub(crate) fn put_requirement(
    alloc: Global,
    out: &mut Vec<u8>,
    requirement: &Wanted,
) -> Result<(), OutOfMemory>
    ensures { OnOk result (out.new.items ≡ out.old.items ++ spec.required_text (spec.wanted_in requirement.now)) }
{
    put_which(alloc, out, &requirement.transaction.which)?;
    put(out, b" ")?;
    put_decimal(alloc, out, requirement.number as u64)?;
    put(out, b" ")?;
    put_signer(
        alloc,
        out,
        &requirement.input.wallet,
        &requirement.signer.label,
    )?;
    put(out, b" ")?;
    put_verb(out, requirement.signer.verb)
}

/// `missing WHICH k LABEL VERB`
#[tactic(auto, using(std::proofs::Common::append_assoc))]
pub(crate) fn put_missing(
    alloc: Global,
    out: &mut Vec<u8>,
    requirement: &Wanted,
) -> Result<(), OutOfMemory>
    ensures { OnOk result (out.new.items ≡ out.old.items ++ spec.missing_line (spec.wanted_in requirement.now)) }
{
    put(out, b"missing ")?;
    put_requirement(alloc, out, requirement)?;
    put(out, b"\n")
}

/// `unverified WHICH k LABEL VERB`
#[tactic(auto, using(std::proofs::Common::append_assoc))]
pub(crate) fn put_unverified(
    alloc: Global,
    out: &mut Vec<u8>,
    requirement: &Wanted,
) -> Result<(), OutOfMemory>
    ensures { OnOk result (out.new.items ≡ out.old.items ++ spec.unverified_line (spec.wanted_in requirement.now)) }
{
    put(out, b"unverified ")?;
    put_requirement(alloc, out, requirement)?;
    put(out, b"\n")
}

// `KEY DIGEST SIGNATURE`
#[tactic(auto, using(std::proofs::Common::append_assoc))]
fn put_proof(
    alloc: Global,
    out: &mut Vec<u8>,
    requirement: &Wanted,
    key: &[u8],
    signature: &[u8],
) -> Result<(), OutOfMemory>
    ensures { OnOk result (out.new.items ≡ out.old.items ++ spec.proof_text (spec.wanted_in requirement.now) key.now signature.now) }
{
    put_hex(alloc, out, key)?;
    put(out, b" ")?;
    put_hex(alloc, out, &requirement.input.digest)?;
    put(out, b" ")?;
    put_hex(alloc, out, signature)
}

/// `held WHICH k LABEL VERB KEY DIGEST SIGNATURE`
#[tactic(auto, using(std::proofs::Common::append_assoc))]
pub(crate) fn put_held(
    alloc: Global,
    out: &mut Vec<u8>,
    requirement: &Wanted,
    key: &[u8],
    signature: &[u8],
) -> Result<(), OutOfMemory>
    ensures { OnOk result (out.new.items ≡ out.old.items ++ spec.held_line (spec.wanted_in requirement.now) key.now signature.now) }
{
    put(out, b"held ")?;
    put_requirement(alloc, out, requirement)?;
    put(out, b" ")?;
    put_proof(alloc, out, requirement, key, signature)?;
    put(out, b"\n")
}

// The initial transaction may be signed.
fn put_start(out: &mut Vec<u8>, unverified: bool) -> Result<(), OutOfMemory>
    ensures { OnOk result (out.new.items ≡ out.old.items ++ spec.gate_line unverified None) }
{
    if unverified {
        put(out, b"init may be signed once the unverified are checked\n")
    } else {
        put(out, b"init may be signed\n")
    }
}

/// Whether the initial transaction may be signed, and whether some endorsement isn't verified; or whose endorsement is missing.
#[tactic(auto, using(std::proofs::Common::append_assoc))]
pub(crate) fn put_gate(
    alloc: Global,
    out: &mut Vec<u8>,
    unverified: bool,
    requirement: Option<&Wanted>,
) -> Result<(), OutOfMemory>
    ensures { OnOk result (out.new.items ≡ out.old.items
        ++ spec.gate_line unverified (option_map (λ w. spec.wanted_in w.now) requirement.entry)) }
{
    match requirement {
        Some(requirement) => {
            put(out, b"init not endorsed ")?;
            put_which(alloc, out, &requirement.transaction.which)?;
            put(out, b" ")?;
            put(out, party_of(&requirement.signer.label).bytes())?;
            put(out, b"\n")
        }
        None => put_start(out, unverified),
    }
}
