//! What is printed where a transaction can't be finished.

ghost use Rattle.std.specs.Prelude.{◌≡◌, ◌++◌, codes, OnOk};
ghost use Rattle.std.specs.Fmt.{decimal};
ghost use Rattle.spec_bitcoin.specs.Keys.{label_text as text_of_label};
ghost use Rattle.spec_text.specs.RunText.{newline};
ghost use Rattle.spec_deal.specs.RefusedText as spec;
ghost use Rattle.deal_finish.specs.Refusals as texts;

use bm_keys::{label_text, put_path};
use bm_text::{put, put_decimal};
use spec_bitcoin::Label;
use spec_data::{Name, OutOfMemory};
use spec_deal::FinishRefusal;
use spec_terms::Path;
use std::alloc::Global;

// An endorsement that is missing.
#[tactic(auto, using(std::proofs::Common::append_assoc))]
fn put_endorsement(
    alloc: Global,
    out: &mut Vec<u8>,
    path: &Path,
    party: &Name,
) -> Result<(), OutOfMemory>
    ensures { OnOk result (out.new.items ≡ out.old.items ++ texts.endorsement_text path.now party.now) }
{
    put(out, b"endorsement ")?;
    put_path(alloc, out, path.steps())?;
    put(out, b" ")?;
    put(out, party.bytes())
}

// A signature that is missing.
#[tactic(auto, using(std::proofs::Common::append_assoc))]
fn put_signature(
    alloc: Global,
    out: &mut Vec<u8>,
    input: u32,
    label: &Label,
) -> Result<(), OutOfMemory>
    ensures { OnOk result (out.new.items ≡ out.old.items ++ texts.signature_text input label.now) }
{
    put(out, b"signature ")?;
    put_decimal(alloc, out, input as u64)?;
    put(out, b" ")?;
    let text = label_text(alloc, label)?;
    put(out, &text)
}

// A wallet's witness that is missing.
#[tactic(auto, using(std::proofs::Common::append_assoc))]
fn put_wallet(
    alloc: Global,
    out: &mut Vec<u8>,
    input: u32,
    deposit: &Name,
) -> Result<(), OutOfMemory>
    ensures { OnOk result (out.new.items ≡ out.old.items ++ texts.wallet_text input deposit.now) }
{
    put(out, b"signature ")?;
    put_decimal(alloc, out, input as u64)?;
    put(out, b" W:")?;
    put(out, deposit.bytes())
}

// Why a transaction isn't finished.
#[tactic(auto, using(std::proofs::Common::append_assoc))]
fn put_reason(alloc: Global, out: &mut Vec<u8>, refusal: &FinishRefusal) -> Result<(), OutOfMemory>
    ensures { OnOk result (out.new.items ≡ out.old.items ++ texts.reason_text refusal.now) }
{
    match refusal {
        FinishRefusal::Endorsement(path, party) => put_endorsement(alloc, out, path, party),
        FinishRefusal::Signature(input, label) => put_signature(alloc, out, *input, label),
        FinishRefusal::Wallet(input, deposit) => put_wallet(alloc, out, *input, deposit),
        FinishRefusal::Secret(name) => {
            put(out, b"secret ")?;
            put(out, name.bytes())
        }
        FinishRefusal::Predicate => put(out, b"predicate"),
    }
}

/// Writes the line that says why a transaction isn't finished.
#[tactic(auto, using(std::proofs::Common::append_assoc))]
pub fn put_finish_refused(
    alloc: Global,
    out: &mut Vec<u8>,
    refusal: &FinishRefusal,
) -> Result<(), OutOfMemory>
    ensures { OnOk result (out.new.items ≡ out.old.items ++ spec.finish_refused_line refusal.now) }
{
    put(out, b"refused ")?;
    put_reason(alloc, out, refusal)?;
    put(out, b"\n")
}
