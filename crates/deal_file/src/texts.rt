//! The template of a deal file.

ghost use Rattle.std.specs.Prelude.{◌≡◌, ◌++◌, IfOk, OnOk};
ghost use Rattle.std.specs.List.{flat_map};
ghost use Rattle.spec_text.specs.RunText.{newline};
ghost use Rattle.spec_deal.specs.DealText as spec;
ghost use Rattle.deal_file.specs.Texts as texts;

use crate::needs::needed;
use bm_keys::put_label;
use bm_text::put;
use bm_wellformed::Checked;
use spec_data::OutOfMemory;
use spec_deal::Needed;
use std::alloc::Global;

/// Writes what is needed, without what is to be given.
#[tactic(auto, using(std::proofs::Common::append_assoc))]
pub fn put_needed(alloc: Global, out: &mut Vec<u8>, needed: &Needed) -> Result<(), OutOfMemory>
    ensures { OnOk result (out.new.items ≡ out.old.items ++ texts.needed_text needed.now) }
{
    match needed {
        Needed::Key(label) => {
            put(out, b"key ")?;
            put_label(alloc, out, label)
        }
        Needed::Deposit(name) => {
            put(out, b"deposit ")?;
            put(out, name.bytes())
        }
        Needed::Hash(name) => {
            put(out, b"hash ")?;
            put(out, name.bytes())
        }
        Needed::Network => put(out, b"network"),
        Needed::Payee(party) => {
            put(out, b"pay ")?;
            put(out, party.bytes())
        }
    }
}

// The line of a need, with a blank for each word that is to be given.
#[tactic(auto, using(std::proofs::Common::append_assoc))]
fn put_blank_line(alloc: Global, out: &mut Vec<u8>, needed: &Needed) -> Result<(), OutOfMemory>
    ensures { OnOk result (out.new.items ≡ out.old.items ++ texts.blank_line needed.now) }
{
    put_needed(alloc, out, needed)?;
    match needed {
        Needed::Key(_) => put(out, b" ..\n"),
        Needed::Deposit(_) => put(out, b" .. ..\n"),
        Needed::Hash(_) => put(out, b" ..\n"),
        Needed::Network => put(out, b" ..\n"),
        Needed::Payee(_) => put(out, b" ..\n"),
    }
}

// The lines of these needs.
#[tactic(auto, using(std::proofs::Common::append_assoc))]
fn put_blank_lines(alloc: Global, out: &mut Vec<u8>, needs: &[Needed]) -> Result<(), OutOfMemory>
    ensures { OnOk result (out.new.items ≡ out.old.items ++ flat_map texts.blank_line needs.now) }
{
    for needed in needs {
        put_blank_line(alloc, out, needed)?;
    }
    Ok(())
}

/// The deal file of a contract, with a blank for each word that is to be given.
pub fn keys_text(alloc: Global, checked: &Checked) -> Result<Vec<u8>, OutOfMemory>
    ensures { IfOk result (λ text. text.items ≡ spec.keys_text checked.now) }
{
    let needs = needed(alloc, checked)?;
    let mut out = Vec::new(alloc);
    put_blank_lines(alloc, &mut out, &needs)?;
    Ok(out)
}
