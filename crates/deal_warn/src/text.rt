//! What `warn` prints.

ghost use Rattle.std.specs.Prelude.{◌≡◌, ◌++◌, ℕ, List, flat_map, IfOk, OnOk};
ghost use Rattle.spec_compiler.specs.Keyed.Compilation.{scripts as scripts_of};
ghost use Rattle.spec_compiler.specs.Keyed.Instance.{Instance};
ghost use Rattle.spec_compiler.specs.Keyed.Keys.{Keys};
ghost use Rattle.spec_deal.specs.Transactions.{transactions as transactions_of};
ghost use Rattle.spec_deal.specs.WarnText.{warn_text as text_of};
ghost use Rattle.deal_warn.specs.Warned as spec;

use crate::lines::put_count;
use crate::warnings::warnings;
use bm_text::put;
use bm_wellformed::Checked;
use deal_secrets::Strings;
use spec_data::{Bytes, OutOfMemory};
use spec_deal::Transaction;
use spec_terms::Path;
use std::alloc::Global;

fn put_lines(out: &mut Vec<u8>, lines: &[Bytes]) -> Result<(), OutOfMemory>
    ensures { OnOk result (out.new.items ≡ out.old.items ++ flat_map (λ line. line) lines.now) }
{
    for line in lines {
        put(out, line.as_slice())?;
    }
    Ok(())
}

// The lines, and how many they are.
#[tactic(auto, using(std::proofs::Common::append_assoc))]
fn text_of(alloc: Global, lines: &[Bytes]) -> Result<Vec<u8>, OutOfMemory>
    ensures { IfOk result (λ text. text.items ≡ spec.text_of lines.now) }
{
    let mut out = Vec::new(alloc);
    put_lines(&mut out, lines)?;
    put_count(alloc, &mut out, lines.len() as u64)?;
    Ok(out)
}

// The same, by what is known of the transactions.
fn told(
    alloc: Global,
    checked: &Checked,
    scripts: &[(Path, Bytes)],
    transactions: &[Transaction],
    strings: &Strings,
) -> Result<Vec<u8>, OutOfMemory>
    ensures { IfOk result (λ text. text.items
        ≡ spec.text_of (spec.warnings_by checked.now scripts.now transactions.now strings.now)) }
{
    let lines = warnings(alloc, checked, scripts, transactions, strings)?;
    text_of(alloc, &lines)
}

/// What nodes wouldn't relay of a deal, a line for each, and how many lines there are. Without a file of secrets there are no strings.
/// A transaction of 4 GiB or more, and values of more than 64 bits together, count as out of memory.
pub fn warn_text(
    alloc: Global,
    checked: &Checked,
    transactions: &[Transaction],
    scripts: &[(Path, Bytes)],
    strings: &Strings,
) -> Result<Vec<u8>, OutOfMemory>
    ensures { (hash : List ℕ → List ℕ) (keys : Keys) (s : Instance) → s.advert ≡ checked.now
        → transactions.now ≡ transactions_of hash keys s → scripts.now ≡ scripts_of hash keys s
        → IfOk result (λ text. text.items ≡ text_of hash keys s strings.now) }
{
    told(alloc, checked, scripts, transactions, strings)
}
