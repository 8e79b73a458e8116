//! The secrets that a branch reveals.

ghost use Rattle.std.specs.Prelude.{◌≡◌, ◌-◌, ◌≤◌, not, is_some, true, length, All, IfOk};
ghost use Rattle.std.specs.List.{find};
ghost use Rattle.spec_data.specs.Ranges.{least_secret_bytes, most_item_bytes};
ghost use Rattle.spec_terms.specs.Bound.{is_bounded};
ghost use Rattle.spec_terms.specs.Core as terms;
ghost use Rattle.spec_terms.specs.Core.{core as core_of};
ghost use Rattle.spec_terms.specs.Value.{holds};
ghost use Rattle.spec_compiler.specs.Keyed.Statements.{secret_lengths};
ghost use Rattle.spec_deal.specs.SecretFile.{string_for};
ghost use Rattle.spec_deal.specs.Finished as spec;
ghost use Rattle.bm_syntax.specs.View.{guarded, test as test_view};
ghost use Rattle.deal_finish.specs.Filled.{fits_by};

use bm_pred::value;
use bm_syntax::{Guarded, Pred, core};
use deal_secrets::Strings;
use spec_data::{Bytes, LEAST_SECRET_BYTES, Name, OutOfMemory};
use std::alloc::Global;

// The string of a secret, nothing without one.
fn string_or_none(alloc: Global, strings: &Strings, name: &Name) -> Result<Bytes, OutOfMemory>
    ensures { IfOk result (λ b. b ≡ spec.bytes_or_none (string_for strings.now name.now)) }
{
    match strings.string(name) {
        Some(bytes) => Ok(bytes.copy(alloc)?),
        None => Ok(Bytes::of(Vec::new(alloc))),
    }
}

/// The strings of the secrets of these names.
pub(crate) fn strings_of(
    alloc: Global,
    strings: &Strings,
    names: &[Name],
) -> Result<Vec<Bytes>, OutOfMemory>
    ensures { IfOk result (λ all. all.items ≡ spec.strings_of strings.now names.now) }
{
    let mut all = Vec::new(alloc);
    for name in names {
        all.push(string_or_none(alloc, strings, name)?)?;
    }
    Ok(all)
}

/// The first of these secrets that isn't there.
pub(crate) fn first_hidden(strings: &Strings, names: &[Name]) -> Option<Name>
    ensures { result ≡ find (λ name. not (is_some (string_for strings.now name))) names.now }
{
    for name in names {
        if strings.string(name).is_none() {
            return Some(*name);
        }
    }
    None
}

// The length of a secret, which is its byte count less the fewest bytes that one may have.
fn length_of(strings: &Strings, name: &Name) -> u32
    ensures exact { result ≡ length (spec.bytes_or_none (string_for strings.now name.now)) - least_secret_bytes }
    ensures short { result ≤ most_item_bytes }
{
    match strings.string(name) {
        Some(bytes) => (bytes.as_slice().len() as u32).saturating_sub(LEAST_SECRET_BYTES as u32),
        None => 0,
    }
}

// The lengths of the secrets of these names.
fn lengths_of(
    alloc: Global,
    strings: &Strings,
    names: &[Name],
) -> Result<Vec<(Name, u32)>, OutOfMemory>
    ensures exact { IfOk result (λ all. all.items ≡ secret_lengths names.now (spec.strings_of strings.now names.now)) }
    ensures short { IfOk result (λ all. All (λ entry. entry.1 ≤ most_item_bytes) all.items) }
{
    let mut all = Vec::new(alloc);
    for name in names {
        all.push((*name, length_of(strings, name)))?;
    }
    Ok(all)
}

// Whether a predicate is true of the lengths of the secrets of these names.
fn holds_of(
    alloc: Global,
    strings: &Strings,
    names: &[Name],
    test: &Pred,
) -> Result<bool, OutOfMemory>
    requires { is_bounded (test_view test.now) ≡ true }
    ensures { IfOk result (λ b. b ≡ holds (secret_lengths names.now (spec.strings_of strings.now names.now)) (test_view test.now)) }
{
    let lengths = lengths_of(alloc, strings, names)?;
    Ok(value(test, &lengths))
}

// Whether there are no names, or a predicate is true of their secrets.
fn fits_of(
    alloc: Global,
    strings: &Strings,
    names: &[Name],
    test: &Pred,
) -> Result<bool, OutOfMemory>
    requires { is_bounded (test_view test.now) ≡ true }
    ensures { IfOk result (λ b. b ≡ fits_by strings.now names.now (test_view test.now)) }
{
    if names.is_empty() {
        return Ok(true);
    }
    holds_of(alloc, strings, names, test)
}

/// Whether a branch reveals no secrets, or its predicate is true of them.
pub fn do_fit(alloc: Global, strings: &Strings, branch: &Guarded) -> Result<bool, OutOfMemory>
    requires { is_bounded (terms.test_of (core_of (guarded branch.now))) ≡ true }
    ensures { IfOk result (λ b. b ≡ fits_by strings.now (terms.reveals_of (core_of (guarded branch.now)))
        (terms.test_of (core_of (guarded branch.now)))) }
{
    match core(branch) {
        Guarded::PutReveal { reveals, test, .. } => fits_of(alloc, strings, reveals, test),
        _ => Ok(true),
    }
}
