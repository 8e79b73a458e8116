//! Which signatures are there.

ghost use Rattle.std.specs.Prelude.{◌≡◌, map, not, option_map, IfOk};
ghost use Rattle.std.specs.List.{find, list_any};
ghost use Rattle.spec_deal.specs.Finished.{label_party};
ghost use Rattle.spec_deal.specs.Slots as slots;
ghost use Rattle.deal_missing.specs.Required as spec;

use crate::requirements::Wanted;
use deal_signatures::Given;
use spec_bitcoin::Label;
use spec_data::{Bytes, Name, OutOfMemory, Seq};
use spec_deal::Verb;
use std::alloc::Global;

// ---- one

/// The signature that is needed, where it is there.
pub(crate) fn signature_of<'a>(
    alloc: Global,
    given: &'a Given,
    requirement: &Wanted,
) -> Result<Option<&'a Bytes>, OutOfMemory>
    ensures { IfOk result (λ o. option_map (λ s. s.now) o ≡ spec.signature_of given.now (spec.wanted_in requirement.now)) }
{
    let tx = requirement.transaction.bytes.as_slice();
    given.signature(alloc, tx, requirement.number, &requirement.signer.key)
}

/// The items of the witness that is needed, where it is there.
pub(crate) fn witness_of<'a>(
    alloc: Global,
    given: &'a Given,
    requirement: &Wanted,
) -> Result<Option<&'a Seq<Bytes>>, OutOfMemory>
    ensures { IfOk result (λ o. option_map (λ s. s.now) o ≡ spec.witness_of given.now (spec.wanted_in requirement.now)) }
{
    let tx = requirement.transaction.bytes.as_slice();
    given.witness(alloc, tx, requirement.number, &requirement.signer.key)
}

/// Whether the signature or witness that is needed is there.
pub fn is_there(alloc: Global, given: &Given, requirement: &Wanted) -> Result<bool, OutOfMemory>
    ensures { IfOk result (λ b. b ≡ spec.is_there given.now (spec.wanted_in requirement.now)) }
{
    Ok(signature_of(alloc, given, requirement)?.is_some())
}

/// Whether it has to be there before anyone signs the initial transaction.
pub fn is_endorsement(verb: Verb) -> bool
    ensures { result ≡ slots.is_endorsement verb }
{
    match verb {
        Verb::Endorse => true,
        Verb::Authorise => false,
        Verb::Init => false,
    }
}

/// Whose key a label names.
pub fn party_of(label: &Label) -> &Name
    ensures { result.now ≡ label_party label.now }
{
    match label {
        Label::Deposit { party } => party,
        Label::Branch { party, .. } => party,
    }
}

// Whether it is an endorsement that isn't there.
fn is_unendorsed(alloc: Global, given: &Given, requirement: &Wanted) -> Result<bool, OutOfMemory>
    ensures { IfOk result (λ b. b ≡ spec.is_unendorsed given.now (spec.wanted_in requirement.now)) }
{
    if !is_endorsement(requirement.signer.verb) {
        return Ok(false);
    }
    Ok(!is_there(alloc, given, requirement)?)
}

/// Whether it is an endorsement by a wallet.
pub(crate) fn is_wallets(requirement: &Wanted) -> bool
    ensures { result ≡ spec.is_wallets (spec.wanted_in requirement.now) }
{
    is_endorsement(requirement.signer.verb) && requirement.input.wallet.is_some()
}

/// Whether it is one that is there, so that it isn't verified whole.
pub(crate) fn is_unverified(
    alloc: Global,
    given: &Given,
    requirement: &Wanted,
) -> Result<bool, OutOfMemory>
    ensures { IfOk result (λ b. b ≡ spec.is_unverified given.now (spec.wanted_in requirement.now)) }
{
    if !is_wallets(requirement) {
        return Ok(false);
    }
    is_there(alloc, given, requirement)
}

// ---- of many

/// Whether some of these is an endorsement by a wallet and there.
pub(crate) fn any_unverified(
    alloc: Global,
    given: &Given,
    requirements: &[Wanted],
) -> Result<bool, OutOfMemory>
    ensures { IfOk result (λ b. b ≡ list_any (spec.is_unverified given.now) (map spec.wanted_in requirements.now)) }
{
    for requirement in requirements {
        if is_unverified(alloc, given, requirement)? {
            return Ok(true);
        }
    }
    Ok(false)
}

/// The first of these that is an endorsement and isn't there.
pub(crate) fn first_without<'a, 'b>(
    alloc: Global,
    given: &Given,
    requirements: &'b [Wanted<'a>],
) -> Result<Option<&'b Wanted<'a>>, OutOfMemory>
    ensures { IfOk result (λ o. option_map (λ w. spec.wanted_in w.now) o
        ≡ find (spec.is_unendorsed given.now) (map spec.wanted_in requirements.now)) }
{
    for requirement in requirements {
        if is_unendorsed(alloc, given, requirement)? {
            return Ok(Some(requirement));
        }
    }
    Ok(None)
}

/// The first of these that isn't there.
pub(crate) fn first_lacking<'a, 'b>(
    alloc: Global,
    given: &Given,
    requirements: &'b [Wanted<'a>],
) -> Result<Option<&'b Wanted<'a>>, OutOfMemory>
    ensures { IfOk result (λ o. option_map (λ w. spec.wanted_in w.now) o
        ≡ find (λ w. not (spec.is_there given.now w)) (map spec.wanted_in requirements.now)) }
{
    for requirement in requirements {
        if !is_there(alloc, given, requirement)? {
            return Ok(Some(requirement));
        }
    }
    Ok(None)
}
