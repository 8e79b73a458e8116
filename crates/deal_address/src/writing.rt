//! Addresses from scripts.

ghost use Rattle.std.specs.Prelude.{◌≡◌, ◌∷◌, IfOk};
ghost use Rattle.spec_address.specs.Address as spec;

use crate::checksum::check_values;
use crate::groups::groups_of;
use crate::letters::put_letters;
use crate::outputs::{is_witness_output, version_of};
use bm_text::put;
use spec_data::{Bytes, OutOfMemory};
use std::alloc::Global;

/// The most characters of an address.
pub(crate) const MOST_CHARACTERS: usize = 90;

// The version, and the groups behind it.
fn versioned(alloc: Global, version: u8, groups: &[u8]) -> Result<Vec<u8>, OutOfMemory>
    ensures { IfOk result (λ values. values.items ≡ version ∷ groups.now) }
{
    let mut values = Vec::new(alloc);
    values.push(version)?;
    values.extend_from_slice(groups)?;
    Ok(values)
}

/// The text of a version and the groups of a program.
#[tactic(auto, using(std::proofs::Common::append_assoc))]
pub(crate) fn text_of(
    alloc: Global,
    hrp: &[u8],
    version: u8,
    groups: &[u8],
) -> Result<Vec<u8>, OutOfMemory>
    ensures { IfOk result (λ text. text.items ≡ spec.text_of hrp.now version groups.now) }
{
    let values = versioned(alloc, version, groups)?;
    let check = check_values(hrp, version, &values);
    let mut text = Vec::new(alloc);
    put(&mut text, hrp)?;
    text.push(b'1')?;
    put_letters(&mut text, &values)?;
    put_letters(&mut text, &check)?;
    Ok(text)
}

/// The address of a script for the network of a human-readable part, in small letters where that is: by BIP 173 for version
/// 0, by BIP 350 for the versions 1 to 16. There is none of a script of another kind, nor of more than 90 characters.
#[tactic(auto, unfolding(spec_address::specs::Address::address))]
pub fn address(alloc: Global, hrp: &[u8], script: &[u8]) -> Result<Option<Bytes>, OutOfMemory>
    ensures { IfOk result (λ text. text ≡ spec.address hrp.now script.now) }
{
    if !is_witness_output(script) {
        return Ok(None);
    }
    let groups = groups_of(alloc, &script[2..])?;
    let text = text_of(alloc, hrp, version_of(script[0]), &groups)?;
    if text.len() > MOST_CHARACTERS {
        return Ok(None);
    }
    Ok(Some(Bytes::of(text)))
}
