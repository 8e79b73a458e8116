//! The check of an advert.

ghost use Rattle.std.specs.Prelude.{◌≡◌, true, IfOk, IfErr};
ghost use Rattle.spec_terms.specs.Faults.{IsWellFormed};
ghost use Rattle.spec_terms.specs.Readable.{is_readable};
ghost use Rattle.bm_wellformed.specs.Refused.{IsRefused};

use crate::checked::Checked;
use crate::judging::{first_fault, first_limit};
use bm_syntax::{Advert, Limit, participants};
use spec_data::OutOfMemory;
use spec_terms::Place;
use std::alloc::Global;

/// Why an advert isn't taken.
#[derive(Drop)]
pub enum CheckError {
    /// The number of the first fault, with its place.
    Fault(u8, Place),
    /// The first limit that is exceeded, where there is no fault, with its place.
    Limit(Limit, Place),
    Memory,
}

impl From<OutOfMemory> for CheckError {
    ghost use Rattle.std.specs.Prelude.{◌≡◌};
    ghost use Rattle.bm_wellformed.specs.declared.checking.CheckError.TheVariants.{Memory};

    ghost from_gives = { λ _ e. e ≡ Memory };

    fn from(_: OutOfMemory) -> CheckError {
        CheckError::Memory
    }
}

/// The checked advert, or its first fault by number, or without a fault the first limit that it exceeds.
/// On a refusal the advert is dropped.
#[tactic(auto, using(crate::proofs::Searchable::searchable, crate::proofs::Searchable::few_participants))]
pub fn check(alloc: Global, advert: Advert) -> Result<Checked, CheckError>
    requires { is_readable advert ≡ true }
    ensures value { IfOk result (λ checked. checked ≡ advert) }
    ensures well_formed { IfOk result (λ _. IsWellFormed advert) }
    ensures refused { IfErr result (IsRefused advert) }
{
    let parties = participants(alloc, &advert)?;
    if let Some((number, place)) = first_fault(alloc, &advert, parties.as_slice())? {
        return Err(CheckError::Fault(number, place));
    }
    if let Some((limit, place)) = first_limit(alloc, &advert, parties.as_slice())? {
        return Err(CheckError::Limit(limit, place));
    }
    Ok(Checked::of(advert, parties))
}
