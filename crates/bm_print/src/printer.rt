//! The canonical text of an advert.

ghost use Rattle.std.specs.Prelude.{◌≡◌, IfOk};
ghost use Rattle.spec_text.specs.Canonical.{advert_text};

use crate::contract::put_contract;
use crate::precondition::{put_entries, put_fee};
use bm_syntax::Advert;
use bm_text::put;
use spec_data::OutOfMemory;
use std::alloc::Global;

/// The canonical text of an advert, in one line without its end.
#[tactic(auto, using(std::proofs::Common::append_assoc))]
pub fn print_advert(alloc: Global, advert: &Advert) -> Result<Vec<u8>, OutOfMemory>
    ensures { IfOk result (λ text. text.items ≡ advert_text advert.now) }
{
    let mut out = Vec::new(alloc);
    put(&mut out, b"{")?;
    put_entries(&mut out, &advert.pre)?;
    put(&mut out, b"} ")?;
    put_fee(&mut out, advert.fee)?;
    put_contract(&mut out, &advert.root)?;
    Ok(out)
}
