//! Words that rows share.

ghost use Rattle.std.specs.Prelude.{◌≡◌, ◌++◌, Some, OnOk, codes};
ghost use Rattle.spec_text.specs.Canonical.{joined, each_after};
ghost use Rattle.spec_page.specs.EventWords as spec;

use crate::places::{Place, Taking, at_branch, place_of};
use bm_keys::put_path;
use bm_runfile::put_branch;
use bm_text::{put, put_decimal};
use spec_data::{Bytes, Name, OutOfMemory};
use spec_tool::Which;
use std::alloc::Global;

// ---- lists

#[tactic(auto, using(std::proofs::Common::append_assoc))]
fn put_each_after(out: &mut Vec<u8>, between: &[u8], texts: &[Bytes]) -> Result<(), OutOfMemory>
    ensures { OnOk result (out.new.items ≡ out.old.items ++ each_after between.now texts.now) }
{
    for text in texts {
        put(out, between)?;
        put(out, text.as_slice())?;
    }
    Ok(())
}

/// Texts, with these bytes between two of them.
#[tactic(auto, using(std::proofs::Common::append_assoc))]
pub(crate) fn put_joined(
    out: &mut Vec<u8>,
    between: &[u8],
    texts: &[Bytes],
) -> Result<(), OutOfMemory>
    ensures { OnOk result (out.new.items ≡ out.old.items ++ joined between.now texts.now) }
{
    match texts.split_first() {
        None => Ok(()),
        Some((first, others)) => {
            put(out, first.as_slice())?;
            put_each_after(out, between, others)
        }
    }
}

// ---- names

/// The number of a contract before what is its, where there are several.
#[tactic(auto, using(std::proofs::Common::append_assoc))]
pub(crate) fn put_contract(
    alloc: Global,
    out: &mut Vec<u8>,
    several: bool,
    contract: u32,
) -> Result<(), OutOfMemory>
    ensures { OnOk result (out.new.items ≡ out.old.items ++ spec.contract_text several contract) }
{
    if !several {
        return Ok(());
    }
    put_decimal(alloc, out, contract as u64)?;
    put(out, b":")
}

fn put_which(alloc: Global, out: &mut Vec<u8>, which: &Which) -> Result<(), OutOfMemory>
    ensures { OnOk result (out.new.items ≡ out.old.items ++ spec.which_words which.now) }
{
    match which {
        Which::Init => put(out, b"init"),
        Which::At(path) => put_path(alloc, out, path.steps()),
    }
}

/// The name of a transaction.
#[tactic(auto, using(std::proofs::Common::append_assoc))]
pub(crate) fn put_taking(
    alloc: Global,
    out: &mut Vec<u8>,
    several: bool,
    taking: &Taking,
) -> Result<(), OutOfMemory>
    ensures { OnOk result (out.new.items ≡ out.old.items ++ spec.move_text several taking.now) }
{
    put_contract(alloc, out, several, taking.contract)?;
    put_which(alloc, out, &taking.which)
}

// That of a branch of the position that a place has.
fn put_placed(
    alloc: Global,
    out: &mut Vec<u8>,
    several: bool,
    output: u32,
    branch: u32,
    place: &Place,
) -> Result<(), OutOfMemory>
    ensures { OnOk result (out.new.items ≡ out.old.items ++ spec.placed_text several output branch (Some place.now)) }
{
    let taking = at_branch(alloc, place.contract, &place.position, branch)?;
    put_taking(alloc, out, several, &taking)
}

/// That of a branch of the position that an output stands for; the output and the branch where it stands for none.
pub(crate) fn put_way(
    alloc: Global,
    out: &mut Vec<u8>,
    several: bool,
    places: &[Place],
    output: u32,
    branch: u32,
) -> Result<(), OutOfMemory>
    ensures { OnOk result (out.new.items ≡ out.old.items ++ spec.way_text several places.now output branch) }
{
    match place_of(output, places) {
        None => put_branch(alloc, out, output, branch),
        Some(place) => put_placed(alloc, out, several, output, branch, place),
    }
}

#[tactic(auto, using(std::proofs::Common::append_assoc))]
pub(crate) fn put_advertise(
    alloc: Global,
    out: &mut Vec<u8>,
    several: bool,
    contract: u32,
) -> Result<(), OutOfMemory>
    ensures { OnOk result (out.new.items ≡ out.old.items ++ spec.advertise_text several contract) }
{
    put_contract(alloc, out, several, contract)?;
    put(out, b"advertise")
}

/// What a party does for a contract.
#[tactic(auto, using(std::proofs::Common::append_assoc))]
pub(crate) fn put_does(
    alloc: Global,
    out: &mut Vec<u8>,
    several: bool,
    contract: u32,
    party: &Name,
    does: &[u8],
) -> Result<(), OutOfMemory>
    ensures { OnOk result (out.new.items ≡ out.old.items ++ spec.does_text several contract party.now does.now) }
{
    put(out, party.bytes())?;
    put(out, does)?;
    if !several {
        return Ok(());
    }
    put(out, b" ")?;
    put_decimal(alloc, out, contract as u64)
}

#[tactic(auto, using(std::proofs::Common::append_assoc))]
pub(crate) fn put_shows(out: &mut Vec<u8>, party: &Name, secret: &Name) -> Result<(), OutOfMemory>
    ensures { OnOk result (out.new.items ≡ out.old.items ++ spec.shows_text party.now secret.now) }
{
    put(out, party.bytes())?;
    put(out, b" shows ")?;
    put(out, secret.bytes())
}

/// A party agrees to a transaction.
#[tactic(auto, using(std::proofs::Common::append_assoc))]
pub(crate) fn put_agrees(
    alloc: Global,
    out: &mut Vec<u8>,
    several: bool,
    party: &Name,
    taking: &Taking,
) -> Result<(), OutOfMemory>
    ensures { OnOk result (out.new.items ≡ out.old.items
        ++ (party.now ++ (codes " agrees to " ++ spec.move_text several taking.now))) }
{
    put(out, party.bytes())?;
    put(out, b" agrees to ")?;
    put_taking(alloc, out, several, taking)
}
