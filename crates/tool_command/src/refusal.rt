//! Why a contract is refused, in words.

ghost use Rattle.std.specs.Prelude.{◌≡◌, ◌++◌, OnOk};
ghost use Rattle.spec_text.specs.Refusals.{limit_text, place_text, fault_name, fault_text, text_fault_text, exceeded_text};
ghost use Rattle.spec_text.specs.Refusals.{too_long_text, contract_refused_line};

use bm_keys::put_path;
use bm_syntax::Limit;
use bm_text::{put, put_decimal};
use spec_data::{MOST_TEXT_BYTES, OutOfMemory};
use spec_terms::Place;
use spec_text::TextFault;
use std::alloc::Global;

/// The name of a limit.
fn limit_text(limit: Limit) -> &'static [u8]
    ensures { result.now ≡ limit_text limit }
{
    match limit {
        Limit::Name => b"Name",
        Limit::Number => b"Number",
        Limit::Depth => b"Depth",
        Limit::Branches => b"Branches",
        Limit::Choice => b"Choice",
        Limit::Split => b"Split",
        Limit::Deposits => b"Deposits",
        Limit::Secrets => b"Secrets",
        Limit::Participants => b"Participants",
        Limit::Balance => b"Balance",
        Limit::Expression => b"Expression",
        Limit::Script => b"Script",
    }
}

/// The name of the fault of this number, from 1 on.
fn fault_name(number: u8) -> &'static [u8]
    ensures { result.now ≡ fault_name number }
{
    match number {
        1 => b"NameRepeated",
        2 => b"UnknownDeposit",
        3 => b"UnknownSecret",
        4 => b"PrefixRepeated",
        5 => b"PredicateSecret",
        6 => b"NoPersistent",
        7 => b"SplitSum",
        8 => b"FeeShort",
        _ => b"",
    }
}

/// Where an advert has a fault or exceeds a limit.
#[tactic(auto, using(std::proofs::Common::append_assoc))]
fn put_place(alloc: Global, out: &mut Vec<u8>, place: &Place) -> Result<(), OutOfMemory>
    ensures { OnOk result (out.new.items ≡ out.old.items ++ place_text place.now) }
{
    match place {
        Place::Pre(number) => {
            put(out, b"pre ")?;
            put_decimal(alloc, out, *number as u64)
        }
        Place::Branch(path) => put_path(alloc, out, path.steps()),
        Place::Position(path) => put_path(alloc, out, path.steps()),
        Place::Party(name) => put(out, name.bytes()),
        Place::Count(count) => put_decimal(alloc, out, *count as u64),
    }
}

/// A fault of the advert, by its number.
#[tactic(auto, using(std::proofs::Common::append_assoc))]
pub fn put_fault(
    alloc: Global,
    out: &mut Vec<u8>,
    number: u8,
    place: &Place,
) -> Result<(), OutOfMemory>
    ensures { OnOk result (out.new.items ≡ out.old.items ++ fault_text number place.now) }
{
    put(out, b"fault ")?;
    put_decimal(alloc, out, number as u64)?;
    put(out, b" ")?;
    put(out, fault_name(number))?;
    put(out, b" ")?;
    put_place(alloc, out, place)
}

/// A limit that the advert exceeds.
#[tactic(auto, using(std::proofs::Common::append_assoc))]
pub fn put_exceeded(
    alloc: Global,
    out: &mut Vec<u8>,
    limit: Limit,
    place: &Place,
) -> Result<(), OutOfMemory>
    ensures { OnOk result (out.new.items ≡ out.old.items ++ exceeded_text limit place.now) }
{
    put(out, b"limit ")?;
    put(out, limit_text(limit))?;
    put(out, b" ")?;
    put_place(alloc, out, place)
}

/// Why the text spells no advert, with the place in bytes.
#[tactic(auto, using(std::proofs::Common::append_assoc))]
pub fn put_text_fault(alloc: Global, out: &mut Vec<u8>, fault: TextFault) -> Result<(), OutOfMemory>
    ensures { OnOk result (out.new.items ≡ out.old.items ++ text_fault_text fault) }
{
    match fault {
        TextFault::BadByte(place) => {
            put(out, b"byte ")?;
            put_decimal(alloc, out, place as u64)
        }
        TextFault::Syntax(place) => {
            put(out, b"syntax ")?;
            put_decimal(alloc, out, place as u64)
        }
        TextFault::Limit(limit, place) => {
            put(out, b"limit ")?;
            put(out, limit_text(limit))?;
            put(out, b" ")?;
            put_decimal(alloc, out, place as u64)
        }
    }
}

/// The text has too many bytes.
#[tactic(auto, using(std::proofs::Common::append_assoc))]
pub fn put_too_long(alloc: Global, out: &mut Vec<u8>) -> Result<(), OutOfMemory>
    ensures { OnOk result (out.new.items ≡ out.old.items ++ too_long_text) }
{
    put(out, b"limit Text ")?;
    put_decimal(alloc, out, MOST_TEXT_BYTES as u64)
}

/// The line on the contract of this number that is refused.
#[tactic(auto, using(std::proofs::Common::append_assoc))]
pub fn put_contract_refused(
    alloc: Global,
    out: &mut Vec<u8>,
    number: u64,
    why: &[u8],
) -> Result<(), OutOfMemory>
    ensures { OnOk result (out.new.items ≡ out.old.items ++ contract_refused_line number why.now) }
{
    put(out, b"contract ")?;
    put_decimal(alloc, out, number)?;
    put(out, b" refused ")?;
    put(out, why)?;
    put(out, b"\n")
}
