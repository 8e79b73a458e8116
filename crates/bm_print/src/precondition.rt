//! The text of a precondition and a fee.

ghost use Rattle.std.specs.Prelude.{◌≡◌, ◌++◌, codes, OnOk};
ghost use Rattle.std.specs.Fmt.{decimal};
ghost use Rattle.spec_text.specs.Canonical as spec;

use crate::text::put_pieces;
use bm_syntax::{Name, Pre};
use bm_text::{Piece, put};
use spec_data::OutOfMemory;

/// A deposit, whose mark is `!` or `?`.
fn put_deposit<'a>(
    out: &mut Vec<u8>,
    party: &'a Name,
    mark: &'a [u8],
    value: u64,
    name: &'a Name,
) -> Result<(), OutOfMemory>
    ensures { OnOk result (out.new.items ≡ out.old.items ++ (party.now ++ (mark.now ++ (decimal value ++ (codes " @ " ++ name.now))))) }
{
    put_pieces(
        out,
        &[
            Piece::Text(party.bytes()),
            Piece::Text(mark),
            Piece::Number(value),
            Piece::Text(b" @ "),
            Piece::Text(name.bytes()),
        ],
    )
}

fn put_secret<'a>(out: &mut Vec<u8>, party: &'a Name, name: &'a Name) -> Result<(), OutOfMemory>
    ensures { OnOk result (out.new.items ≡ out.old.items ++ (party.now ++ (codes ": secret " ++ name.now))) }
{
    put_pieces(
        out,
        &[
            Piece::Text(party.bytes()),
            Piece::Text(b": secret "),
            Piece::Text(name.bytes()),
        ],
    )
}

fn put_entry(out: &mut Vec<u8>, entry: &Pre) -> Result<(), OutOfMemory>
    ensures { OnOk result (out.new.items ≡ out.old.items ++ spec.entry_text entry.now) }
{
    match entry {
        Pre::Persistent { party, value, name } => put_deposit(out, party, b":! ", *value, name),
        Pre::Volatile { party, value, name } => put_deposit(out, party, b":? ", *value, name),
        Pre::Secret { party, name } => put_secret(out, party, name),
    }
}

/// Entries with bars between them.
pub fn put_entries(out: &mut Vec<u8>, entries: &[Pre]) -> Result<(), OutOfMemory>
    ensures { OnOk result (out.new.items ≡ out.old.items ++ spec.entries_text entries.now) }
{
    let Some((first, others)) = entries.split_first() else {
        return Ok(());
    };
    put_entry(out, first)?;
    for entry in others {
        put(out, b" | ")?;
        put_entry(out, entry)?;
    }
    Ok(())
}

/// A fee, nothing where it is 0.
pub fn put_fee(out: &mut Vec<u8>, fee: u64) -> Result<(), OutOfMemory>
    ensures { OnOk result (out.new.items ≡ out.old.items ++ spec.fee_text fee) }
{
    if fee == 0 {
        return Ok(());
    }
    put_pieces(
        out,
        &[Piece::Text(b"fee "), Piece::Number(fee), Piece::Text(b" ")],
    )
}
