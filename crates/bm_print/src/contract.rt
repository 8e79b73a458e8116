//! The text of contracts.

ghost use Rattle.std.specs.Prelude.{◌≡◌, ◌++◌, codes, OnOk};
ghost use Rattle.std.specs.Fmt.{decimal};
ghost use Rattle.bm_syntax.specs.View.{guarded, contract, parts_view, choice_view};
ghost use Rattle.spec_text.specs.Canonical as spec;

use crate::prefix::put_heading;
use crate::text::put_pieces;
use bm_syntax::{Contract, Guarded, Part};
use bm_text::{Piece, put};
use spec_data::OutOfMemory;

/// A contract.
#[cycle(print)]
pub fn put_contract(out: &mut Vec<u8>, choice: &Contract) -> Result<(), OutOfMemory>
    ensures { OnOk result (out.new.items ≡ out.old.items ++ spec.choice_text (contract choice.now)) }
{
    put_choice(out, &choice.branches)
}

/// A branch alone, or several in brackets.
#[cycle(print)]
fn put_choice(out: &mut Vec<u8>, branches: &[Guarded]) -> Result<(), OutOfMemory>
    ensures { OnOk result (out.new.items ≡ out.old.items ++ spec.choice_text (choice_view branches.now)) }
{
    let Some((first, others)) = branches.split_first() else {
        return Ok(());
    };
    if others.is_empty() {
        return put_branch(out, first);
    }
    put(out, b"(")?;
    put_branch(out, first)?;
    for branch in others {
        put(out, b" + ")?;
        put_branch(out, branch)?;
    }
    put(out, b")")
}

#[cycle(print)]
fn put_branch(out: &mut Vec<u8>, branch: &Guarded) -> Result<(), OutOfMemory>
    ensures { OnOk result (out.new.items ≡ out.old.items ++ spec.branch_text (guarded branch.now)) }
{
    match branch {
        Guarded::Auth { party, body } => {
            put_pieces(out, &[Piece::Text(party.bytes()), Piece::Text(b" : ")])?;
            put_branch(out, body)
        }
        Guarded::After { height, body } => {
            put_pieces(
                out,
                &[
                    Piece::Text(b"after "),
                    Piece::Number(u64::from(*height)),
                    Piece::Text(b" : "),
                ],
            )?;
            put_branch(out, body)
        }
        Guarded::PutReveal {
            puts,
            reveals,
            test,
            next,
        } => {
            put_heading(out, puts, reveals, test)?;
            put(out, b" . ")?;
            put_contract(out, next)
        }
        Guarded::Withdraw { party } => {
            put_pieces(
                out,
                &[Piece::Text(b"withdraw "), Piece::Text(party.bytes())],
            )
        }
        Guarded::Split { parts } => put_split(out, parts),
    }
}

#[cycle(print)]
fn put_split(out: &mut Vec<u8>, parts: &[Part]) -> Result<(), OutOfMemory>
    ensures { OnOk result (out.new.items ≡ out.old.items ++ (codes "split [" ++ (spec.parts_text (parts_view parts.now) ++ codes "]"))) }
{
    put(out, b"split [")?;
    put_parts(out, parts)?;
    put(out, b"]")
}

/// Parts with commas between them.
#[cycle(print)]
fn put_parts(out: &mut Vec<u8>, parts: &[Part]) -> Result<(), OutOfMemory>
    ensures { OnOk result (out.new.items ≡ out.old.items ++ spec.parts_text (parts_view parts.now)) }
{
    let Some((first, others)) = parts.split_first() else {
        return Ok(());
    };
    put_part(out, first)?;
    for part in others {
        put(out, b", ")?;
        put_part(out, part)?;
    }
    Ok(())
}

#[cycle(print)]
fn put_part(out: &mut Vec<u8>, part: &Part) -> Result<(), OutOfMemory>
    ensures { OnOk result (out.new.items ≡ out.old.items
        ++ (decimal part.now.value ++ (codes " -> " ++ spec.choice_text (contract part.now.next)))) }
{
    put_pieces(out, &[Piece::Number(part.value), Piece::Text(b" -> ")])?;
    put_contract(out, &part.next)
}
