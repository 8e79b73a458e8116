//! The text of what stands before the point of a put or reveal.

ghost use Rattle.std.specs.Prelude.{◌≡◌, ◌++◌, codes, OnOk};
ghost use Rattle.bm_syntax.specs.View.{test};
ghost use Rattle.spec_text.specs.Canonical as spec;

use crate::predicate::put_if;
use crate::text::put_pieces;
use bm_syntax::{Name, Pred};
use bm_text::{Piece, put};
use spec_data::OutOfMemory;

/// Writes names with commas between them.
pub fn put_names(out: &mut Vec<u8>, names: &[Name]) -> Result<(), OutOfMemory>
    ensures { OnOk result (out.new.items ≡ out.old.items ++ spec.joined (codes ", ") names.now) }
{
    let Some((first, others)) = names.split_first() else {
        return Ok(());
    };
    put(out, first.bytes())?;
    for name in others {
        put_pieces(out, &[Piece::Text(b", "), Piece::Text(name.bytes())])?;
    }
    Ok(())
}

/// Deposits that are put, secrets that are revealed, and the condition.
pub fn put_heading(
    out: &mut Vec<u8>,
    puts: &[Name],
    reveals: &[Name],
    pred: &Pred,
) -> Result<(), OutOfMemory>
    ensures { OnOk result (out.new.items ≡ out.old.items ++ spec.heading_text puts.now reveals.now (test pred.now)) }
{
    if puts.is_empty() {
        put(out, b"reveal ")?;
        put_names(out, reveals)?;
        return put_if(out, pred);
    }
    put(out, b"put ")?;
    put_names(out, puts)?;
    if reveals.is_empty() {
        return Ok(());
    }
    put(out, b" & reveal ")?;
    put_names(out, reveals)?;
    put_if(out, pred)
}
