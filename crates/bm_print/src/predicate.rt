//! The text of expressions and predicates.

ghost use Rattle.std.specs.Prelude.{◌≡◌, ◌++◌, OnOk};
ghost use Rattle.bm_syntax.specs.View.{formula, test};
ghost use Rattle.spec_text.specs.Canonical as spec;

use crate::text::{put_number, put_pieces};
use bm_syntax::{Expr, Pred};
use bm_text::{Piece, put};
use spec_data::OutOfMemory;

/// An expression.
fn put_formula(out: &mut Vec<u8>, expr: &Expr) -> Result<(), OutOfMemory>
    ensures { OnOk result (out.new.items ≡ out.old.items ++ spec.formula_text (formula expr.now)) }
{
    match expr {
        Expr::Const(number) => put_number(out, u64::from(*number)),
        Expr::Length(name) => {
            put_pieces(
                out,
                &[
                    Piece::Text(b"|"),
                    Piece::Text(name.bytes()),
                    Piece::Text(b"|"),
                ],
            )
        }
        Expr::Plus(left, right) => {
            put(out, b"(")?;
            put_formula(out, left)?;
            put(out, b" + ")?;
            put_formula(out, right)?;
            put(out, b")")
        }
        Expr::Minus(left, right) => {
            put(out, b"(")?;
            put_formula(out, left)?;
            put(out, b" - ")?;
            put_formula(out, right)?;
            put(out, b")")
        }
    }
}

/// A predicate.
fn put_test(out: &mut Vec<u8>, pred: &Pred) -> Result<(), OutOfMemory>
    ensures { OnOk result (out.new.items ≡ out.old.items ++ spec.test_text (test pred.now)) }
{
    match pred {
        Pred::True => put(out, b"true"),
        Pred::And(left, right) => {
            put(out, b"[")?;
            put_test(out, left)?;
            put(out, b" and ")?;
            put_test(out, right)?;
            put(out, b"]")
        }
        Pred::Not(inner) => {
            put(out, b"not ")?;
            put_test(out, inner)
        }
        Pred::Equal(left, right) => {
            put_formula(out, left)?;
            put(out, b" = ")?;
            put_formula(out, right)
        }
        Pred::Less(left, right) => {
            put_formula(out, left)?;
            put(out, b" < ")?;
            put_formula(out, right)
        }
    }
}

/// The condition of a branch, nothing where it is always true.
pub fn put_if(out: &mut Vec<u8>, pred: &Pred) -> Result<(), OutOfMemory>
    ensures { OnOk result (out.new.items ≡ out.old.items ++ spec.if_text (test pred.now)) }
{
    match pred {
        Pred::True => Ok(()),
        _ => {
            put(out, b" if ")?;
            put_test(out, pred)
        }
    }
}
