//! A contract is checked, and its terms are copied. That copies are equal is proved, and not that there is ever one.

use bm_reader::read_advert;
use bm_syntax::copies::{copy_branch, copy_expr, copy_test};
use bm_syntax::{Advert, Expr, Guarded, Pred, copy, participants};
use bm_wellformed::{Checked, check};
use std::alloc::Global;
use std::test::Fail;
use theory_text::reader_theorem;

const TEXT: &[u8] =
    b"{A:! 10 @ x | A: secret a} fee 2 reveal a if not (|a| + 1) < 2 . split [4 -> withdraw A]";

fn advert(alloc: Global) -> Result<Advert, Fail> {
    Ok(read_advert(alloc, TEXT).map_err(|_| "refused")?)
}

/// The checked contract of a text.
pub(crate) fn checked(alloc: Global, text: &[u8]) -> Option<Checked> {
    // What is read is within the limits of the reader, as the check requires.
    reader_theorem();
    match read_advert(alloc, text) {
        Ok(advert) => check(alloc, advert).ok(),
        Err(_) => None,
    }
}

/// The first branch, and its condition.
fn parts(advert: &Advert) -> Option<(&Guarded, &Pred)> {
    let branch = advert.root.branches.first()?;
    match branch {
        Guarded::PutReveal { test, .. } => Some((branch, test)),
        _ => None,
    }
}

#[test]
fn terms_are_checked_and_copied(rt: HostRuntime) -> Result<(), Fail> {
    let alloc = rt.alloc();
    let contract = checked(alloc, TEXT).ok_or("refused")?;
    let advert = advert(alloc)?;
    let (branch, test) = parts(&advert).ok_or("no condition")?;
    let done = [
        ("participants", participants(alloc, &advert).is_ok()),
        ("checked advert", contract.copy(alloc).is_ok()),
        ("advert", advert.copy(alloc).is_ok()),
        ("contract", copy(alloc, &advert.root).is_ok()),
        ("branch", copy_branch(alloc, branch).is_ok()),
        ("condition", copy_test(alloc, test).is_ok()),
        ("expression", copy_expr(alloc, &Expr::Const(7)).is_ok()),
    ];
    for (what, is_done) in done {
        assert!(rt; is_done, "{what}");
    }
    Ok(())
}
