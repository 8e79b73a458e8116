//! Contracts are read, checked and compiled.

ghost use Rattle.std.specs.Prelude.{◌≡◌, IfSome};
ghost use Rattle.spec_nodes.specs.Nodes.{nodes_of};

use bm_compile::{Compiled, are_bound, compile};
use bm_hash::{Sha, Trail};
use bm_reader::read_advert;
use bm_syntax::{Name, Path, PathStep};
use bm_wellformed::{Checked, check};
use spec_bitcoin::OutPoint;
use spec_data::OutOfMemory;
use std::alloc::Global;
use theory_text::reader_theorem;

/// A secret opens it.
pub const REVEALED: &[u8] = b"{A:! 1 @ x | A: secret a} reveal a . withdraw A";

/// A commitment that ends at height 1000.
pub const TIMED: &[u8] =
    b"{A:! 100000000 @ x | B:! 0 @ y | A: secret a} (reveal a . withdraw A + after 1000 : withdraw B)";

/// A checked contract, and what it is compiled to.
#[derive(Drop)]
pub struct Example {
    pub checked: Checked,
    pub whole: Compiled,
}

// The checked contract of this text.
fn checked(alloc: Global, text: &[u8]) -> Option<Checked> {
    // What is read is within the limits of the reader, as the check requires.
    reader_theorem();
    match read_advert(alloc, text) {
        Ok(advert) => check(alloc, advert).ok(),
        Err(_) => None,
    }
}

// What a contract is compiled to with these deposits and digests.
fn compiled(
    alloc: Global,
    checked: &Checked,
    bound: &[(Name, OutPoint)],
    digests: &[(Name, [u8; 32])],
) -> Option<Compiled>
    ensures { IfSome result (λ whole. whole.nodes ≡ nodes_of checked.now.root) }
{
    if !are_bound(&checked.advert().pre, bound) {
        return None;
    }
    let mut trail = Trail::new(alloc, Sha);
    compile(alloc, &mut trail, 0, checked, bound, digests).ok()
}

/// The contract of this text and what it is compiled to with these deposits and digests.
pub fn made_with(
    alloc: Global,
    text: &[u8],
    bound: &[(Name, OutPoint)],
    digests: &[(Name, [u8; 32])],
) -> Option<Example>
    ensures { IfSome result (λ made. made.whole.nodes ≡ nodes_of made.checked.root) }
{
    let checked = checked(alloc, text)?;
    let whole = compiled(alloc, &checked, bound, digests)?;
    Some(Example { checked, whole })
}

fn outpoint(vout: u32) -> OutPoint {
    OutPoint {
        txid: [1; 32],
        vout,
    }
}

/// The same, with deposits x and y and a secret a.
pub fn made(alloc: Global, text: &[u8]) -> Option<Example>
    ensures { IfSome result (λ made. made.whole.nodes ≡ nodes_of made.checked.root) }
{
    let x = (Name::new(b"x")?, outpoint(0));
    let y = (Name::new(b"y")?, outpoint(1));
    let a = (Name::new(b"a")?, [3; 32]);
    made_with(alloc, text, &[x, y], &[a])
}

/// The path of these steps.
pub fn path_of(alloc: Global, steps: &[PathStep]) -> Result<Path, OutOfMemory> {
    Ok(Path::of(Vec::from_slice(alloc, steps)?))
}
