//! A timed commitment is endorsed by one party after the other, and the gate opens once both have signed.

ghost use Rattle.std.specs.Prelude.{◌≡◌};
ghost use Rattle.spec_nodes.specs.Nodes.{nodes_of};

use crate::contracts::{Example, TIMED, made};
use bm_book::Book;
use bm_compile::Compiled;
use bm_hash::Sha;
use bm_honest::{Gate, Pair, endorsing_pairs, may};
use bm_syntax::{Name, PathStep};
use bm_wellformed::Checked;
use spec_data::OutOfMemory;
use std::alloc::Global;

// Signs these pairs.
fn sign_all(book: &mut Book, pairs: &[Pair]) -> Result<(), OutOfMemory> {
    for (key, digest) in pairs {
        book.sign(*key, *digest)?;
    }
    Ok(())
}

// Signs all that the party is to sign.
fn endorse(
    alloc: Global,
    book: &mut Book,
    checked: &Checked,
    whole: &Compiled,
    party: &Name,
) -> Result<(), OutOfMemory>
    requires { whole.now.nodes ≡ nodes_of checked.now.root }
{
    let pairs = endorsing_pairs(alloc, &Sha, checked, 0, whole, party)?;
    sign_all(book, &pairs)
}

// Whether this party's signature for the root's first branch is the first that is missing.
fn waits_for(gate: &Gate, party: &Name) -> bool {
    match gate {
        Gate::Yes => false,
        Gate::No { path, party: first } => {
            path.steps() == [PathStep::Branch(0)].as_slice() && *first == *party
        }
    }
}

// Whether the gate waits for this party.
fn is_awaited(
    alloc: Global,
    book: &Book,
    checked: &Checked,
    whole: &Compiled,
    party: &Name,
) -> Result<bool, OutOfMemory>
    requires { whole.now.nodes ≡ nodes_of checked.now.root }
{
    let gate = may(alloc, &Sha, checked, 0, whole, book)?;
    Ok(waits_for(&gate, party))
}

// Whether the gate is open.
fn is_open(
    alloc: Global,
    book: &Book,
    checked: &Checked,
    whole: &Compiled,
) -> Result<bool, OutOfMemory>
    requires { whole.now.nodes ≡ nodes_of checked.now.root }
{
    let gate = may(alloc, &Sha, checked, 0, whole, book)?;
    Ok(matches!(gate, Gate::Yes))
}

// Whether the gate waits for each of these parties in turn, who then signs, and opens after the last.
fn opens_after(
    alloc: Global,
    checked: &Checked,
    whole: &Compiled,
    parties: &[Name],
) -> Result<bool, OutOfMemory>
    requires { whole.now.nodes ≡ nodes_of checked.now.root }
{
    let mut book = Book::new(alloc);
    for party in parties {
        if !is_awaited(alloc, &book, checked, whole, party)? {
            return Ok(false);
        }
        endorse(alloc, &mut book, checked, whole, party)?;
    }
    is_open(alloc, &book, checked, whole)
}

// Whether the gate of a contract of A and B opens so.
fn opens(alloc: Global, made: &Example) -> Option<bool>
    requires { made.now.whole.nodes ≡ nodes_of made.now.checked.root }
{
    let parties = [Name::new(b"A")?, Name::new(b"B")?];
    opens_after(alloc, &made.checked, &made.whole, &parties).ok()
}

fn is_right(alloc: Global) -> bool {
    match made(alloc, TIMED) {
        Some(made) => opens(alloc, &made) == Some(true),
        None => false,
    }
}

#[test]
fn a_gate_opens_once_all_have_endorsed(rt: HostRuntime) {
    assert!(rt; is_right(rt.alloc()));
}
