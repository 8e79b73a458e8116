//! A strategy is read.

use bm_auto::{Act, Rule, read_strategy};
use bm_runfile::Header;
use bm_syntax::{Name, PathStep};
use spec_data::{OutOfMemory, Seq};
use std::alloc::Global;

const TEXT: &[u8] = b"A commit 0\n\nA reveal 0 a\nA fire 0 r.0\n";

// A header in which this party alone is honest.
fn header(alloc: Global, party: Name) -> Result<Header, OutOfMemory> {
    Ok(Header {
        parties: Seq::of(Vec::from_slice(alloc, &[party])?),
        honest: Seq::of(Vec::from_slice(alloc, &[party])?),
        secrets: Seq::new(alloc),
        deposits: Seq::new(alloc),
    })
}

// Whether the party commits, reveals the secret and takes the first branch.
fn is_read(rules: &[Rule], party: &Name, secret: &Name) -> bool {
    match rules {
        [first, second, third] => {
            first.party == *party
                && matches!(first.act, Act::Commit)
                && reveals(&second.act, secret)
                && takes_first(&third.act)
        }
        _ => false,
    }
}

fn reveals(act: &Act, secret: &Name) -> bool {
    match act {
        Act::Reveal(name) => *name == *secret,
        _ => false,
    }
}

fn takes_first(act: &Act) -> bool {
    match act {
        Act::Fire(path) => path.steps() == [PathStep::Branch(0)].as_slice(),
        _ => false,
    }
}

// Whether the rules of the text are these, for a party that is honest.
fn is_right(alloc: Global) -> Option<bool> {
    let party = Name::new(b"A")?;
    let secret = Name::new(b"a")?;
    let header = header(alloc, party).ok()?;
    let rules = read_strategy(alloc, TEXT, &header).ok()?;
    Some(is_read(&rules, &party, &secret))
}

#[test]
fn each_line_is_a_rule(rt: HostRuntime) {
    assert!(rt; is_right(rt.alloc()) == Some(true));
}
