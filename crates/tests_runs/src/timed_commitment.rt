//! A timed commitment in the calculus: A's secret or the time decides to whom the deposit goes.

use bm_calculus::{Config, Owner, Step};
use bm_reader::read_advert;
use bm_wellformed::{Checked, check};
use spec_data::{Name, OutOfMemory, Seq};
use std::alloc::Global;
use std::test::Fail;
use theory_text::reader_theorem;

const TEXT: &[u8] =
    b"{A:! 100 @ x | B:! 0 @ y | A: secret a} (reveal a . withdraw A + after 1000 : withdraw B)";

fn contract(alloc: Global) -> Option<Checked> {
    // What is read is within the limits of the reader, as the check requires.
    reader_theorem();
    match read_advert(alloc, TEXT) {
        Ok(advert) => check(alloc, advert).ok(),
        Err(_) => None,
    }
}

#[derive(Clone, Copy)]
pub(crate) struct Names {
    a: Name,
    b: Name,
    x: Name,
    y: Name,
    secret: Name,
}

pub(crate) fn all_names() -> Option<Names> {
    Some(Names {
        a: Name::new(b"A")?,
        b: Name::new(b"B")?,
        x: Name::new(b"x")?,
        y: Name::new(b"y")?,
        secret: Name::new(b"a")?,
    })
}

fn advertise(alloc: Global, names: &Names) -> Result<Step, OutOfMemory> {
    let bindings = Vec::from_slice(alloc, &[(names.x, 0), (names.y, 1)])?;
    Ok(Step::Advertise {
        contract: 0,
        bindings: Seq::of(bindings),
    })
}

fn commit(
    alloc: Global,
    party: Name,
    lengths: &[(Name, Option<u32>)],
) -> Result<Step, OutOfMemory> {
    Ok(Step::Commit {
        contract: 0,
        party,
        lengths: Seq::of(Vec::from_slice(alloc, lengths)?),
    })
}

fn agree(party: Name, deposit: Name) -> Step {
    Step::AuthInit {
        contract: 0,
        party,
        deposit,
    }
}

fn withdraw(output: u32, branch: u32) -> Step {
    Step::Withdraw { output, branch }
}

// The steps by which the contract begins.
fn beginning(alloc: Global, names: &Names, row: u32) -> Result<Step, OutOfMemory> {
    match row {
        0 => advertise(alloc, names),
        1 => commit(alloc, names.a, &[(names.secret, Some(16))]),
        2 => commit(alloc, names.b, &[]),
        3 => Ok(agree(names.a, names.x)),
        4 => Ok(agree(names.b, names.y)),
        _ => Ok(Step::Init { contract: 0 }),
    }
}

// Those by which the secret gives it back.
fn giving_back(names: &Names, row: u32) -> Step {
    match row {
        0 => Step::Reveal {
            contract: 0,
            party: names.a,
            secret: names.secret,
        },
        1 => Step::PutReveal {
            output: 2,
            branch: 0,
        },
        _ => withdraw(3, 0),
    }
}

// Whether a step that makes few deposits is taken.
fn takes(config: &mut Config, step: &Step) -> bool {
    if config.next() > 1000 {
        return false;
    }
    match step {
        Step::Move { .. } | Step::Split { .. } => false,
        _ => config.apply(step).is_ok(),
    }
}

fn opened(alloc: Global, names: &Names, contract: Checked) -> Result<Config, OutOfMemory> {
    let deposits = [(names.a, 100), (names.b, 0)];
    Config::opening(
        alloc,
        &[names.a, names.b],
        &[names.a],
        &deposits,
        &[contract],
    )
}

// Whether the contract begins.
fn begins(alloc: Global, names: &Names, config: &mut Config) -> Result<bool, OutOfMemory> {
    for row in 0..6 {
        let step = beginning(alloc, names, row)?;
        if !takes(config, &step) {
            return Ok(false);
        }
    }
    Ok(true)
}

// The configuration in which the contract has begun.
pub(crate) fn begun(alloc: Global, names: &Names) -> Result<Option<Config>, OutOfMemory> {
    let Some(contract) = contract(alloc) else {
        return Ok(None);
    };
    let mut config = opened(alloc, names, contract)?;
    if begins(alloc, names, &mut config)? {
        return Ok(Some(config));
    }
    Ok(None)
}

// Whether the secret gives it back.
fn gives_back(names: &Names, config: &mut Config) -> bool {
    for row in 0..3 {
        if !takes(config, &giving_back(names, row)) {
            return false;
        }
    }
    true
}

// Whether the time gives it away.
fn gives_away(config: &mut Config) -> bool {
    takes(config, &Step::Delay { blocks: 1000 }) && takes(config, &withdraw(2, 1))
}

#[test]
fn the_secret_or_the_time_decides(rt: HostRuntime) -> Result<(), Fail> {
    let alloc = rt.alloc();
    let names = all_names().ok_or("no names")?;
    let mut back = begun(alloc, &names)?.ok_or("not begun")?;
    let mut away = back.copy(alloc)?;
    assert!(rt; gives_back(&names, &mut back) && gives_away(&mut away));
    assert!(rt; back.deposit(4) == Some((&Owner::Party(names.a), 100)));
    assert!(rt; away.deposit(3) == Some((&Owner::Party(names.b), 100)));
    Ok(())
}
