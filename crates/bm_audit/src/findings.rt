//! What is found of the lines of a file, one after another.

ghost use Rattle.std.specs.Prelude.{◌≡◌, ◌<◌, ◌+◌, ◌^◌, ◌++◌, [], length, false, IfOk, IfErr, OnOk};
ghost use Rattle.spec_bitcoin.specs.Verdict.{refusal_of};
ghost use Rattle.spec_run.specs.Ledger.{live_from, strings_of};
ghost use Rattle.spec_tool.specs.Audit.{Given, read, given_line};
ghost use Rattle.bm_world.specs.Playing.{setup_in, Judged};
ghost use Rattle.bm_world_heard.specs.Heard.{Stopped};
ghost use Rattle.bm_audit.specs.Lines.{given_of};
ghost use Rattle.bm_audit.specs.Found.{read_kind, onto_found, Reads, Takes, Adds, Finds, given_strings, text_strings};

use crate::judging::now_of;
use crate::lines::{Line, read_line};
use bm_audit_listed::Catalog;
use bm_hash::Hash32;
use bm_runfile::first_line;
use bm_world::{Halt, World};
use spec_bitcoin::{Refusal, Tx};
use spec_data::{OutOfMemory, Seq};
use spec_tool::{Finding, Kind};
use std::alloc::{AllocError, Global};

// Whether a transaction has 2^32 inputs or more, which none in the file of an audit has.
fn is_huge(tx: &Tx) -> bool
    ensures { result ≡ false → length tx.now.inputs < 2 ^ 32 }
{
    tx.inputs.len() > u32::MAX as usize
}

// Why the ledger would refuse a transaction, if it would. A huge one counts as out of memory.
fn ask<H: Hash32 + Drop>(world: &mut World<H>, tx: &Tx) -> Result<Option<Refusal>, Halt>
    ensures judged { IfOk result (Judged H.digest_of world.old world.new tx.now) }
    ensures stopped { IfErr result (Stopped H.digest_of world.old world.new
        (strings_of (setup_in H.digest_of world.old) world.old.world tx.now)) }
{
    if is_huge(tx) {
        return Err(Halt::Memory);
    }
    match world.judge(tx) {
        Ok(refusal) => Ok(refusal),
        Err(halt) => Err(halt),
    }
}

// What a transaction is and what the ledger says of it, where it would refuse it for this.
fn kind_of<H: Hash32 + Drop>(
    alloc: Global,
    world: &World<H>,
    catalog: &Catalog,
    tx: &Tx,
    refusal: Option<Refusal>,
) -> Result<Kind, OutOfMemory>
    requires { refusal ≡ refusal_of (setup_in H.digest_of world.now).hash world.now.world.book world.now.world.tip
        (live_from 0 world.now.world.outputs) tx.now }
    ensures { IfOk result (λ kind. kind ≡ read_kind (setup_in H.digest_of world.now) world.now.world catalog.now tx.now) }
{
    let now = now_of(alloc, world, tx, refusal)?;
    let names = catalog.names(alloc, tx)?;
    Ok(Kind::Read { names, now })
}

// The same of a transaction that is judged.
fn judged_kind<H: Hash32 + Drop>(
    alloc: Global,
    world: &mut World<H>,
    catalog: &Catalog,
    tx: &Tx,
) -> Result<Kind, Halt>
    ensures read { IfOk result (Reads H.digest_of world.old world.new catalog.now tx.now) }
    ensures stopped { IfErr result (Stopped H.digest_of world.old world.new
        (strings_of (setup_in H.digest_of world.old) world.old.world tx.now)) }
{
    let refusal = ask(world, tx)?;
    match kind_of(alloc, world, catalog, tx, refusal) {
        Ok(kind) => Ok(kind),
        Err(_) => Err(Halt::Memory),
    }
}

// What is said of a line that is a transaction.
fn said_of<H: Hash32 + Drop>(
    alloc: Global,
    world: &mut World<H>,
    catalog: &Catalog,
    tx: &Tx,
) -> Result<Option<Kind>, Halt>
    ensures took { (given : Given) → read tx.now ≡ given → IfOk result (Takes H.digest_of world.old world.new catalog.now given) }
    ensures stopped { (given : Given) → read tx.now ≡ given → IfErr result (Stopped H.digest_of world.old world.new
        (given_strings (setup_in H.digest_of world.old) world.old.world given)) }
{
    match judged_kind(alloc, world, catalog, tx) {
        Ok(kind) => Ok(Some(kind)),
        Err(halt) => Err(halt),
    }
}

// What is said of a line that is this, nothing of an empty one.
fn said<H: Hash32 + Drop>(
    alloc: Global,
    world: &mut World<H>,
    catalog: &Catalog,
    line: &Line,
) -> Result<Option<Kind>, Halt>
    ensures took { IfOk result (Takes H.digest_of world.old world.new catalog.now (given_of line.now)) }
    ensures stopped { IfErr result (Stopped H.digest_of world.old world.new
        (given_strings (setup_in H.digest_of world.old) world.old.world (given_of line.now))) }
{
    match line {
        Line::Empty => Ok(None),
        Line::NotHex => Ok(Some(Kind::NotHex)),
        Line::Bad(place) => Ok(Some(Kind::Bad(*place))),
        Line::Read(tx) => said_of(alloc, world, catalog, tx),
    }
}

// What is said of a line.
fn line_kind<H: Hash32 + Drop>(
    alloc: Global,
    world: &mut World<H>,
    catalog: &Catalog,
    line: &[u8],
) -> Result<Option<Kind>, Halt>
    ensures took { IfOk result (Takes H.digest_of world.old world.new catalog.now (given_line line.now)) }
    ensures stopped { IfErr result (Stopped H.digest_of world.old world.new
        (given_strings (setup_in H.digest_of world.old) world.old.world (given_line line.now))) }
{
    match read_line(alloc, line) {
        Ok(line) => said(alloc, world, catalog, &line),
        Err(_) => Err(Halt::Memory),
    }
}

// The number of the next line. One of 2^32 lines counts as out of memory.
fn next(line: u32) -> Result<u32, OutOfMemory>
    ensures { IfOk result (λ next. next ≡ line + 1) }
{
    if line == u32::MAX {
        return Err(AllocError);
    }
    Ok(line + 1)
}

// Adds what is said of a line, if anything is.
fn put_kind(findings: &mut Seq<Finding>, number: u32, kind: Option<Kind>) -> Result<(), OutOfMemory>
    ensures { OnOk result (findings.new ≡ findings.old ++ onto_found number kind []) }
{
    match kind {
        None => Ok(()),
        Some(kind) => {
            findings.push(Finding { line: number, kind })?;
            Ok(())
        }
    }
}

// The same, and the number of the next line.
fn add_kind(
    findings: &mut Seq<Finding>,
    number: u32,
    kind: Option<Kind>,
) -> Result<u32, OutOfMemory>
    ensures added { OnOk result (findings.new ≡ findings.old ++ onto_found number kind []) }
    ensures next { IfOk result (λ next. next ≡ number + 1) }
{
    put_kind(findings, number, kind)?;
    next(number)
}

// Adds what is found of a line of this number, and answers the next line's.
fn take_line<H: Hash32 + Drop>(
    alloc: Global,
    world: &mut World<H>,
    catalog: &Catalog,
    line: &[u8],
    number: u32,
    findings: &mut Seq<Finding>,
) -> Result<u32, Halt>
    ensures took { OnOk result (Adds H.digest_of world.old world.new catalog.now (given_line line.now) number findings.old findings.new) }
    ensures next { IfOk result (λ next. next ≡ number + 1) }
    ensures stopped { IfErr result (Stopped H.digest_of world.old world.new
        (given_strings (setup_in H.digest_of world.old) world.old.world (given_line line.now))) }
{
    let kind = line_kind(alloc, world, catalog, line)?;
    match add_kind(findings, number, kind) {
        Ok(next) => Ok(next),
        Err(_) => Err(Halt::Memory),
    }
}

/// One finding for each line of a text that isn't empty. The transactions are judged in order, and no others.
pub(crate) fn findings_of<H: Hash32 + Drop>(
    alloc: Global,
    world: &mut World<H>,
    catalog: &Catalog,
    text: &[u8],
) -> Result<Seq<Finding>, Halt>
    ensures found { IfOk result (Finds H.digest_of world.old world.new catalog.now text.now) }
    ensures stopped { IfErr result (Stopped H.digest_of world.old world.new
        (text_strings (setup_in H.digest_of world.old) world.old.world text.now)) }
{
    let mut findings = Seq::new(alloc);
    let mut rest = text;
    let mut line = 1u32;
    while !rest.is_empty() {
        let (prefix, more) = first_line(rest);
        line = take_line(alloc, world, catalog, prefix, line, &mut findings)?;
        rest = more;
    }
    Ok(findings)
}
