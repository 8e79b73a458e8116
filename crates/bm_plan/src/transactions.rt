//! The lines of transactions and scripts.

ghost use Rattle.std.specs.Prelude.{◌≡◌, ◌++◌, codes, flat_map, reverse, IfOk, OnOk};
ghost use Rattle.std.specs.Fmt.{decimal};
ghost use Rattle.spec_data.specs.Digits.{hex_text};
ghost use Rattle.spec_bitcoin.specs.Keys.{path_text};
ghost use Rattle.spec_bitcoin.specs.Spelling.{stripped};
ghost use Rattle.spec_text.specs.RunText.{newline};
ghost use Rattle.spec_text.specs.PlanText as spec;

use bm_keys::put_path;
use bm_text::{put, put_decimal, put_hex};
use bm_tx::encode_stripped;
use spec_bitcoin::Tx;
use spec_compiler::Prepared;
use spec_data::{Bytes, OutOfMemory};
use spec_terms::Path;
use std::alloc::Global;

/// A path as a text of its own.
pub(crate) fn path_name(alloc: Global, path: &Path) -> Result<Vec<u8>, OutOfMemory>
    ensures { IfOk result (λ text. text.items ≡ path_text path.now) }
{
    let mut text = Vec::new(alloc);
    put_path(alloc, &mut text, path.steps())?;
    Ok(text)
}

// `script POSITION HEX`
#[tactic(auto, using(std::proofs::Common::append_assoc))]
fn put_script(
    alloc: Global,
    out: &mut Vec<u8>,
    position: &Path,
    script: &Bytes,
) -> Result<(), OutOfMemory>
    ensures { OnOk result (out.new.items ≡ out.old.items ++ spec.script_line (position.now, script.now)) }
{
    put(out, b"script ")?;
    put_path(alloc, out, position.steps())?;
    put(out, b" ")?;
    put_hex(alloc, out, script.as_slice())?;
    put(out, b"\n")
}

/// A line for the script of each position.
pub(crate) fn put_scripts(
    alloc: Global,
    out: &mut Vec<u8>,
    scripts: &[(Path, Bytes)],
) -> Result<(), OutOfMemory>
    ensures { OnOk result (out.new.items ≡ out.old.items ++ flat_map spec.script_line scripts.now) }
{
    for (position, script) in scripts {
        put_script(alloc, out, position, script)?;
    }
    Ok(())
}

// A word and a transaction's name, with a space after each.
#[tactic(auto, using(std::proofs::Common::append_assoc))]
fn put_named(out: &mut Vec<u8>, word: &[u8], name: &[u8]) -> Result<(), OutOfMemory>
    ensures { OnOk result (out.new.items ≡ out.old.items ++ (word.now ++ (codes " " ++ (name.now ++ codes " ")))) }
{
    put(out, word)?;
    put(out, b" ")?;
    put(out, name)?;
    put(out, b" ")
}

// A txid as it is shown, the last byte first.
pub(crate) fn put_txid(alloc: Global, out: &mut Vec<u8>, txid: &[u8; 32]) -> Result<(), OutOfMemory>
    ensures { OnOk result (out.new.items ≡ out.old.items ++ hex_text (reverse txid.now)) }
{
    let mut shown = *txid;
    shown.reverse();
    put_hex(alloc, out, &shown)
}

// The bytes of a transaction without marker and witnesses.
pub(crate) fn put_bare(alloc: Global, out: &mut Vec<u8>, tx: &Tx) -> Result<(), OutOfMemory>
    ensures { OnOk result (out.new.items ≡ out.old.items ++ hex_text (stripped tx.now)) }
{
    let bytes = encode_stripped(alloc, tx)?;
    put_hex(alloc, out, &bytes)
}

// `digest NAME k HEX`
#[tactic(auto, using(std::proofs::Common::append_assoc))]
fn put_digest(
    alloc: Global,
    out: &mut Vec<u8>,
    name: &[u8],
    number: u64,
    digest: &[u8; 32],
) -> Result<(), OutOfMemory>
    ensures { OnOk result (out.new.items ≡ out.old.items ++ (codes "digest " ++ (name.now ++ (codes " "
        ++ (decimal number ++ (codes " " ++ (hex_text digest.now ++ newline))))))) }
{
    put_named(out, b"digest", name)?;
    put_decimal(alloc, out, number)?;
    put(out, b" ")?;
    put_hex(alloc, out, digest)?;
    put(out, b"\n")
}

// A line for the digest of each input.
#[tactic(auto, using(std::proofs::Common::append_assoc))]
fn put_digests(
    alloc: Global,
    out: &mut Vec<u8>,
    name: &[u8],
    digests: &[[u8; 32]],
) -> Result<(), OutOfMemory>
    ensures { OnOk result (out.new.items ≡ out.old.items ++ spec.digest_lines name.now 0 digests.now) }
{
    let mut number = 0u64;
    for digest in digests {
        put_digest(alloc, out, name, number, digest)?;
        number += 1;
    }
    Ok(())
}

// `tx NAME TXID HEX`
#[tactic(auto, using(std::proofs::Common::append_assoc))]
fn put_tx(
    alloc: Global,
    out: &mut Vec<u8>,
    name: &[u8],
    prepared: &Prepared,
) -> Result<(), OutOfMemory>
    ensures { OnOk result (out.new.items ≡ out.old.items ++ (codes "tx " ++ (name.now ++ (codes " "
        ++ (hex_text (reverse prepared.now.txid) ++ (codes " " ++ (hex_text (stripped prepared.now.tx) ++ newline))))))) }
{
    put_named(out, b"tx", name)?;
    put_txid(alloc, out, &prepared.txid)?;
    put(out, b" ")?;
    put_bare(alloc, out, &prepared.tx)?;
    put(out, b"\n")
}

/// The lines of the transaction of this name, and of the digests of its inputs.
#[tactic(auto, using(std::proofs::Common::append_assoc))]
pub(crate) fn put_prepared(
    alloc: Global,
    out: &mut Vec<u8>,
    name: &[u8],
    prepared: &Prepared,
) -> Result<(), OutOfMemory>
    ensures { OnOk result (out.new.items ≡ out.old.items ++ spec.prepared_lines name.now prepared.now) }
{
    put_tx(alloc, out, name, prepared)?;
    put_digests(alloc, out, name, prepared.digests.as_slice())
}

fn put_path_lines(
    alloc: Global,
    out: &mut Vec<u8>,
    path: &Path,
    prepared: &Prepared,
) -> Result<(), OutOfMemory>
    ensures { OnOk result (out.new.items ≡ out.old.items ++ spec.path_lines (path.now, prepared.now)) }
{
    let name = path_name(alloc, path)?;
    put_prepared(alloc, out, &name, prepared)
}

/// The lines of the transaction of each path.
pub(crate) fn put_paths(
    alloc: Global,
    out: &mut Vec<u8>,
    paths: &[(Path, Prepared)],
) -> Result<(), OutOfMemory>
    ensures { OnOk result (out.new.items ≡ out.old.items ++ flat_map spec.path_lines paths.now) }
{
    for (path, prepared) in paths {
        put_path_lines(alloc, out, path, prepared)?;
    }
    Ok(())
}
