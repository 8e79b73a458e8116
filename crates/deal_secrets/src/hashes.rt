//! What `hashes` prints.

ghost use Rattle.std.specs.Prelude.{◌≡◌, ◌++◌, map, IfOk, OnOk};
ghost use Rattle.std.specs.List.{flat_map};
ghost use Rattle.spec_deal.specs.HashesText as spec;
ghost use Rattle.deal_secrets.specs.Seen.{shown_in};

use crate::strings::{Entry, Strings};
use bm_hash::Hash32;
use bm_text::{put, put_hex};
use spec_data::OutOfMemory;
use spec_deal::Shown;
use std::alloc::Global;

// `hash NAME DIGEST`
#[tactic(auto, using(std::proofs::Common::append_assoc))]
fn put_hash<H: Hash32>(
    alloc: Global,
    hasher: &H,
    out: &mut Vec<u8>,
    shown: &Shown,
) -> Result<(), OutOfMemory>
    ensures { OnOk result (out.new.items ≡ out.old.items ++ spec.hash_line (H.digest_of hasher.now) shown.now) }
{
    put(out, b"hash ")?;
    put(out, shown.name.bytes())?;
    put(out, b" ")?;
    put_hex(alloc, out, &hasher.hash32(shown.bytes.as_slice()))?;
    put(out, b"\n")
}

// Those of these strings.
#[tactic(auto, using(std::proofs::Common::append_assoc))]
fn put_hashes<H: Hash32>(
    alloc: Global,
    hasher: &H,
    out: &mut Vec<u8>,
    entries: &[Entry],
) -> Result<(), OutOfMemory>
    ensures { OnOk result (out.new.items ≡ out.old.items ++ spec.hashes_text (H.digest_of hasher.now) (map shown_in entries.now)) }
{
    for entry in entries {
        put_hash(alloc, hasher, out, &entry.shown)?;
    }
    Ok(())
}

/// The lines of a deal file that give the hashes of these strings, in order.
pub fn hashes_text<H: Hash32>(
    alloc: Global,
    hasher: &H,
    strings: &Strings,
) -> Result<Vec<u8>, OutOfMemory>
    ensures { IfOk result (λ text. text.items ≡ spec.hashes_text (H.digest_of hasher.now) strings.now) }
{
    let mut out = Vec::new(alloc);
    put_hashes(alloc, hasher, &mut out, strings.entries())?;
    Ok(out)
}
