//! The scripts of the positions with their hashes: a script isn't hashed again for each branch that spends its position's output.

ghost use Rattle.std.specs.Prelude.{◌≡◌, true, IfOk, OnOk};
ghost use Rattle.spec_compiler.specs.Keyed.Transactions as outputs;
ghost use Rattle.deal_compile.specs.Programs.{are_hashed};

use bm_hash::Hash32;
use bm_keys::pay_to;
use bm_syntax::Path;
use deal_index::{Indexed, Keyed};
use spec_bitcoin::TxOut;
use spec_data::{Bytes, OutOfMemory};
use std::alloc::Global;

/// A script and its hash, found by the script.
pub(crate) struct Program {
    pub(crate) script: Bytes,
    pub(crate) hash: [u8; 32],
}

impl Drop for Program {
    fn drop(self) {
        let Program { script: _, hash: _ } = self;
    }
}

impl Keyed for Program {
    ghost use Rattle.std.specs.Prelude.{true};

    ghost key_of = { λ program. program.script };

    ghost is_sized = { λ _. true };
}

// One more script with its hash.
fn put_program<H: Hash32>(
    alloc: Global,
    hasher: &H,
    programs: &mut Indexed<Program>,
    script: &Bytes,
) -> Result<(), OutOfMemory>
    requires { are_hashed (H.digest_of hasher.now) programs.old ≡ true }
    ensures { OnOk result (are_hashed (H.digest_of hasher.now) programs.new ≡ true) }
{
    let found_by = Vec::from_slice(alloc, script.as_slice())?;
    let program = Program {
        script: script.copy(alloc)?,
        hash: hasher.hash32(script.as_slice()),
    };
    programs.push(program, found_by)
}

/// These scripts, each with its hash.
pub(crate) fn programs_of<H: Hash32>(
    alloc: Global,
    hasher: &H,
    scripts: &[(Path, Bytes)],
) -> Result<Indexed<Program>, OutOfMemory>
    ensures { IfOk result (λ programs. are_hashed (H.digest_of hasher.now) programs ≡ true) }
{
    let mut programs = Indexed::new(alloc);
    for (_position, script) in scripts {
        put_program(alloc, hasher, &mut programs, script)?;
    }
    Ok(programs)
}

// The hash of a script, which is known of those of the positions.
fn hash_of<H: Hash32>(hasher: &H, programs: &Indexed<Program>, script: &[u8]) -> [u8; 32]
    requires { are_hashed (H.digest_of hasher.now) programs.now ≡ true }
    ensures { result ≡ H.digest_of hasher.now script.now }
{
    match programs.find(script) {
        Some(program) => program.hash,
        None => hasher.hash32(script),
    }
}

/// An output of this value, in satoshi, for whoever shows this script and what it asks for.
pub(crate) fn pays<H: Hash32>(
    alloc: Global,
    hasher: &H,
    programs: &Indexed<Program>,
    script: &[u8],
    value: u64,
) -> Result<TxOut, OutOfMemory>
    requires { are_hashed (H.digest_of hasher.now) programs.now ≡ true }
    ensures { IfOk result (λ output. output ≡ outputs.pays (H.digest_of hasher.now) script.now value) }
{
    Ok(TxOut {
        value,
        script: Bytes::from_slice(alloc, &pay_to(&hash_of(hasher, programs, script)))?,
    })
}
