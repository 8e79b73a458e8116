//! The scripts that signatures for outputs of wallets are made with.

ghost use Rattle.std.specs.Prelude.{◌≡◌, IfOk};
ghost use Rattle.std.specs.Option.{option_copied};
ghost use Rattle.spec_compiler.specs.Keyed.OwnScripts as spec;
ghost use Rattle.bm_compile.specs.Keyed.Wallets.{key_hash_in};

use spec_data::{Bytes, OutOfMemory};
use std::alloc::Global;

// The hash of a key that an output pays to, if it pays to one.
fn key_hash(script: &[u8]) -> Option<&[u8]>
    ensures { option_copied result ≡ key_hash_in script.now }
{
    match script {
        [0, 20, rest @ ..] if rest.len() == 20 => Some(rest),
        _ => None,
    }
}

// DUP, HASH160, the hash, EQUALVERIFY, CHECKSIG.
fn key_hash_code(alloc: Global, program: &[u8]) -> Result<Bytes, OutOfMemory>
    ensures { IfOk result (λ code. code ≡ spec.key_hash_code program.now) }
{
    let mut code = Vec::new(alloc);
    code.extend_from_slice(&[0x76, 0xa9, 20])?;
    code.extend_from_slice(program)?;
    code.extend_from_slice(&[0x88, 0xac])?;
    Ok(Bytes::of(code))
}

/// The script that signatures for an output with this script are made with (BIP 143), where a wallet has it: empty but where it pays to
/// the hash of a key.
pub(crate) fn code_of(alloc: Global, script: &[u8]) -> Result<Bytes, OutOfMemory>
    ensures { IfOk result (λ code. code ≡ spec.code_of script.now) }
{
    match key_hash(script) {
        Some(program) => key_hash_code(alloc, program),
        None => Bytes::from_slice(alloc, &[]),
    }
}
