//! The output scripts that wallets have.

ghost use Rattle.std.specs.Prelude.{◌≡◌, ◌∷◌, length, take, drop};
ghost use Rattle.spec_compiler.specs.Keyed.OwnScripts.{key_hash_code};
ghost use Rattle.spec_deal.specs.Payable as spec;
ghost use Rattle.spec_deal.specs.Verifier.{secp256k1};

use crate::programs::{has_taproot_form, pays_to_key_hash, pays_to_script_hash};
use curve_verify::is_key as is_point;

// The key of these 32 bytes: byte 02 and the bytes.
fn even_key(bytes: &[u8]) -> [u8; 33]
    requires { length bytes.now ≡ 32 }
    ensures { result ≡ 2 ∷ bytes.now }
{
    let mut key = [2; 33];
    key[1..].copy_from_slice(bytes);
    key
}

// Whether an output is for a key of 32 bytes that is a point.
fn pays_to_taproot(script: &[u8]) -> bool
    ensures { result ≡ spec.pays_to_taproot secp256k1 script.now }
{
    if !has_taproot_form(script) {
        return false;
    }
    is_point(&even_key(&script[2..]))
}

/// Whether a wallet's deposit may have an output with this script: it is for the hash of a key or of a script, or for a key
/// of 32 bytes that is a point.
pub fn pays_to_wallet(script: &[u8]) -> bool
    ensures { result ≡ spec.pays_to_wallet secp256k1 script.now }
{
    pays_to_key_hash(script) || pays_to_script_hash(script) || pays_to_taproot(script)
}

// DUP, HASH160, a hash, EQUALVERIFY, CHECKSIG.
fn older_key_hash(hash: &[u8]) -> [u8; 25]
    requires { length hash.now ≡ 20 }
    ensures { result ≡ key_hash_code hash.now }
{
    let mut script = [0xac; 25];
    script[..3].copy_from_slice(&[0x76, 0xa9, 20]);
    script[3..23].copy_from_slice(hash);
    script[23] = 0x88;
    script
}

// Whether an output is for the key of a hash, as before witnesses (P2PKH).
fn pays_to_older_key_hash(script: &[u8]) -> bool
    ensures { result ≡ spec.pays_to_older_key_hash script.now }
{
    if script.len() != 25 {
        return false;
    }
    let older = older_key_hash(&script[3..23]);
    script == older.as_slice()
}

// HASH160, a hash, EQUAL.
fn older_script_hash(hash: &[u8]) -> [u8; 23]
    requires { length hash.now ≡ 20 }
    ensures { result ≡ spec.script_hash_code hash.now }
{
    let mut script = [0; 23];
    script[..2].copy_from_slice(&[0xa9, 20]);
    script[2..22].copy_from_slice(hash);
    script[22] = 0x87;
    script
}

// Whether an output is for whoever shows the script of a hash, as before witnesses (P2SH).
fn pays_to_older_script_hash(script: &[u8]) -> bool
    ensures { result ≡ spec.pays_to_older_script_hash script.now }
{
    if script.len() != 23 {
        return false;
    }
    let older = older_script_hash(&script[2..22]);
    script == older.as_slice()
}

/// Whether a participant may be paid at this script: an output of another would be lost, or anybody's.
pub fn is_payable(script: &[u8]) -> bool
    ensures { result ≡ spec.is_payable secp256k1 script.now }
{
    pays_to_key_hash(script)
        || pays_to_script_hash(script)
        || pays_to_taproot(script)
        || pays_to_older_key_hash(script)
        || pays_to_older_script_hash(script)
}
