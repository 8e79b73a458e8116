//! What the words of a deal file spell.

ghost use Rattle.std.specs.Prelude.{◌≡◌, ◌^◌, nat_lt, reverse, true, IfOk};
ghost use Rattle.spec_text.specs.Words.{given};
ghost use Rattle.spec_address.specs.Address as addresses;
ghost use Rattle.spec_deal.specs.DealFile as spec;
ghost use Rattle.spec_deal.specs.Verifier.{secp256k1};
ghost use Rattle.bm_runfile.specs.Gives.{Reads};
ghost use Rattle.deal_file.specs.Keying.{is_sized};

use bm_runfile::{WordError, digest, read_bytes, small};
use curve_verify::is_key as is_point;
use deal_address::is_hrp;
use spec_bitcoin::OutPoint;
use spec_data::Name;
use spec_deal::Value;
use std::alloc::Global;

// Whether it has the form of a compressed public key, by its first byte.
fn is_compressed(key: &[u8; 33]) -> bool
    ensures { result ≡ spec.is_compressed key.now }
{
    key[0] == 2 || key[0] == 3
}

// Whether it has that form and spells a point.
fn is_key(key: &[u8; 33]) -> bool
    ensures { result ≡ spec.is_key secp256k1 key.now }
{
    is_compressed(key) && is_point(key)
}

/// A compressed public key that is a point.
pub(crate) fn key_of_word(alloc: Global, word: &[u8]) -> Result<Value, WordError>
    ensures reads { Reads (λ v. v) result (spec.key_of_word secp256k1 word.now) }
    ensures sized { IfOk result (λ v. is_sized v ≡ true) }
{
    let bytes = read_bytes(alloc, word)?;
    match <[u8; 33]>::try_from(bytes.as_slice()) {
        Ok(key) => {
            if is_key(&key) {
                Ok(Value::Key(key))
            } else {
                Err(WordError::Bad)
            }
        }
        Err(_) => Err(WordError::Bad),
    }
}

// The bytes of a digest, the last one first.
fn reversed(digest: &[u8; 32]) -> [u8; 32]
    ensures { result ≡ reverse digest.now }
{
    let mut shown = *digest;
    shown.reverse();
    shown
}

/// The place of an output: its txid as wallets show it, and its number.
pub(crate) fn outpoint_of_words(
    alloc: Global,
    txid: &[u8],
    vout: &[u8],
) -> Result<OutPoint, WordError>
    ensures reads { Reads (λ o. o) result (spec.outpoint_of_words txid.now vout.now) }
    ensures sized { IfOk result (λ o. nat_lt o.vout (2 ^ 32) ≡ true) }
{
    let txid = digest(alloc, txid)?;
    match small(vout) {
        Some(vout) => Ok(OutPoint {
            txid: reversed(&txid),
            vout,
        }),
        None => Err(WordError::Bad),
    }
}

/// Where a deposit lies.
pub(crate) fn place_of_words(alloc: Global, txid: &[u8], vout: &[u8]) -> Result<Value, WordError>
    ensures reads { Reads (λ v. v) result (spec.place_of_words txid.now vout.now) }
    ensures sized { IfOk result (λ v. is_sized v ≡ true) }
{
    let outpoint = outpoint_of_words(alloc, txid, vout)?;
    Ok(Value::Place(outpoint))
}

/// The hash of a secret.
pub(crate) fn hash_of_word(alloc: Global, word: &[u8]) -> Result<Value, WordError>
    ensures reads { Reads (λ v. v) result (spec.hash_of_word word.now) }
    ensures sized { IfOk result (λ v. is_sized v ≡ true) }
{
    let digest = digest(alloc, word)?;
    Ok(Value::Hash(digest))
}

/// The human-readable part of a network's addresses.
pub(crate) fn network_of_word(word: &[u8]) -> Result<Value, WordError>
    ensures reads { Reads (λ v. v) result (spec.network_of_word word.now) }
    ensures sized { IfOk result (λ v. is_sized v ≡ true) }
{
    match hrp_of_word(word) {
        Some(hrp) => Ok(Value::Network(hrp)),
        None => Err(WordError::Bad),
    }
}

/// The human-readable part that a word is.
pub(crate) fn hrp_of_word(word: &[u8]) -> Option<Name>
    ensures { result ≡ given (addresses.is_hrp word.now) word.now }
{
    if !is_hrp(word) {
        return None;
    }
    Name::new(word)
}
