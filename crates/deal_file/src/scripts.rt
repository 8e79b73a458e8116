//! The output scripts that the words of a deal file spell.

ghost use Rattle.std.specs.Prelude.{◌≡◌, ◌^◌, nat_lt, true, IfOk};
ghost use Rattle.spec_text.specs.Words.{given};
ghost use Rattle.spec_address.specs.Address as addresses;
ghost use Rattle.spec_deal.specs.DealFile as spec;
ghost use Rattle.spec_deal.specs.Payable as payable;
ghost use Rattle.spec_deal.specs.declared.entry.Value.TheVariants as values;
ghost use Rattle.spec_deal.specs.Verifier.{secp256k1};
ghost use Rattle.bm_runfile.specs.Gives.{Reads};
ghost use Rattle.deal_file.specs.Keying.{is_sized};
ghost use Rattle.deal_file.specs.Spelled.{address_on};

use crate::words::outpoint_of_words;
use bm_runfile::{WordError, read_bytes};
use deal_address::read_address;
use deal_payees::{is_payable, pays_to_wallet};
use spec_bitcoin::OutPoint;
use spec_data::{Bytes, Name};
use spec_deal::Value;
use std::alloc::Global;

// The script that a word is the address of, on the network with this human-readable part.
fn script_on(alloc: Global, hrp: &Name, word: &[u8]) -> Result<Bytes, WordError>
    ensures { Reads (λ b. b) result (addresses.read_address hrp.now word.now) }
{
    match read_address(alloc, hrp.bytes(), word) {
        Ok(Some(script)) => Ok(script),
        Ok(None) => Err(WordError::Bad),
        Err(_) => Err(WordError::Memory),
    }
}

// The script that a word is the address of, where the network is known.
fn address_script(alloc: Global, network: &Option<Name>, word: &[u8]) -> Result<Bytes, WordError>
    ensures { Reads (λ b. b) result (address_on network.now word.now) }
{
    match network {
        Some(hrp) => script_on(alloc, hrp, word),
        None => Err(WordError::Bad),
    }
}

// The script that a word spells, in hexadecimal digits or as an address.
fn spelled_script(alloc: Global, network: &Option<Name>, word: &[u8]) -> Result<Bytes, WordError>
    ensures { Reads (λ b. b) result (spec.spelled_script network.now word.now) }
{
    match read_bytes(alloc, word) {
        Ok(script) => Ok(Bytes::of(script)),
        Err(WordError::Bad) => address_script(alloc, network, word),
        Err(WordError::Memory) => Err(WordError::Memory),
    }
}

/// Where a participant is paid.
pub(crate) fn payee_of_word(
    alloc: Global,
    network: &Option<Name>,
    word: &[u8],
) -> Result<Value, WordError>
    ensures reads { Reads (λ v. v) result (spec.payee_of_word secp256k1 network.now word.now) }
    ensures sized { IfOk result (λ v. is_sized v ≡ true) }
{
    let script = spelled_script(alloc, network, word)?;
    if !is_payable(script.as_slice()) {
        return Err(WordError::Bad);
    }
    Ok(Value::Script(script))
}

// What a wallet brings: the output at a place, with this script.
fn wallet_at(outpoint: OutPoint, script: Bytes) -> Result<Value, WordError>
    requires { nat_lt outpoint.vout (2 ^ 32) ≡ true }
    ensures reads { Reads (λ v. v) result (given (payable.pays_to_wallet secp256k1 script) (values.Wallet outpoint script)) }
    ensures sized { IfOk result (λ v. is_sized v ≡ true) }
{
    if !pays_to_wallet(script.as_slice()) {
        return Err(WordError::Bad);
    }
    Ok(Value::Wallet(outpoint, script))
}

/// A deposit that a wallet brings: the place of the output, and its script.
pub(crate) fn wallet_of_words(
    alloc: Global,
    network: &Option<Name>,
    txid: &[u8],
    vout: &[u8],
    word: &[u8],
) -> Result<Value, WordError>
    ensures reads { Reads (λ v. v) result (spec.wallet_of_words secp256k1 network.now txid.now vout.now word.now) }
    ensures sized { IfOk result (λ v. is_sized v ≡ true) }
{
    let outpoint = outpoint_of_words(alloc, txid, vout)?;
    let script = spelled_script(alloc, network, word)?;
    wallet_at(outpoint, script)
}
