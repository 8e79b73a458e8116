//! What a line of each kind gives, behind its first word.

ghost use Rattle.std.specs.Prelude.{◌≡◌, ◌∷◌, [], List, map, option_map, Option, true, IfOk};
ghost use Rattle.spec_deal.specs.declared.entry.Entry.{Entry as SpecEntry};
ghost use Rattle.spec_deal.specs.declared.entry.Value.{Value as SpecValue};
ghost use Rattle.spec_deal.specs.Needed as spec_needs;
ghost use Rattle.spec_deal.specs.DealFile as spec;
ghost use Rattle.spec_deal.specs.Verifier.{secp256k1};
ghost use Rattle.bm_runfile.specs.Gives.{Reads};
ghost use Rattle.deal_file.specs.Keying as keys;
ghost use Rattle.deal_file.specs.Entries.{needed_in};
ghost use Rattle.deal_file.specs.Gives.{Leads, found_need};

use crate::error::LineError;
use crate::keying::{Need, kind_and};
use crate::scripts::{payee_of_word, wallet_of_words};
use crate::words::{hash_of_word, key_of_word, network_of_word, place_of_words};
use bm_runfile::{WordError, one_of};
use bm_wellformed::Checked;
use deal_index::Indexed;
use spec_data::{Name, OutOfMemory};
use spec_deal::{DealReason, Entry, Needed, Value};
use std::alloc::Global;

// What is needed that was found.
fn copied(alloc: Global, need: Option<&Need>) -> Result<Option<Needed>, OutOfMemory>
    ensures { IfOk result (λ o. o ≡ option_map needed_in (option_map (λ n. n.now) need.entry)) }
{
    match need {
        Some(need) => Ok(Some(need.needed.copy(alloc)?)),
        None => Ok(None),
    }
}

// What is needed that is of this kind and has this text.
fn need_of(
    alloc: Global,
    needs: &Indexed<Need>,
    kind: u8,
    word: &[u8],
) -> Result<Option<Needed>, OutOfMemory>
    ensures { IfOk result (λ o. o ≡ found_need needs.now (kind ∷ word.now)) }
{
    let key = kind_and(alloc, kind, word)?;
    copied(alloc, needs.find(&key))
}

// What a line gives to what is needed, if its value is one.
fn entry_with(
    line: u32,
    needed: Needed,
    value: Result<Value, WordError>,
) -> Result<Entry, LineError>
    requires { IfOk value (λ v. keys.is_sized v ≡ true) }
    ensures leads { (entries : List SpecEntry) (read : Option SpecValue) → Reads (λ v. v) value read
        → Leads entries result (spec.with_value entries line needed read) }
    ensures sized { IfOk result (λ e. keys.is_sized e.value ≡ true) }
{
    match value {
        Ok(value) => Ok(Entry {
            line,
            needed,
            value,
        }),
        Err(WordError::Bad) => Err(LineError::Bad(DealReason::Value)),
        Err(WordError::Memory) => Err(LineError::Memory),
    }
}

// What these words behind the first of the line of a key give.
fn key_given(
    alloc: Global,
    checked: &Checked,
    needs: &Indexed<Need>,
    line: u32,
    word: &[u8],
    value: &[u8],
) -> Result<Entry, LineError>
    requires { map needed_in needs.now ≡ spec_needs.needed checked.now }
    ensures leads { (entries : List SpecEntry) → Leads entries result (spec.key_line secp256k1 checked.now entries line (word.now ∷ value.now ∷ [])) }
    ensures sized { IfOk result (λ e. keys.is_sized e.value ≡ true) }
{
    match need_of(alloc, needs, b'K', word)? {
        Some(needed) => entry_with(line, needed, key_of_word(alloc, value)),
        None => Err(LineError::Bad(DealReason::Foreign)),
    }
}

/// The line of a key, behind its first word.
pub(crate) fn key_entry(
    alloc: Global,
    checked: &Checked,
    needs: &Indexed<Need>,
    line: u32,
    words: &[&[u8]],
) -> Result<Entry, LineError>
    requires { map needed_in needs.now ≡ spec_needs.needed checked.now }
    ensures leads { (entries : List SpecEntry)
        → Leads entries result (spec.key_line secp256k1 checked.now entries line (map (λ w. w.now) words.now)) }
    ensures sized { IfOk result (λ e. keys.is_sized e.value ≡ true) }
{
    match words {
        [word, value] => key_given(alloc, checked, needs, line, word, value),
        _ => Err(LineError::Bad(DealReason::Form)),
    }
}

// What these words behind the first of the line of a deposit give.
fn deposit_given(
    alloc: Global,
    checked: &Checked,
    needs: &Indexed<Need>,
    network: &Option<Name>,
    line: u32,
    word: &[u8],
    txid: &[u8],
    vout: &[u8],
) -> Result<Entry, LineError>
    requires { map needed_in needs.now ≡ spec_needs.needed checked.now }
    ensures leads { (entries : List SpecEntry)
        → Leads entries result (spec.deposit_line secp256k1 network.now checked.now entries line (word.now ∷ txid.now ∷ vout.now ∷ [])) }
    ensures sized { IfOk result (λ e. keys.is_sized e.value ≡ true) }
{
    match need_of(alloc, needs, b'D', word)? {
        Some(needed) => entry_with(line, needed, place_of_words(alloc, txid, vout)),
        None => Err(LineError::Bad(DealReason::Foreign)),
    }
}

// What these words give of which the last is the script of a wallet's deposit.
fn wallet_given(
    alloc: Global,
    checked: &Checked,
    needs: &Indexed<Need>,
    network: &Option<Name>,
    line: u32,
    word: &[u8],
    txid: &[u8],
    vout: &[u8],
    script: &[u8],
) -> Result<Entry, LineError>
    requires { map needed_in needs.now ≡ spec_needs.needed checked.now }
    ensures leads { (entries : List SpecEntry) → Leads entries result
        (spec.deposit_line secp256k1 network.now checked.now entries line (word.now ∷ txid.now ∷ vout.now ∷ script.now ∷ [])) }
    ensures sized { IfOk result (λ e. keys.is_sized e.value ≡ true) }
{
    match need_of(alloc, needs, b'D', word)? {
        Some(needed) => {
            let value = wallet_of_words(alloc, network, txid, vout, script);
            entry_with(line, needed, value)
        }
        None => Err(LineError::Bad(DealReason::Foreign)),
    }
}

/// The line of a deposit, behind its first word.
pub(crate) fn deposit_entry(
    alloc: Global,
    checked: &Checked,
    needs: &Indexed<Need>,
    network: &Option<Name>,
    line: u32,
    words: &[&[u8]],
) -> Result<Entry, LineError>
    requires { map needed_in needs.now ≡ spec_needs.needed checked.now }
    ensures leads { (entries : List SpecEntry)
        → Leads entries result (spec.deposit_line secp256k1 network.now checked.now entries line (map (λ w. w.now) words.now)) }
    ensures sized { IfOk result (λ e. keys.is_sized e.value ≡ true) }
{
    match words {
        [word, txid, vout] => deposit_given(alloc, checked, needs, network, line, word, txid, vout),
        [word, txid, vout, script] => {
            wallet_given(
                alloc, checked, needs, network, line, word, txid, vout, script,
            )
        }
        _ => Err(LineError::Bad(DealReason::Form)),
    }
}

// What these words behind the first of the line of a hash give.
fn hash_given(
    alloc: Global,
    checked: &Checked,
    needs: &Indexed<Need>,
    line: u32,
    word: &[u8],
    value: &[u8],
) -> Result<Entry, LineError>
    requires { map needed_in needs.now ≡ spec_needs.needed checked.now }
    ensures leads { (entries : List SpecEntry) → Leads entries result (spec.hash_line checked.now entries line (word.now ∷ value.now ∷ [])) }
    ensures sized { IfOk result (λ e. keys.is_sized e.value ≡ true) }
{
    match need_of(alloc, needs, b'H', word)? {
        Some(needed) => entry_with(line, needed, hash_of_word(alloc, value)),
        None => Err(LineError::Bad(DealReason::Foreign)),
    }
}

/// The line of a hash, behind its first word.
pub(crate) fn hash_entry(
    alloc: Global,
    checked: &Checked,
    needs: &Indexed<Need>,
    line: u32,
    words: &[&[u8]],
) -> Result<Entry, LineError>
    requires { map needed_in needs.now ≡ spec_needs.needed checked.now }
    ensures leads { (entries : List SpecEntry)
        → Leads entries result (spec.hash_line checked.now entries line (map (λ w. w.now) words.now)) }
    ensures sized { IfOk result (λ e. keys.is_sized e.value ≡ true) }
{
    match words {
        [word, value] => hash_given(alloc, checked, needs, line, word, value),
        _ => Err(LineError::Bad(DealReason::Form)),
    }
}

/// The line of a network, behind its first word.
pub(crate) fn network_entry(line: u32, words: &[&[u8]]) -> Result<Entry, LineError>
    ensures leads { (entries : List SpecEntry) → Leads entries result (spec.network_line entries line (map (λ w. w.now) words.now)) }
    ensures sized { IfOk result (λ e. keys.is_sized e.value ≡ true) }
{
    match words {
        [word] => entry_with(line, Needed::Network, network_of_word(word)),
        _ => Err(LineError::Bad(DealReason::Form)),
    }
}

// What these words behind the first of the line of a payee give.
fn payee_given(
    alloc: Global,
    checked: &Checked,
    network: &Option<Name>,
    line: u32,
    word: &[u8],
    script: &[u8],
) -> Result<Entry, LineError>
    ensures leads { (entries : List SpecEntry)
        → Leads entries result (spec.payee_line secp256k1 network.now checked.now entries line (word.now ∷ script.now ∷ [])) }
    ensures sized { IfOk result (λ e. keys.is_sized e.value ≡ true) }
{
    match one_of(checked.parties(), word) {
        Some(party) => {
            let value = payee_of_word(alloc, network, script);
            entry_with(line, Needed::Payee(party), value)
        }
        None => Err(LineError::Bad(DealReason::Foreign)),
    }
}

/// The line of a payee, behind its first word.
pub(crate) fn payee_entry(
    alloc: Global,
    checked: &Checked,
    network: &Option<Name>,
    line: u32,
    words: &[&[u8]],
) -> Result<Entry, LineError>
    ensures leads { (entries : List SpecEntry)
        → Leads entries result (spec.payee_line secp256k1 network.now checked.now entries line (map (λ w. w.now) words.now)) }
    ensures sized { IfOk result (λ e. keys.is_sized e.value ≡ true) }
{
    match words {
        [word, script] => payee_given(alloc, checked, network, line, word, script),
        _ => Err(LineError::Bad(DealReason::Form)),
    }
}
