//! What a line of a deal file says.

ghost use Rattle.std.specs.Prelude.{◌≡◌, List, map, true, false, None, IfOk, IfSome, OnOk};
ghost use Rattle.std.specs.List.{find};
ghost use Rattle.std.specs.Str.{bytes_eq};
ghost use Rattle.spec_text.specs.Lines.{words_of};
ghost use Rattle.spec_deal.specs.declared.entry.Entry.{Entry as SpecEntry};
ghost use Rattle.spec_deal.specs.Needed as spec_needs;
ghost use Rattle.spec_deal.specs.Needed.{same_needed};
ghost use Rattle.spec_deal.specs.DealFile as spec;
ghost use Rattle.spec_deal.specs.Verifier.{secp256k1};
ghost use Rattle.deal_file.specs.Keying as keys;
ghost use Rattle.deal_file.specs.Entries.{needed_in, told, IsTied};
ghost use Rattle.deal_file.specs.Gives.{LeadsOn, Takes};

use crate::entries::Entries;
use crate::error::LineError;
use crate::keying::{Need, is_unique, need_key, value_key};
use crate::kinds::{deposit_entry, hash_entry, key_entry, network_entry, payee_entry};
use bm_runfile::words_of;
use bm_wellformed::Checked;
use deal_index::Indexed;
use spec_data::Name;
use spec_deal::{DealReason, Entry};
use std::alloc::Global;

// What a line gives, if it has words.
fn entry_of(
    alloc: Global,
    checked: &Checked,
    needs: &Indexed<Need>,
    network: &Option<Name>,
    line: u32,
    words: &[&[u8]],
) -> Result<Option<Entry>, LineError>
    requires { map needed_in needs.now ≡ spec_needs.needed checked.now }
    ensures leads { (entries : List SpecEntry) → LeadsOn entries result
        (spec.line_says secp256k1 network.now checked.now entries line (map (λ w. w.now) words.now)) }
    ensures sized { IfOk result (λ o. IfSome o (λ e. keys.is_sized e.value ≡ true)) }
{
    let [word, rest @ ..] = words else {
        return Ok(None);
    };
    if *word == b"key".as_slice() {
        Ok(Some(key_entry(alloc, checked, needs, line, rest)?))
    } else if *word == b"deposit".as_slice() {
        Ok(Some(deposit_entry(alloc, checked, needs, network, line, rest)?))
    } else if *word == b"hash".as_slice() {
        Ok(Some(hash_entry(alloc, checked, needs, line, rest)?))
    } else if *word == b"network".as_slice() {
        Ok(Some(network_entry(line, rest)?))
    } else if *word == b"pay".as_slice() {
        Ok(Some(payee_entry(alloc, checked, network, line, rest)?))
    } else {
        Err(LineError::Bad(DealReason::Form))
    }
}

// Takes an entry whose value may be given once alone, unless an earlier line has given it.
fn take_unique(
    alloc: Global,
    entries: &mut Entries,
    entry: Entry,
    need: Vec<u8>,
) -> Result<(), LineError>
    requires tied { IsTied entries.old }
    requires need { need.items ≡ keys.need_key entry.needed }
    requires sized { keys.is_sized entry.value ≡ true }
    requires unique { keys.is_unique entry.value ≡ true }
    requires first { find (λ x. same_needed x.needed entry.needed) (told entries.old) ≡ None }
    ensures takes { Takes (told entries.old) (told entries.new) result (spec.if_new (told entries.old) entry) }
    ensures tied { OnOk result (IsTied entries.new) }
{
    let worth = value_key(alloc, &entry.value)?;
    if let Some(earlier) = entries.line_of_value(&worth) {
        return Err(LineError::Bad(DealReason::Shared(earlier)));
    }
    entries.push_unique(alloc, entry, need, worth)?;
    Ok(())
}

// Takes an entry whose value may be given again.
fn take_other(entries: &mut Entries, entry: Entry, need: Vec<u8>) -> Result<(), LineError>
    requires tied { IsTied entries.old }
    requires need { need.items ≡ keys.need_key entry.needed }
    requires unique { keys.is_unique entry.value ≡ false }
    requires first { find (λ x. same_needed x.needed entry.needed) (told entries.old) ≡ None }
    ensures takes { Takes (told entries.old) (told entries.new) result (spec.if_new (told entries.old) entry) }
    ensures tied { OnOk result (IsTied entries.new) }
{
    entries.push_other(entry, need)?;
    Ok(())
}

// Takes what a line gives, unless an earlier line has given the same, or to the same.
fn take_entry(alloc: Global, entries: &mut Entries, entry: Entry) -> Result<(), LineError>
    requires tied { IsTied entries.old }
    requires sized { keys.is_sized entry.value ≡ true }
    ensures takes { Takes (told entries.old) (told entries.new) result (spec.if_new (told entries.old) entry) }
    ensures tied { OnOk result (IsTied entries.new) }
{
    let need = need_key(alloc, &entry.needed)?;
    if let Some(earlier) = entries.line_for(&need) {
        return Err(LineError::Bad(DealReason::Repeated(earlier)));
    }
    if is_unique(&entry.value) {
        return take_unique(alloc, entries, entry, need);
    }
    take_other(entries, entry, need)
}

/// Takes a line of this number of a file of this network.
pub(crate) fn take_line(
    alloc: Global,
    checked: &Checked,
    needs: &Indexed<Need>,
    network: &Option<Name>,
    entries: &mut Entries,
    number: u32,
    line: &[u8],
) -> Result<(), LineError>
    requires needs { map needed_in needs.now ≡ spec_needs.needed checked.now }
    requires tied { IsTied entries.old }
    ensures takes { Takes (told entries.old) (told entries.new) result
        (spec.line_says secp256k1 network.now checked.now (told entries.old) number (words_of line.now)) }
    ensures tied { OnOk result (IsTied entries.new) }
{
    let words = words_of(alloc, line)?;
    match entry_of(alloc, checked, needs, network, number, &words)? {
        Some(entry) => take_entry(alloc, entries, entry),
        None => Ok(()),
    }
}
