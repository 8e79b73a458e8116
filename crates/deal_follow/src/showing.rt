//! The secrets that a transaction shows, whosever it is.

ghost use Rattle.std.specs.Prelude.{◌≡◌, ◌≤◌, ◌++◌, ℕ, List, map, option_map, is_some, IfOk, OnOk};
ghost use Rattle.std.specs.List.{find};
ghost use Rattle.spec_data.specs.Lists.{look_up};
ghost use Rattle.spec_terms.specs.Precondition.{secrets};
ghost use Rattle.spec_compiler.specs.Scripts.{digest_of as hash_for};
ghost use Rattle.spec_bitcoin.specs.declared.tx.Tx.{Tx as Confirmed};
ghost use Rattle.spec_chain.specs.Following as spec;
ghost use Rattle.deal_follow.specs.Boards.{setting};
ghost use Rattle.deal_follow.specs.Seen.{state_in, item_in, hashed_items, likely_items};
ghost use Rattle.deal_follow.specs.Showing.{is_string_in, string_in, newly_string, secret_if, string_if, secrets_by, strings_by};

use crate::board::Board;
use crate::hashing::{Item, has_length};
use crate::standing::Standing;
use spec_data::{Bytes, Name, OutOfMemory};
use spec_terms::Pre;
use std::alloc::{AllocError, Global};

/// The secrets that a transaction is the first to show, each with whose it is, and their strings.
#[derive(Drop)]
pub(crate) struct Shows {
    pub(crate) secrets: Vec<(Name, Name)>,
    pub(crate) strings: Vec<(Name, Bytes)>,
}

// Whether an item is the string of the secret that has this digest.
fn is_string(item: &Item, digest: &[u8; 32]) -> bool
    ensures { result ≡ is_string_in digest.now (item_in item.now) }
{
    has_length(item.bytes.as_slice()) && item.digest == *digest
}

// The first of these items that is the string of the secret that has this digest.
fn string_in<'a>(items: &[Item<'a>], digest: &[u8; 32]) -> Option<&'a Bytes>
    ensures { option_map (λ b. b.now) result ≡ string_in digest.now (map item_in items.now) }
{
    for item in items {
        if is_string(item, digest) {
            return Some(item.bytes);
        }
    }
    None
}

// The digest of a secret.
fn digest_of<'a>(hashes: &'a [(Name, [u8; 32])], name: &Name) -> Option<&'a [u8; 32]>
    ensures { option_map (λ d. d.now) result ≡ look_up name.now hashes.now }
{
    for (known, hash) in hashes {
        if *known == *name {
            return Some(hash);
        }
    }
    None
}

// The string of the secret of this name among these items. A secret without a hash, as a deal has none, is taken for lack of memory.
fn string_shown<'a>(
    board: &Board,
    items: &[Item<'a>],
    name: &Name,
) -> Result<Option<&'a Bytes>, OutOfMemory>
    ensures { IfOk result (λ o. option_map (λ b. b.now) o ≡ string_in (hash_for (setting board.now).hashes name.now) (map item_in items.now)) }
{
    match digest_of(board.deal.hashes.as_slice(), name) {
        Some(digest) => Ok(string_in(items, digest)),
        None => Err(AllocError),
    }
}

// Whether the secret of this name was shown.
fn is_shown(shown: &[(Name, Bytes)], name: &Name) -> bool
    ensures { result ≡ is_some (look_up name.now shown.now) }
{
    for (known, _bytes) in shown {
        if *known == *name {
            return true;
        }
    }
    false
}

// The string of the secret of this name among these items, unless it was shown.
fn newly_shown<'a>(
    board: &Board,
    standing: &Standing,
    items: &[Item<'a>],
    name: &Name,
) -> Result<Option<&'a Bytes>, OutOfMemory>
    ensures { IfOk result (λ o. option_map (λ b. b.now) o
        ≡ newly_string (setting board.now).hashes standing.now.shown.items (map item_in items.now) name.now) }
{
    if is_shown(&standing.shown, name) {
        return Ok(None);
    }
    string_shown(board, items, name)
}

// Adds a secret with whose it is, and its string, where there is one.
fn put_secret(
    alloc: Global,
    secrets: &mut Vec<(Name, Name)>,
    strings: &mut Vec<(Name, Bytes)>,
    name: &Name,
    party: &Name,
    found: Option<&Bytes>,
) -> Result<(), OutOfMemory>
    ensures secrets { OnOk result (secrets.new.items ≡ secrets.old.items ++ secret_if (name.now, party.now) (option_map (λ b. b.now) found.entry)) }
    ensures strings { OnOk result (strings.new.items ≡ strings.old.items ++ string_if (name.now, party.now) (option_map (λ b. b.now) found.entry)) }
{
    let Some(bytes) = found else {
        return Ok(());
    };
    secrets.push((*name, *party))?;
    strings.push((*name, bytes.copy(alloc)?))?;
    Ok(())
}

// The secrets of this precondition that these items are the first to show.
fn all_shown(
    alloc: Global,
    board: &Board,
    standing: &Standing,
    items: &[Item],
    pre: &[Pre],
) -> Result<Shows, OutOfMemory>
    ensures secrets { IfOk result (λ x. x.secrets.items ≡ secrets_by (setting board.now).hashes standing.now.shown.items
        (map item_in items.now) (secrets pre.now)) }
    ensures strings { IfOk result (λ x. x.strings.items ≡ strings_by (setting board.now).hashes standing.now.shown.items
        (map item_in items.now) (secrets pre.now)) }
{
    let mut shown = Vec::new(alloc);
    let mut strings = Vec::new(alloc);
    for entry in pre {
        if let Pre::Secret { party, name } = entry {
            let found = newly_shown(board, standing, items, name)?;
            put_secret(alloc, &mut shown, &mut strings, name, party, found)?;
        }
    }
    Ok(Shows {
        secrets: shown,
        strings,
    })
}

/// What a transaction is the first to show, by the items of its witnesses that have as many bytes as a secret may have.
pub(crate) fn shown_by(
    alloc: Global,
    board: &Board,
    standing: &Standing,
    items: &[Item],
) -> Result<Shows, OutOfMemory>
    ensures secrets { (hash : List ℕ → List ℕ) (tx : Confirmed) → map item_in items.now ≡ hashed_items hash (likely_items tx)
        → IfOk result (λ x. x.secrets.items ≡ spec.newly_shown hash (setting board.now) (state_in standing.now) tx) }
    ensures strings { (hash : List ℕ → List ℕ) (tx : Confirmed) → map item_in items.now ≡ hashed_items hash (likely_items tx)
        → IfOk result (λ x. x.strings.items ≡ spec.strings_shown hash (setting board.now) (state_in standing.now) tx) }
{
    let pre = &board.checked.advert().pre;
    all_shown(alloc, board, standing, items, pre)
}
