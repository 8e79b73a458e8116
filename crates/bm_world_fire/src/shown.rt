//! Posted strings that fit committed secrets.

ghost use Rattle.std.specs.Prelude.{◌≡◌, map, option_map, IfOk};
ghost use Rattle.spec_data.specs.Lists.{look_up, is_among};
ghost use Rattle.spec_run.specs.Setup.{bytes_or_none};
ghost use Rattle.bm_world_board.specs.Playable.{IsPlayable};
ghost use Rattle.bm_world_board.specs.Prepares.{setup_of};
ghost use Rattle.bm_world_fire.specs.Shown.{if_shown, shown_by, first_unshown_by};

use bm_exchange::{Exchange, is_secret_long};
use bm_hash::{Hash32, Trail};
use bm_world_board::Board;
use spec_data::{Bytes, Name, OutOfMemory, Seq};
use std::alloc::Global;

// The digest of this name.
fn digest_of<'a>(digests: &'a [(Name, [u8; 32])], name: &Name) -> Option<&'a [u8; 32]>
    ensures { option_map (λ d. d.now) result ≡ look_up name.now digests.now }
{
    for digest in digests {
        if digest.0 == *name {
            return Some(&digest.1);
        }
    }
    None
}

// The string, if it was posted and has the size of a secret.
fn if_shown<'a>(exchange: &Exchange, string: &'a [u8]) -> Option<&'a [u8]>
    ensures { option_map (λ b. b.now) result ≡ if_shown exchange.now.posted string.now }
{
    if is_secret_long(string) && exchange.posted(string) {
        Some(string)
    } else {
        None
    }
}

/// The posted string that fits the secret of this name. There is at most one, since nothing has collided, and each string that
/// was posted was hashed.
fn shown<'a, H: Hash32 + Drop>(
    trail: &'a Trail<H>,
    board: &Board,
    hashes: &[(Name, [u8; 32])],
    name: &Name,
) -> Option<&'a [u8]>
    requires playable { IsPlayable (setup_of (H.digest_of trail.now.hasher) board.now) board.now trail.now.messages }
    ensures { let s = setup_of (H.digest_of trail.now.hasher) board.now in
        option_map (λ b. b.now) result ≡ shown_by s board.now.exchange.posted hashes.now name.now }
{
    let Some(digest) = digest_of(hashes, name) else {
        return None;
    };
    let Some(string) = trail.message(digest) else {
        return None;
    };
    if_shown(&board.exchange, string)
}

/// The first of the names for whose secret no fitting string is posted.
pub(crate) fn first_unshown<H: Hash32 + Drop>(
    trail: &Trail<H>,
    board: &Board,
    hashes: &[(Name, [u8; 32])],
    names: &[Name],
) -> Option<Name>
    requires playable { IsPlayable (setup_of (H.digest_of trail.now.hasher) board.now) board.now trail.now.messages }
    ensures { let s = setup_of (H.digest_of trail.now.hasher) board.now in
        result ≡ first_unshown_by s board.now.exchange.posted hashes.now names.now }
{
    for name in names {
        if shown(trail, board, hashes, name).is_none() {
            return Some(*name);
        }
    }
    None
}

// The posted string that fits the secret of this name, nothing without one.
fn shown_or_none<H: Hash32 + Drop>(
    alloc: Global,
    trail: &Trail<H>,
    board: &Board,
    hashes: &[(Name, [u8; 32])],
    name: &Name,
) -> Result<Bytes, OutOfMemory>
    requires playable { IsPlayable (setup_of (H.digest_of trail.now.hasher) board.now) board.now trail.now.messages }
    ensures { let s = setup_of (H.digest_of trail.now.hasher) board.now in
        IfOk result (λ b. b ≡ bytes_or_none (shown_by s board.now.exchange.posted hashes.now name.now)) }
{
    match shown(trail, board, hashes, name) {
        Some(string) => Ok(Bytes::from_slice(alloc, string)?),
        None => Ok(Bytes::of(Vec::new(alloc))),
    }
}

/// The posted strings that fit the secrets of these names.
pub(crate) fn shown_strings<H: Hash32 + Drop>(
    alloc: Global,
    trail: &Trail<H>,
    board: &Board,
    hashes: &[(Name, [u8; 32])],
    names: &[Name],
) -> Result<Seq<Bytes>, OutOfMemory>
    requires playable { IsPlayable (setup_of (H.digest_of trail.now.hasher) board.now) board.now trail.now.messages }
    ensures { let s = setup_of (H.digest_of trail.now.hasher) board.now in
        IfOk result (λ strings. strings ≡ map (λ name. bytes_or_none (shown_by s board.now.exchange.posted hashes.now name)) names.now) }
{
    let mut strings = Seq::new(alloc);
    for name in names {
        strings.push(shown_or_none(alloc, trail, board, hashes, name)?)?;
    }
    Ok(strings)
}
