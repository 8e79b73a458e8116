//! Secrets that are guessed.

ghost use Rattle.std.specs.Prelude.{◌≡◌, ◌∷◌, [], IfOk};
ghost use Rattle.std.specs.List.{find, list_any};
ghost use Rattle.std.specs.Option.{option_copied};
ghost use Rattle.spec_data.specs.Lists.{is_among};
ghost use Rattle.spec_run.specs.Pending.{is_allowed, is_guessed};
ghost use Rattle.bm_world_board.specs.Secrets.{secret_strings};
ghost use Rattle.bm_world_apply.specs.Guessing.{is_untold};

use crate::applying::post_all;
use bm_exchange::{Exchange, Strings, are_same};
use spec_data::{Bytes, Name, OutOfMemory};
use spec_run::HeldSecret;
use std::alloc::Global;

// An exchange where nothing but these strings is posted: its index answers for each of them.
fn indexed(alloc: Global, posts: &[Bytes]) -> Result<Exchange, OutOfMemory>
    ensures { IfOk result (λ shown. shown.posted ≡ posts.now) }
{
    let mut shown = Exchange::new(alloc, 0)?;
    post_all(&mut shown, posts)?;
    shown.index_posts();
    Ok(shown)
}

// Whether it is the secret that the event may post.
fn may_post(allowed: &Option<(Name, Name)>, held: &HeldSecret) -> bool
    ensures { result ≡ is_allowed allowed.now held.now }
{
    match allowed {
        Some((party, name)) => *party == held.party && *name == held.name,
        None => false,
    }
}

// Whether the strings that are shown have the bytes of a secret that isn't posted and may not be.
fn has_guessed(
    exchange: &Exchange,
    shown: &Exchange,
    allowed: &Option<(Name, Name)>,
    held: &HeldSecret,
) -> bool
    ensures { result ≡ is_guessed exchange.now.posted shown.now.posted allowed.now held.now }
{
    shown.posted(held.bytes.as_slice())
        && !exchange.posted(held.bytes.as_slice())
        && !may_post(allowed, held)
}

// The first of the secrets that these strings guess.
fn first_shown<'a>(
    secrets: &'a [HeldSecret],
    exchange: &Exchange,
    shown: &Exchange,
    allowed: &Option<(Name, Name)>,
) -> Option<&'a HeldSecret>
    ensures { option_copied result ≡ find (is_guessed exchange.now.posted shown.now.posted allowed.now) secrets.now }
{
    for held in secrets {
        if has_guessed(exchange, shown, allowed, held) {
            return Some(held);
        }
    }
    None
}

// Whether a string is one of a few.
fn is_one_of(posts: &[Bytes], string: &[u8]) -> bool
    ensures { result ≡ is_among string.now posts.now }
{
    posts.iter().any(|post| are_same(post.as_slice(), string))
}

// Whether a few strings have the bytes of a secret that isn't posted and may not be.
fn is_guessed_by(
    posts: &[Bytes],
    exchange: &Exchange,
    allowed: &Option<(Name, Name)>,
    held: &HeldSecret,
) -> bool
    ensures { result ≡ is_guessed exchange.now.posted posts.now allowed.now held.now }
{
    let bytes = held.bytes.as_slice();
    is_one_of(posts, bytes) && !exchange.posted(bytes) && !may_post(allowed, held)
}

// Whether a string has the bytes of a secret that isn't posted and may not be.
fn is_guessed_as(
    post: &[u8],
    exchange: &Exchange,
    allowed: &Option<(Name, Name)>,
    held: &HeldSecret,
) -> bool
    ensures { result ≡ is_guessed exchange.now.posted (post.now ∷ []) allowed.now held.now }
{
    let bytes = held.bytes.as_slice();
    are_same(post, bytes) && !exchange.posted(bytes) && !may_post(allowed, held)
}

// The first of the secrets that one string guesses.
fn first_as<'a>(
    secrets: &'a [HeldSecret],
    exchange: &Exchange,
    post: &[u8],
    allowed: &Option<(Name, Name)>,
) -> Option<&'a HeldSecret>
    ensures { option_copied result ≡ find (is_guessed exchange.now.posted (post.now ∷ []) allowed.now) secrets.now }
{
    secrets
        .iter()
        .find(|held| is_guessed_as(post, exchange, allowed, held))
}

// The first of the secrets that a few strings guess. Each is compared with each of them.
fn first_among<'a>(
    secrets: &'a [HeldSecret],
    exchange: &Exchange,
    posts: &[Bytes],
    allowed: &Option<(Name, Name)>,
) -> Option<&'a HeldSecret>
    ensures { option_copied result ≡ find (is_guessed exchange.now.posted posts.now allowed.now) secrets.now }
{
    secrets
        .iter()
        .find(|held| is_guessed_by(posts, exchange, allowed, held))
}

// Whether one of the strings has the bytes of a secret. Each is looked up once.
fn has_known(known: &Strings, posts: &[Bytes]) -> bool
    ensures { result ≡ list_any (λ post. is_among post known.now) posts.now }
{
    posts.iter().any(|post| known.has(post.as_slice()))
}

// Whether the string has the bytes of a secret, and isn't posted.
fn is_untold(known: &Strings, exchange: &Exchange, string: &[u8]) -> bool
    ensures { result ≡ is_untold known.now exchange.now.posted string.now }
{
    known.has(string) && !exchange.posted(string)
}

// Whether one of the strings has the bytes of a secret, and isn't posted.
fn has_untold(known: &Strings, exchange: &Exchange, posts: &[Bytes]) -> bool
    ensures { result ≡ list_any (is_untold known.now exchange.now.posted) posts.now }
{
    posts
        .iter()
        .any(|post| is_untold(known, exchange, post.as_slice()))
}

// The first of the secrets that these strings guess. Where there are many strings, each secret is looked up in an index of them. It
// stands apart, so that the room that it needs isn't blanked for events that guess nothing.
#[inline(never)]
fn first_of_all<'a>(
    alloc: Global,
    secrets: &'a [HeldSecret],
    exchange: &Exchange,
    posts: &[Bytes],
    allowed: &Option<(Name, Name)>,
) -> Result<Option<&'a HeldSecret>, OutOfMemory>
    ensures { IfOk result (λ found. option_copied found ≡ find (is_guessed exchange.now.posted posts.now allowed.now) secrets.now) }
{
    if let [post] = posts {
        return Ok(first_as(secrets, exchange, post.as_slice(), allowed));
    }
    if posts.len() <= 16 {
        return Ok(first_among(secrets, exchange, posts, allowed));
    }
    let shown = indexed(alloc, posts)?;
    Ok(first_shown(secrets, exchange, &shown, allowed))
}

// The first of the secrets that is guessed, where one of the strings has the bytes of a secret: only where one of these isn't posted are
// the secrets gone through.
#[tactic(auto, using(crate::proofs::Unguessed::none_guessed))]
fn first_untold<'a>(
    alloc: Global,
    secrets: &'a [HeldSecret],
    known: &Strings,
    exchange: &Exchange,
    posts: &[Bytes],
    allowed: &Option<(Name, Name)>,
) -> Result<Option<&'a HeldSecret>, OutOfMemory>
    requires known { known.now ≡ secret_strings secrets.now }
    ensures { IfOk result (λ found. option_copied found ≡ find (is_guessed exchange.now.posted posts.now allowed.now) secrets.now) }
{
    if !has_untold(known, exchange, posts) {
        return Ok(None);
    }
    first_of_all(alloc, secrets, exchange, posts, allowed)
}

/// The first of the secrets that is guessed, with its owner. `known` has the bytes of the secrets. Where none of the strings is among them
/// nobody asks what was posted; else that is made fast to ask first, and the exchange says the same.
pub fn first_guessed<'a>(
    alloc: Global,
    secrets: &'a [HeldSecret],
    known: &Strings,
    exchange: &mut Exchange,
    posts: &[Bytes],
    allowed: &Option<(Name, Name)>,
) -> Result<Option<&'a HeldSecret>, OutOfMemory>
    requires known { known.now ≡ secret_strings secrets.now }
    ensures same { exchange.new ≡ exchange.old }
    ensures found { IfOk result (λ found. option_copied found ≡ find (is_guessed exchange.old.posted posts.now allowed.now) secrets.now) }
{
    if !has_known(known, posts) {
        return Ok(None);
    }
    exchange.index_posts();
    first_untold(alloc, secrets, known, exchange, posts, allowed)
}
