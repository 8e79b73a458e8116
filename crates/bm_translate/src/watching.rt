//! Secrets that are waited for.

ghost use Rattle.std.specs.Prelude.{◌≡◌, ◌==◌, ◌<◌, ◌^◌, ◌++◌, ◌∷◌, [], length, option_map, option_to_list, is_some, map, IfOk, OnOk};
ghost use Rattle.spec_data.specs.Lists.{is_among, look_up};
ghost use Rattle.spec_terms.specs.Precondition.{secrets};
ghost use Rattle.spec_calculus.specs.Branches as branches;
ghost use Rattle.spec_run.specs.Secrets.{digest_at, secrets_from, secrets_of_contract};
ghost use Rattle.bm_translate.specs.Shown as spec;

use crate::strings_shown::{Shown, Shows};
use bm_calculus::Config;
use bm_exchange::{Exchange, Strings, is_secret_long};
use bm_hash::{Hash32, Trail};
use bm_wellformed::Checked;
use spec_calculus::{Revealed, Step};
use spec_data::{Bytes, Name, OutOfMemory};
use spec_terms::Pre;
use std::alloc::Global;
use std::marker::Model;

/// A secret of a contract: the one string that fits what is committed for it in the end, where that is known, and whether it is posted so
/// far.
pub struct Watched {
    pub secret: Revealed,
    pub string: Option<Bytes>,
    pub posted: bool,
}

impl Drop for Watched {
    fn drop(self) {
        let Watched {
            secret: _,
            string: _,
            posted: _,
        } = self;
    }
}

/// All secrets of a run, by contract and precondition. Their strings stand in an index, which tells those that an event posted from
/// its other strings: an event that posts none of them is done with before any secret is looked at.
pub struct Secrets {
    watched: Vec<Watched>,
    strings: Strings,
}

impl Model for Secrets {
    ghost use Rattle.std.specs.Prelude.{List, ◌≡◌};
    ghost use Rattle.bm_translate.specs.declared.watching.Watched.{Watched as Plain};
    ghost use Rattle.bm_translate.specs.Shown.{strings_of};

    ghost Value = { List Plain };

    ghost view = { λ a. a.watched.items };

    ghost invariant = { λ a. a.strings ≡ strings_of a.watched.items };
}

impl Drop for Secrets {
    fn drop(self) {
        let Secrets {
            watched: _,
            strings: _,
        } = self;
    }
}

// The digest of this name among these.
fn digest_in(digests: &[(Name, [u8; 32])], name: &Name) -> Option<[u8; 32]>
    ensures { result ≡ look_up name.now digests.now }
{
    for (known, digest) in digests {
        if *known == *name {
            return Some(*digest);
        }
    }
    None
}

// The digest that is committed for the secret.
fn digest_of(exchange: &Exchange, secret: &Revealed) -> Option<[u8; 32]>
    ensures { result ≡ digest_at exchange.now.promises secret.now }
{
    match exchange.digests(secret.contract, &secret.party) {
        Some(digests) => digest_in(digests, &secret.secret),
        None => None,
    }
}

// The message of this digest, if it has the size of a secret.
fn message_of<'a, H: Hash32 + Drop>(trail: &'a Trail<H>, digest: &[u8; 32]) -> Option<&'a [u8]>
    ensures { option_map (λ b. b.now) result ≡ spec.message_if_long (H.digest_of trail.now.hasher) trail.now.messages digest.now }
{
    let message = trail.message(digest)?;
    if is_secret_long(message) {
        Some(message)
    } else {
        None
    }
}

// The string of this digest, copied.
fn string_of<H: Hash32 + Drop>(
    alloc: Global,
    trail: &Trail<H>,
    digest: Option<[u8; 32]>,
) -> Result<Option<Bytes>, OutOfMemory>
    ensures { IfOk result (λ string. string ≡ spec.string_of (H.digest_of trail.now.hasher) trail.now.messages digest) }
{
    let Some(digest) = digest else {
        return Ok(None);
    };
    match message_of(trail, &digest) {
        Some(message) => Ok(Some(Bytes::from_slice(alloc, message)?)),
        None => Ok(None),
    }
}

// A secret, of which nothing is posted yet.
fn watch<H: Hash32 + Drop>(
    alloc: Global,
    trail: &Trail<H>,
    exchange: &Exchange,
    secret: Revealed,
) -> Result<Watched, OutOfMemory>
    ensures { IfOk result (λ watched. watched
        ≡ spec.watched_of (H.digest_of trail.now.hasher) trail.now.messages exchange.now.promises [] secret) }
{
    let digest = digest_of(exchange, &secret);
    let string = string_of(alloc, trail, digest)?;
    Ok(Watched {
        secret,
        string,
        posted: false,
    })
}

// Adds the secret of an entry, if it is one.
fn put_watched<H: Hash32 + Drop>(
    alloc: Global,
    trail: &Trail<H>,
    exchange: &Exchange,
    watched: &mut Vec<Watched>,
    contract: u32,
    entry: &Pre,
) -> Result<(), OutOfMemory>
    ensures { OnOk result (watched.new.items ≡ watched.old.items
        ++ map (spec.watched_of (H.digest_of trail.now.hasher) trail.now.messages exchange.now.promises [])
        (secrets_of_contract contract (secrets (entry.now ∷ [])))) }
{
    match entry {
        Pre::Secret { party, name } => {
            let secret = Revealed {
                contract,
                party: *party,
                secret: *name,
            };
            watched.push(watch(alloc, trail, exchange, secret)?)?;
            Ok(())
        }
        _ => Ok(()),
    }
}

// Adds the secrets of a precondition.
fn put_all<H: Hash32 + Drop>(
    alloc: Global,
    trail: &Trail<H>,
    exchange: &Exchange,
    watched: &mut Vec<Watched>,
    contract: u32,
    pre: &[Pre],
) -> Result<(), OutOfMemory>
    ensures { OnOk result (watched.new.items ≡ watched.old.items
        ++ map (spec.watched_of (H.digest_of trail.now.hasher) trail.now.messages exchange.now.promises [])
        (secrets_of_contract contract (secrets pre.now))) }
{
    for entry in pre {
        put_watched(alloc, trail, exchange, watched, contract, entry)?;
    }
    Ok(())
}

// The secrets of these contracts.
fn watch_all<H: Hash32 + Drop>(
    alloc: Global,
    trail: &Trail<H>,
    exchange: &Exchange,
    contracts: &[Checked],
) -> Result<Vec<Watched>, OutOfMemory>
    requires few { length contracts.now < 2 ^ 32 }
    ensures { IfOk result (λ watched. watched.items
        ≡ spec.watched_all (H.digest_of trail.now.hasher) trail.now.messages exchange.now.promises [] contracts.now) }
{
    let mut watched = Vec::new(alloc);
    for (k, checked) in contracts.iter().enumerate() {
        put_all(
            alloc,
            trail,
            exchange,
            &mut watched,
            k as u32,
            checked.advert().pre.as_slice(),
        )?;
    }
    Ok(watched)
}

// Adds the string of the secret, where it is known.
fn put_string(strings: &mut Strings, watched: &Watched) -> Result<(), OutOfMemory>
    ensures { OnOk result (strings.new ≡ strings.old ++ option_to_list watched.now.string) }
{
    match &watched.string {
        Some(string) => {
            strings.add(string.as_slice())?;
            Ok(())
        }
        None => Ok(()),
    }
}

// The strings of these secrets.
fn strings_of(alloc: Global, watched: &[Watched]) -> Result<Strings, OutOfMemory>
    ensures { IfOk result (λ strings. strings ≡ spec.strings_of watched.now) }
{
    let mut strings = Strings::new(alloc);
    for one in watched {
        put_string(&mut strings, one)?;
    }
    Ok(strings)
}

// Whether the secret is committed.
fn is_committed(config: &Config, secret: &Revealed) -> bool
    ensures { result ≡ is_some (branches.length_at config.now.committed secret.now.contract secret.now.party secret.now.secret) }
{
    config
        .secret(secret.contract, &secret.party, &secret.secret)
        .is_some()
}

// Whether these strings are the first to show the secret, which is committed.
fn comes_up<S: Shows>(config: &Config, shown: &S, watched: &Watched) -> bool
    ensures { result ≡ spec.comes_up config.now.committed (S.strings shown.now) watched.now }
{
    if watched.posted {
        return false;
    }
    if !shown.shows(&watched.string) {
        return false;
    }
    is_committed(config, &watched.secret)
}

// Whether it is a secret of the party in the contract, and posted.
fn is_out(contract: u32, party: &Name, watched: &Watched) -> bool
    ensures { result ≡ spec.is_out contract party.now watched.now }
{
    contract == watched.secret.contract && *party == watched.secret.party && watched.posted
}

// The step that reveals it.
fn reveal_of(watched: &Watched) -> Step
    ensures { result ≡ spec.reveal_of watched.now }
{
    Step::Reveal {
        contract: watched.secret.contract,
        party: watched.secret.party,
        secret: watched.secret.secret,
    }
}

// The secrets that these strings reveal.
fn revealed_by<S: Shows>(
    alloc: Global,
    config: &Config,
    shown: &S,
    watched: &[Watched],
) -> Result<Vec<Step>, OutOfMemory>
    ensures { IfOk result (λ made. made.items ≡ spec.revealed_by config.now.committed (S.strings shown.now) watched.now) }
{
    let mut made = Vec::new(alloc);
    for one in watched {
        if comes_up(config, shown, one) {
            made.push(reveal_of(one))?;
        }
    }
    Ok(made)
}

// The secrets that these strings reveal: none are looked at, if there is no string.
#[tactic(auto, using(crate::proofs::Known::none_revealed))]
fn revealed_if_any(
    alloc: Global,
    config: &Config,
    shown: &Shown<'_>,
    watched: &[Watched],
) -> Result<Vec<Step>, OutOfMemory>
    ensures { IfOk result (λ made. made.items ≡ spec.revealed_by config.now.committed shown.now watched.now) }
{
    if shown.is_empty() {
        return Ok(Vec::new(alloc));
    }
    match shown.only() {
        Some(only) => revealed_by(alloc, config, &only, watched),
        None => revealed_by(alloc, config, shown, watched),
    }
}

// Adds the secrets of the party in the contract that are posted already.
fn put_revealed(
    steps: &mut Vec<Step>,
    contract: u32,
    party: &Name,
    watched: &[Watched],
) -> Result<(), OutOfMemory>
    ensures { OnOk result (steps.new.items ≡ steps.old.items ++ spec.revealed_of contract party.now watched.now) }
{
    for one in watched {
        if is_out(contract, party, one) {
            steps.push(reveal_of(one))?;
        }
    }
    Ok(())
}

// Notes that these strings are posted.
fn note_all<S: Shows>(shown: &S, watched: &mut Vec<Watched>)
    ensures { watched.new.items ≡ map (spec.noted (S.strings shown.now)) watched.old.items }
{
    for one in watched.iter_mut() {
        if !one.posted {
            one.posted = shown.shows(&one.string);
        }
    }
}

// Notes that these strings are posted. One alone is compared with less ado.
fn note_shown(shown: &Shown<'_>, watched: &mut Vec<Watched>)
    ensures { watched.new.items ≡ map (spec.noted shown.now) watched.old.items }
{
    match shown.only() {
        Some(only) => note_all(&only, watched),
        None => note_all(shown, watched),
    }
}

// Notes that these strings are posted, if there are any. The secrets keep their strings.
fn note_if_any(shown: &Shown<'_>, watched: &mut Vec<Watched>)
    ensures noted { watched.new.items ≡ map (spec.noted shown.now) watched.old.items }
    ensures strings { spec.strings_of watched.new.items ≡ spec.strings_of watched.old.items }
{
    if shown.is_empty() {
        return;
    }
    note_shown(shown, watched);
}

impl Secrets {
    /// The secrets of these contracts, in a run that ends with what was hashed and told; nothing is posted yet.
    pub fn of_run<H: Hash32 + Drop>(
        alloc: Global,
        trail: &Trail<H>,
        exchange: &Exchange,
        contracts: &[Checked],
    ) -> Result<Secrets, OutOfMemory>
        requires few { length contracts.now < 2 ^ 32 }
        ensures { IfOk result (λ secrets. secrets
            ≡ spec.watched_all (H.digest_of trail.now.hasher) trail.now.messages exchange.now.promises [] contracts.now) }
    {
        let watched = watch_all(alloc, trail, exchange, contracts)?;
        let strings = strings_of(alloc, &watched)?;
        Ok(Secrets { watched, strings })
    }

    /// Whether no secret has a string that is known.
    pub fn has_none(&self) -> bool
        ensures { result ≡ (length (spec.strings_of self.now) == 0) }
    {
        self.strings.count() == 0
    }

    /// Whether it is the string of a secret.
    pub fn has(&self, string: &[u8]) -> bool
        ensures { result ≡ is_among string.now (spec.strings_of self.now) }
    {
        self.strings.has(string)
    }

    /// The steps that reveal what these strings are the first to show.
    pub fn revealed(
        &self,
        alloc: Global,
        config: &Config,
        shown: &Shown<'_>,
    ) -> Result<Vec<Step>, OutOfMemory>
        ensures { IfOk result (λ made. made.items ≡ spec.revealed_by config.now.committed shown.now self.now) }
    {
        revealed_if_any(alloc, config, shown, &self.watched)
    }

    /// Adds the steps that reveal the secrets of the party in the contract which are posted already.
    pub fn put_revealed(
        &self,
        steps: &mut Vec<Step>,
        contract: u32,
        party: &Name,
    ) -> Result<(), OutOfMemory>
        ensures { OnOk result (steps.new.items ≡ steps.old.items ++ spec.revealed_of contract party.now self.now) }
    {
        put_revealed(steps, contract, party, &self.watched)
    }

    /// Notes that these strings are posted.
    pub fn note(&mut self, shown: &Shown<'_>)
        ensures { self.new ≡ map (spec.noted shown.now) self.old }
    {
        note_if_any(shown, &mut self.watched);
    }
}
