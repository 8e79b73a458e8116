//! The lengths of secrets that are committed.

ghost use Rattle.std.specs.Prelude.{◌≡◌, if◌then◌else◌, Some, None, IfOk};
ghost use Rattle.spec_data.specs.Lists.{is_among};
ghost use Rattle.bm_translate.specs.Lengths as spec;

use bm_exchange::{Exchange, held_secret, is_secret_long};
use bm_hash::{Hash32, Trail};
use bm_world_board::is_name_among;
use spec_data::{LEAST_SECRET_BYTES, Name, OutOfMemory, Seq};
use spec_run::{Header, HeldSecret};
use std::alloc::Global;

// The length of a secret with these bytes, if they have the size of one.
fn long_size(bytes: &[u8]) -> Option<u32>
    ensures { result ≡ spec.long_size bytes.now }
{
    if !is_secret_long(bytes) {
        return None;
    }
    Some((bytes.len() - LEAST_SECRET_BYTES) as u32)
}

// The length of an honest party's secret.
fn held_length(secrets: &[HeldSecret], party: &Name, name: &Name) -> Option<u32>
    ensures { result ≡ spec.held_length party.now name.now secrets.now }
{
    long_size(held_secret(secrets, party, name)?)
}

// The same, if these bytes are posted.
fn posted_size(exchange: &Exchange, bytes: &[u8]) -> Option<u32>
    ensures { result ≡ spec.posted_size exchange.now.posted bytes.now }
{
    if !exchange.posted(bytes) {
        return None;
    }
    long_size(bytes)
}

// The length of the secret of this digest, if it is posted.
fn told_length<H: Hash32 + Drop>(
    trail: &Trail<H>,
    exchange: &Exchange,
    digest: &[u8; 32],
) -> Option<u32>
    ensures { result ≡ spec.told_length (H.digest_of trail.now.hasher) trail.now.messages exchange.now.posted digest.now }
{
    posted_size(exchange, trail.message(digest)?)
}

// The length of a party's secret.
fn length_of<H: Hash32 + Drop>(
    trail: &Trail<H>,
    header: &Header,
    exchange: &Exchange,
    party: &Name,
    name: &Name,
    digest: &[u8; 32],
) -> Option<u32>
    ensures { result ≡ spec.length_by (H.digest_of trail.now.hasher) header.now trail.now.messages exchange.now.posted
        party.now name.now digest.now }
{
    if is_name_among(header.honest.as_slice(), party) {
        held_length(header.secrets.as_slice(), party, name)
    } else {
        told_length(trail, exchange, digest)
    }
}

/// The lengths of a party's secrets with these digests: an honest party's by its own secrets, and another's by the strings that
/// are posted.
pub(crate) fn lengths_of<H: Hash32 + Drop>(
    alloc: Global,
    trail: &Trail<H>,
    header: &Header,
    exchange: &Exchange,
    party: &Name,
    digests: &[(Name, [u8; 32])],
) -> Result<Seq<(Name, Option<u32>)>, OutOfMemory>
    ensures { IfOk result (λ lengths. lengths
        ≡ spec.lengths_by (H.digest_of trail.now.hasher) header.now trail.now.messages exchange.now.posted party.now digests.now) }
{
    let mut lengths = Seq::new(alloc);
    for (name, digest) in digests {
        lengths.push((
            *name,
            length_of(trail, header, exchange, party, name, digest),
        ))?;
    }
    Ok(lengths)
}
