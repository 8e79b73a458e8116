//! Committed and revealed secrets.

ghost use Rattle.std.specs.Prelude.{◌≡◌, ◌==◌, ◌&&◌};
ghost use Rattle.std.specs.Str.{bytes_eq};
ghost use Rattle.spec_data.specs.Lists.{look_up};
ghost use Rattle.spec_terms.specs.Precondition.{secrets};
ghost use Rattle.spec_calculus.specs.Branches as spec;

use spec_calculus::{Committed, Revealed};
use spec_data::Name;
use spec_terms::Pre;

fn length_in(lengths: &[(Name, Option<u32>)], secret: &Name) -> Option<Option<u32>>
    ensures { result ≡ look_up secret.now lengths.now }
{
    for length in lengths {
        if length.0 == *secret {
            return Some(length.1);
        }
    }
    None
}

fn is_of(entry: &Committed, contract: u32, party: &Name) -> bool
    ensures { result ≡ ((entry.now.contract == contract) && bytes_eq entry.now.party party.now) }
{
    entry.contract == contract && entry.party == *party
}

/// The length that a party has committed for a secret, if it has committed it.
pub fn length_at(
    committed: &[Committed],
    contract: u32,
    party: &Name,
    secret: &Name,
) -> Option<Option<u32>>
    ensures { result ≡ spec.length_at committed.now contract party.now secret.now }
{
    for entry in committed {
        if is_of(entry, contract, party) {
            return length_in(entry.lengths.as_slice(), secret);
        }
    }
    None
}

/// Whether the party's secret is revealed.
pub fn is_revealed(revealed: &[Revealed], contract: u32, party: &Name, secret: &Name) -> bool
    ensures { result ≡ spec.is_revealed revealed.now contract party.now secret.now }
{
    revealed.iter().any(|r| r.contract == contract && r.party == *party && r.secret == *secret)
}

fn party_of(pre: &[Pre], secret: &Name) -> Option<Name>
    ensures { result ≡ look_up secret.now (secrets pre.now) }
{
    for entry in pre {
        if let Pre::Secret { party, name } = entry
            && *name == *secret
        {
            return Some(*party);
        }
    }
    None
}

/// Whether the secret of this name of a precondition is revealed.
pub fn is_revealed_by(revealed: &[Revealed], contract: u32, pre: &[Pre], secret: &Name) -> bool
    ensures { result ≡ spec.is_revealed_by revealed.now contract (look_up secret.now (secrets pre.now)) secret.now }
{
    match party_of(pre, secret) {
        None => false,
        Some(party) => is_revealed(revealed, contract, &party, secret),
    }
}

/// Whether each of a contract's secrets of these names is revealed.
pub fn are_revealed(revealed: &[Revealed], contract: u32, pre: &[Pre], names: &[Name]) -> bool
    ensures { result ≡ spec.are_revealed revealed.now contract pre.now names.now }
{
    names
        .iter()
        .all(|x| is_revealed_by(revealed, contract, pre, x))
}

/// The length of a contract's secret of this name, 0 where none is known.
pub fn secret_length(committed: &[Committed], contract: u32, pre: &[Pre], secret: &Name) -> u32
    ensures { result ≡ spec.secret_length committed.now contract pre.now secret.now }
{
    match party_of(pre, secret) {
        None => 0,
        Some(party) => known_length(length_at(committed, contract, &party, secret)),
    }
}

fn known_length(length: Option<Option<u32>>) -> u32
    ensures { result ≡ spec.known_length length }
{
    match length {
        None => 0,
        Some(None) => 0,
        Some(Some(length)) => length,
    }
}
