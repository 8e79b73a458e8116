//! Digests beside the names of their secrets.

ghost use Rattle.std.specs.Prelude.{◌≡◌, ◌++◌, [], true, map, is_some, IfOk};
ghost use Rattle.std.specs.List.{list_all};
ghost use Rattle.spec_data.specs.Lists as lists;
ghost use Rattle.spec_data.specs.Lists.{is_among, look_up};
ghost use Rattle.spec_terms.specs.Precondition.{names_of};
ghost use Rattle.spec_run.specs.Advertising as spec;
ghost use Rattle.spec_run.specs.Advertising.{or_else_this};
ghost use Rattle.spec_run.specs.Committing.{used_digests, used_again};

use bm_exchange::Exchange;
use bm_world_board::is_name_among;
use spec_data::{Name, OutOfMemory, Seq};
use std::alloc::Global;

// Whether one of the digests is of this name.
fn is_named(digests: &[(Name, [u8; 32])], name: &Name) -> bool
    ensures { result ≡ is_among name.now (names_of digests.now) }
{
    for digest in digests {
        if digest.0 == *name {
            return true;
        }
    }
    false
}

// Whether each digest is of one of these names.
fn are_all_required(digests: &[(Name, [u8; 32])], required: &[Name]) -> bool
    ensures { result ≡ list_all (λ n. is_among n required.now) (names_of digests.now) }
{
    for digest in digests {
        if !is_name_among(required, &digest.0) {
            return false;
        }
    }
    true
}

// Whether each of these names has a digest.
fn are_all_named(digests: &[(Name, [u8; 32])], required: &[Name]) -> bool
    ensures { result ≡ list_all (λ n. is_among n (names_of digests.now)) required.now }
{
    for name in required {
        if !is_named(digests, name) {
            return false;
        }
    }
    true
}

// Whether no name has two digests.
fn are_different(digests: &[(Name, [u8; 32])]) -> bool
    ensures { result ≡ lists.are_different (names_of digests.now) }
{
    let mut rest = digests;
    while let Some((first, others)) = rest.split_first() {
        if is_named(others, &first.0) {
            return false;
        }
        rest = others;
    }
    true
}

/// Whether the digests are of these names, each once, in any order.
pub(crate) fn are_rearranged(digests: &[(Name, [u8; 32])], required: &[Name]) -> bool
    ensures { result ≡ spec.are_rearranged (names_of digests.now) required.now }
{
    are_all_required(digests, required)
        && are_different(digests)
        && are_all_named(digests, required)
}

// The digest of this name.
fn digest_of(digests: &[(Name, [u8; 32])], name: &Name) -> [u8; 32]
    requires { is_some (look_up name.now digests.now) ≡ true }
    ensures { result ≡ or_else_this [] (look_up name.now digests.now) }
{
    for digest in digests {
        if digest.0 == *name {
            return digest.1;
        }
    }
    unreachable!()
}

/// The digests of these names, in their order.
pub(crate) fn arranged(
    alloc: Global,
    required: &[Name],
    digests: &[(Name, [u8; 32])],
) -> Result<Seq<(Name, [u8; 32])>, OutOfMemory>
    requires { list_all (λ n. is_some (look_up n digests.now)) required.now ≡ true }
    ensures { IfOk result (λ list. list ≡ spec.arranged [] required.now digests.now) }
{
    let mut list = Seq::new(alloc);
    for name in required {
        list.push((*name, digest_of(digests, name)))?;
    }
    Ok(list)
}

// Whether it is one of these.
fn has_digest(digests: &[(Name, [u8; 32])], digest: &[u8; 32]) -> bool
    ensures { result ≡ is_among digest.now (map (λ d. d.1) digests.now) }
{
    for one in digests {
        if one.1 == *digest {
            return true;
        }
    }
    false
}

// Whether the digest stands in some commitment, or is one of these.
#[tactic(auto, using(crate::proofs::Used::among_either))]
fn is_used(exchange: &Exchange, earlier: &[(Name, [u8; 32])], digest: &[u8; 32]) -> bool
    ensures { result ≡ is_among digest.now (used_digests exchange.now.promises ++ map (λ d. d.1) earlier.now) }
{
    exchange.used(digest) || has_digest(earlier, digest)
}

/// The name of the first digest that stands in some commitment, or earlier among these.
#[tactic(auto, using(crate::proofs::Used::at_first, crate::proofs::Used::from_next))]
pub(crate) fn repeated_digest(exchange: &Exchange, digests: &[(Name, [u8; 32])]) -> Option<Name>
    ensures { result ≡ used_again (used_digests exchange.now.promises) digests.now }
{
    for (k, digest) in digests.iter().enumerate() {
        if is_used(exchange, &digests[..k], &digest.1) {
            return Some(digest.0);
        }
    }
    None
}
