//! Who hasn't signed for a branch.

ghost use Rattle.std.specs.Prelude.{◌≡◌, ◌||◌, IfOk, true};
ghost use Rattle.std.specs.List.{list_all};
ghost use Rattle.spec_data.specs.Lists.{is_among, look_up};
ghost use Rattle.spec_terms.specs.Precondition.{names_of, volatile};
ghost use Rattle.spec_bitcoin.specs.Keys.{has_signed};
ghost use Rattle.bm_honest.specs.Unsigned.{unsigned_person, unsigned_owner, owner_in, unsigned_for};

use crate::keys::deposit_signed;
use bm_book::Book;
use bm_hash::Hash32;
use spec_data::{Name, OutOfMemory};
use spec_terms::Pre;
use std::alloc::Global;

/// Whether the person is one of those whom a branch asks. Most branches ask nobody.
#[inline(always)]
pub(crate) fn is_asked(asked: &[Name], person: &Name) -> bool
    ensures { result ≡ is_among person.now asked.now }
{
    !asked.is_empty() && asked.contains(person)
}

// Whether nothing more is needed of a participant: the branch asks it, or its key of the branch has signed the digest.
fn is_ready(book: &Book, asked: &[Name], digest: &[u8; 32], person: &Name, key: &[u8; 33]) -> bool
    ensures { result ≡ (is_among person.now asked.now || has_signed book.now key.now digest.now) }
{
    if is_asked(asked, person) {
        return true;
    }
    book.has(key, digest)
}

/// The first of these participants, who have these keys of the branch, whom it doesn't ask and whose key hasn't signed the digest.
pub(crate) fn first_person(
    book: &Book,
    asked: &[Name],
    digest: &[u8; 32],
    people: &[Name],
    keys: &[[u8; 33]],
) -> Option<Name>
    ensures { result ≡ unsigned_person book.now asked.now digest.now people.now keys.now }
{
    let mut rest = keys;
    for person in people {
        let Some((key, others)) = rest.split_first() else {
            return None;
        };
        if !is_ready(book, asked, digest, person, key) {
            return Some(*person);
        }
        rest = others;
    }
    None
}

/// The owner of the volatile deposit of this name.
pub(crate) fn owner_of(pre: &[Pre], name: &Name) -> Name
    requires { is_among name.now (names_of (volatile pre.now)) ≡ true }
    ensures { result ≡ owner_in pre.now name.now }
{
    for entry in pre {
        if let Pre::Volatile {
            party,
            name: known,
            ..
        } = entry
        {
            if *known == *name {
                return *party;
            }
        }
    }
    unreachable!()
}

/// The first owner of these deposits whose key of its deposits hasn't signed the digest beside the deposit's name.
pub(crate) fn first_owner<H: Hash32>(
    alloc: Global,
    hash: &H,
    book: &Book,
    pre: &[Pre],
    puts: &[Name],
    digests: &[[u8; 32]],
) -> Result<Option<Name>, OutOfMemory>
    requires { list_all (λ name. is_among name (names_of (volatile pre.now))) puts.now ≡ true }
    ensures { IfOk result (λ owner. owner ≡ unsigned_owner (H.digest_of hash.now) book.now pre.now puts.now digests.now) }
{
    let mut rest = digests;
    for put in puts {
        let Some((digest, others)) = rest.split_first() else {
            return Ok(None);
        };
        let owner = owner_of(pre, put);
        if !deposit_signed(alloc, hash, book, &owner, digest)? {
            return Ok(Some(owner));
        }
        rest = others;
    }
    Ok(None)
}
