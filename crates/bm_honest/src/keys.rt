//! Which keys of deposits have signed.

ghost use Rattle.std.specs.Prelude.{◌≡◌, IfOk};
ghost use Rattle.spec_bitcoin.specs.Keys as spec;
ghost use Rattle.spec_compiler.specs.Instance as instance;

use bm_book::Book;
use bm_hash::Hash32;
use bm_keys::label_key;
use spec_bitcoin::Label;
use spec_data::{Name, OutOfMemory};
use std::alloc::Global;

/// A party's key of its deposits.
pub fn deposit_key<H: Hash32>(
    alloc: Global,
    hash: &H,
    party: &Name,
) -> Result<[u8; 33], OutOfMemory>
    ensures { IfOk result (λ key. key ≡ instance.deposit_key (H.digest_of hash.now) party.now) }
{
    label_key(alloc, hash, &Label::Deposit { party: *party })
}

/// Whether a party's key of its deposits has signed the digest.
pub(crate) fn deposit_signed<H: Hash32>(
    alloc: Global,
    hash: &H,
    book: &Book,
    party: &Name,
    digest: &[u8; 32],
) -> Result<bool, OutOfMemory>
    ensures { IfOk result (λ signed. signed
        ≡ spec.has_signed book.now (instance.deposit_key (H.digest_of hash.now) party.now) digest.now) }
{
    let key = deposit_key(alloc, hash, party)?;
    Ok(book.has(&key, digest))
}
