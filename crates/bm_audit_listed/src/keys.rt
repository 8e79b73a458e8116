//! Which labels' keys have signed.

ghost use Rattle.std.specs.Prelude.{◌≡◌, IfOk};
ghost use Rattle.spec_bitcoin.specs.Keys.{key_of, has_signed};

use bm_book::Book;
use bm_hash::Hash32;
use bm_keys::label_key;
use spec_bitcoin::Label;
use spec_data::OutOfMemory;
use std::alloc::Global;

/// Whether the label's key has signed the digest.
pub(crate) fn has_signed<H: Hash32>(
    alloc: Global,
    hasher: &H,
    book: &Book,
    label: &Label,
    digest: &[u8; 32],
) -> Result<bool, OutOfMemory>
    ensures { IfOk result (λ signed. signed ≡ has_signed book.now (key_of (H.digest_of hasher.now) label.now) digest.now) }
{
    let key = label_key(alloc, hasher, label)?;
    Ok(book.has(&key, digest))
}
