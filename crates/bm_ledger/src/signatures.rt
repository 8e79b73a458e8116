//! Which signatures count: those of the book, for the digest of an input.

use bm_book::Book;
use bm_interp::SigCheck;
use bm_keys::signature;

/// The signatures of one digest.
#[derive(Drop)]
pub(crate) struct BookCheck<'a> {
    pub book: &'a Book,
    pub digest: [u8; 32],
}

impl SigCheck for BookCheck<'_> {
    ghost use Rattle.spec_bitcoin.specs.Keys.{is_valid};

    ghost valid = { λ c. is_valid c.book.now c.digest };

    fn check(&self, sent: &[u8], key: &[u8]) -> bool {
        if !self.book.has_signed(key, &self.digest) {
            return false;
        }
        match <[u8; 33]>::try_from(key) {
            Ok(key) => sent == signature(&key, &self.digest).as_slice(),
            Err(_) => false,
        }
    }
}
