//! Hash functions of 32 bytes.

ghost use Rattle.std.specs.Prelude.{◌≡◌, List, ℕ, IfOk, length, sum, ◌%◌, ◌∷◌, replicate};
ghost use Rattle.sha2.specs.Sha256.{sha256};
ghost use Rattle.spec_data.specs.Hashes.{IsBytes, HashesBytes};
ghost use Rattle.bm_hash.specs.Digests.{toy_digest, twin_digest, length-sha256, length-toy_digest, length-twin_digest};
ghost use Rattle.bm_hash.specs.Digests.{bytes-sha256, bytes-toy_digest, bytes-twin_digest};

use sha2::{Digest, Sha256};
use spec_data::{Bytes, OutOfMemory};
use std::alloc::Global;

/// A hash function with digests of 32 bytes.
pub trait Hash32 {
    // the function of the message that a value stands for
    ghost digest_of: { Self → List ℕ → List ℕ };

    /// The digest of a message.
    fn hash32(&self, message: &[u8]) -> [u8; 32]
        ensures { result ≡ digest_of self.now message.now };

    ghost sized: { (h : Self) (m : List ℕ) → length (digest_of h m) ≡ 32 };

    ghost bytes: { (h : Self) (m : List ℕ) → IsBytes (digest_of h m) };
}

/// SHA-256.
#[derive(Clone, Copy)]
pub struct Sha;

impl Hash32 for Sha {
    ghost digest_of = { λ _. sha256 };

    ghost sized = { λ _. length-sha256 };

    ghost bytes = { λ _. bytes-sha256 };

    fn hash32(&self, message: &[u8]) -> [u8; 32] {
        Sha256::digest(message)
    }
}

/// The sum of the bytes modulo 256 and 31 zero bytes.
#[derive(Clone, Copy)]
pub struct Toy;

impl Hash32 for Toy {
    ghost digest_of = { λ _. toy_digest };

    ghost sized = { λ _. length-toy_digest };

    ghost bytes = { λ _. bytes-toy_digest };

    fn hash32(&self, message: &[u8]) -> [u8; 32] {
        let mut digest = [0; 32];
        let mut sum = 0u8;
        for byte in message {
            sum = sum.wrapping_add(*byte);
        }
        digest[0] = sum;
        digest
    }
}

/// SHA-256, but of `first` in place of `second`.
#[derive(Debug)]
pub struct Twin {
    pub first: Bytes,
    pub second: Bytes,
}

impl Drop for Twin {
    fn drop(self) {
        let Twin {
            first: _,
            second: _,
        } = self;
    }
}

impl Twin {
    /// Equal twins.
    pub fn copy(&self, alloc: Global) -> Result<Twin, OutOfMemory>
        ensures { IfOk result (λ twin. twin ≡ self.now) }
    {
        Ok(Twin {
            first: self.first.copy(alloc)?,
            second: self.second.copy(alloc)?,
        })
    }
}

impl Hash32 for Twin {
    ghost digest_of = { λ h. twin_digest h.first h.second };

    ghost sized = { λ h. length-twin_digest h.first h.second };

    ghost bytes = { λ h. bytes-twin_digest h.first h.second };

    fn hash32(&self, message: &[u8]) -> [u8; 32] {
        if message == self.second.as_slice() {
            Sha256::digest(self.first.as_slice())
        } else {
            Sha256::digest(message)
        }
    }
}

/// Each digest is a string of 32 bytes.
pub fn hashes_bytes<H: Hash32>(hasher: &H)
    ensures { HashesBytes (H.digest_of hasher.now) }
{}
