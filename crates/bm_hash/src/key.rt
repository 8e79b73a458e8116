//! A digest as the key of an index.

ghost use Rattle.std.specs.Prelude.{◌∷◌, [], take};
ghost use Rattle.std.specs.Cmp.Rules.{hashing};
ghost use Rattle.std.proofs.Common.{rules};

use std::hash::{Hash, Hasher};

/// A digest as the key of an index. The table's hasher is fed with its first eight bytes at once: of a digest these tell as much as all.
#[derive(Clone, Copy, PartialEq, Eq)]
pub(crate) struct Key {
    pub(crate) digest: [u8; 32],
}

impl Hash for Key {
    ghost hash_input = { λ k. take 8 k.digest ∷ [] };

    ghost respects_eq = { Prim.search (hashing, rules) };

    fn hash<H: Hasher>(&self, state: &mut H) {
        state.write(&self.digest[..8]);
    }
}
