//! The signatures and the wallets' witnesses that were given.

ghost use Rattle.std.specs.Prelude.{◌≡◌, ◌++◌, ◌∷◌, [], option_map, IfOk, OnOk, OnErr};
ghost use Rattle.std.specs.List.{find};
ghost use Rattle.spec_deal.specs.Transactions.{is_at};
ghost use Rattle.spec_deal.specs.declared.signed.Signed.{Signed as Told};
ghost use Rattle.deal_signatures.specs.Keying.{signed_by, witnessed_by, spot_of};

use crate::places::{place_key, wallet_key};
use deal_index::{Indexed, Keyed};
use spec_bitcoin::tx::copy_items;
use spec_data::{Bytes, OutOfMemory, Seq};
use spec_deal::Signed;
use std::alloc::Global;
use std::marker::Model;

/// A signature, found by its input, its key and its transaction; or a wallet's witness, found by no key.
pub(crate) struct Entry {
    pub(crate) signed: Signed,
}

impl Drop for Entry {
    fn drop(self) {
        let Entry { signed: _ } = self;
    }
}

impl Keyed for Entry {
    ghost use Rattle.deal_signatures.specs.Keying.{signed_key, is_sized};

    ghost key_of = { λ entry. signed_key entry.signed };

    ghost is_sized = { λ entry. is_sized entry.signed };
}

/// The signatures and the wallets' witnesses that were given, in order. Each is found in the time of a few comparisons.
pub struct Given {
    entries: Indexed<Entry>,
}

impl Model for Given {
    ghost use Rattle.std.specs.Prelude.{List, map};
    ghost use Rattle.spec_deal.specs.declared.signed.Signed.{Signed as Told};
    ghost use Rattle.deal_signatures.specs.Seen.{signed_in};

    ghost Value = { List Told };

    ghost view = { λ given. map signed_in given.entries };
}

impl Drop for Given {
    fn drop(self) {
        let Given { entries: _ } = self;
    }
}

impl Given {
    /// None; it takes no memory.
    pub fn new(alloc: Global) -> Given
        ensures { result ≡ [] }
    {
        Given {
            entries: Indexed::new(alloc),
        }
    }

    /// The first signature of an input of the transaction with these bytes, by this key.
    pub fn signature(
        &self,
        alloc: Global,
        tx: &[u8],
        input: u32,
        key: &[u8; 33],
    ) -> Result<Option<&Bytes>, OutOfMemory>
        ensures { IfOk result (λ o. option_map (λ s. s.now) o ≡ option_map (λ (g : Told). g.signature)
            (find (is_at (spot_of tx.now input key.now)) self.now)) }
    {
        let place = place_key(alloc, tx, input, key)?;
        match self.entries.find(&place) {
            Some(entry) => Ok(Some(&entry.signed.signature)),
            None => Ok(None),
        }
    }

    /// The items of the first witness of an input of the transaction with these bytes, by this key. A wallet's is by no key.
    pub fn witness(
        &self,
        alloc: Global,
        tx: &[u8],
        input: u32,
        key: &[u8; 33],
    ) -> Result<Option<&Seq<Bytes>>, OutOfMemory>
        ensures { IfOk result (λ o. option_map (λ items. items.now) o ≡ option_map (λ (g : Told). g.witness)
            (find (is_at (spot_of tx.now input key.now)) self.now)) }
    {
        let place = place_key(alloc, tx, input, key)?;
        match self.entries.find(&place) {
            Some(entry) => Ok(Some(&entry.signed.witness)),
            None => Ok(None),
        }
    }

    /// Adds a signature.
    pub(crate) fn push(
        &mut self,
        alloc: Global,
        tx: &[u8],
        input: u32,
        key: &[u8; 33],
        signature: &[u8],
    ) -> Result<(), OutOfMemory>
        ensures ok { OnOk result (self.new ≡ self.old ++ signed_by tx.now input key.now signature.now ∷ []) }
        ensures err { OnErr result (self.new ≡ self.old) }
    {
        let place = place_key(alloc, tx, input, key)?;
        let signed = Signed {
            tx: Bytes::from_slice(alloc, tx)?,
            input,
            key: *key,
            signature: Bytes::from_slice(alloc, signature)?,
            witness: Seq::new(alloc),
        };
        self.entries.push(Entry { signed }, place)
    }

    /// Adds a wallet's witness.
    pub(crate) fn push_witness(
        &mut self,
        alloc: Global,
        tx: &[u8],
        input: u32,
        items: &[Bytes],
    ) -> Result<(), OutOfMemory>
        ensures ok { OnOk result (self.new ≡ self.old ++ witnessed_by tx.now input items.now ∷ []) }
        ensures err { OnErr result (self.new ≡ self.old) }
    {
        let key = wallet_key();
        let place = place_key(alloc, tx, input, &key)?;
        let signed = Signed {
            tx: Bytes::from_slice(alloc, tx)?,
            input,
            key,
            signature: Bytes::from_slice(alloc, b"")?,
            witness: copy_items(alloc, items)?,
        };
        self.entries.push(Entry { signed }, place)
    }
}
