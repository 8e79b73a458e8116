//! What gives a key to each label, and tells the scripts of wallets.

ghost use Rattle.std.specs.Prelude.{◌≡◌, None, IfOk};
ghost use Rattle.std.specs.Option.{option_map};
ghost use Rattle.bm_hash.specs.Messages.{evidence_of};
ghost use Rattle.bm_hash.specs.Trails.{Hashes};
ghost use Rattle.spec_bitcoin.specs.declared.label.Label.TheVariants.{Deposit};
ghost use Rattle.spec_compiler.specs.Keyed.Keys as spec;
ghost use Rattle.spec_compiler.specs.Keyed.Keys.{Keys, by_plan, key_in};
ghost use Rattle.bm_compile.specs.Keyed.Sources.{label_strings};

use bm_hash::{Hash32, Trail, TrailError};
use bm_keys::Label;
use spec_data::OutOfMemory;
use std::alloc::Global;

/// What gives a key, a compressed point of 33 bytes, to each label, and tells which deposits and payees have output scripts of a
/// wallet's, with no key here.
pub trait KeySource {
    // how labels have their keys
    ghost keys: { Self → Keys };

    /// The key of a label. What it takes to have it is hashed.
    fn key<H: Hash32 + Drop>(
        &self,
        alloc: Global,
        trail: &mut Trail<H>,
        label: &Label,
    ) -> Result<[u8; 33], TrailError>
        requires clear { evidence_of (H.digest_of trail.old.hasher) trail.old.messages ≡ None }
        ensures key { IfOk result (λ key. key ≡ key_in (H.digest_of trail.old.hasher) (keys self.now) label.now) }
        ensures trail { Hashes H.digest_of trail.old trail.new (label_strings (keys self.now) label.now) result };

    /// A party's key of its deposits. What it takes to have it was hashed earlier, so that it isn't hashed along a trail.
    fn deposit_key<H: Hash32>(
        &self,
        alloc: Global,
        hasher: &H,
        party: &[u8],
    ) -> Result<[u8; 33], OutOfMemory>
        ensures { IfOk result (λ key. key ≡ key_in (H.digest_of hasher.now) (keys self.now) (Deposit party.now)) };

    /// The output script of the deposit of this name, where it is a wallet's.
    fn own_script(&self, name: &[u8]) -> Option<&[u8]>
        ensures { option_map (λ script. script.now) result ≡ spec.own_script (keys self.now) name.now };

    /// The output script of what this participant is paid, where it is a wallet's.
    fn own_payee(&self, party: &[u8]) -> Option<&[u8]>
        ensures { option_map (λ script. script.now) result ≡ spec.own_payee (keys self.now) party.now };
}

/// The key plan: the key of a label is byte 02 and the hash of the label's text.
#[derive(Clone, Copy, Debug, PartialEq, Eq)]
pub struct KeyPlan;

impl KeySource for KeyPlan {
    ghost keys = { λ _. by_plan };

    fn key<H: Hash32 + Drop>(
        &self,
        alloc: Global,
        trail: &mut Trail<H>,
        label: &Label,
    ) -> Result<[u8; 33], TrailError> {
        bm_keys::key(alloc, trail, label)
    }

    fn deposit_key<H: Hash32>(
        &self,
        alloc: Global,
        hasher: &H,
        party: &[u8],
    ) -> Result<[u8; 33], OutOfMemory> {
        bm_keys::deposit_key(alloc, hasher, party)
    }

    fn own_script(&self, _name: &[u8]) -> Option<&[u8]> {
        None
    }

    fn own_payee(&self, _party: &[u8]) -> Option<&[u8]> {
        None
    }
}
