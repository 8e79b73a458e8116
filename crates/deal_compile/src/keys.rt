//! The keys of a deal, each found by its label, and the scripts of wallets, each found by a name.

ghost use Rattle.std.specs.Prelude.{◌≡◌, ◌++◌, ◌∷◌, [], map, option_map, true, IfOk, OnOk};
ghost use Rattle.spec_data.specs.Lists.{look_up};
ghost use Rattle.spec_bitcoin.specs.Keys.{label_text};
ghost use Rattle.spec_bitcoin.specs.declared.label.Label.TheVariants.{Deposit};
ghost use Rattle.spec_deal.specs.Setting.{key_at};
ghost use Rattle.deal_compile.specs.Keyed as spec;

use bm_compile::KeySource;
use bm_hash::{Hash32, Trail, TrailError};
use bm_keys::{Label, deposit_text, label_text};
use deal_index::{Indexed, Keyed};
use spec_data::{Bytes, Name, OutOfMemory};
use spec_deal::Deal;
use std::alloc::Global;
use std::marker::Model;

/// A label and its key.
pub struct LabelKey {
    pub label: Label,
    pub key: [u8; 33],
}

impl Drop for LabelKey {
    fn drop(self) {
        let LabelKey { label: _, key: _ } = self;
    }
}

impl Keyed for LabelKey {
    ghost key_of = { λ e. label_text e.label };

    ghost is_sized = { λ e. true };
}

/// The output script of a wallet, under the name of its deposit or of whom it belongs to.
pub struct OwnScript {
    pub name: Name,
    pub script: Bytes,
}

impl Drop for OwnScript {
    fn drop(self) {
        let OwnScript { name: _, script: _ } = self;
    }
}

impl Keyed for OwnScript {
    ghost use Rattle.std.specs.Prelude.{true};

    ghost key_of = { λ e. e.name };

    ghost is_sized = { λ e. true };
}

/// The keys that were given, each found by its label, and the scripts of wallets. Contracts see the lists of what was given.
pub struct DealKeys {
    index: Indexed<LabelKey>,
    wallets: Indexed<OwnScript>,
    payees: Indexed<OwnScript>,
}

impl Model for DealKeys {
    ghost use Rattle.std.specs.Prelude.{map};
    ghost use Rattle.deal_compile.specs.Keyed.{Held, pair_of, script_pair};

    ghost Value = { Held };

    ghost view = { λ k. record {
      keys = map pair_of k.index;
      own = record { deposits = map script_pair k.wallets; payees = map script_pair k.payees };
    } };
}

impl Drop for DealKeys {
    fn drop(self) {
        let DealKeys {
            index: _,
            wallets: _,
            payees: _,
        } = self;
    }
}

// The first key of the label with this text; one of zeros, which no wallet has, without one.
fn key_under(index: &Indexed<LabelKey>, text: &[u8]) -> [u8; 33]
    ensures { result ≡ spec.key_under (map spec.pair_of index.now) text.now }
{
    match index.find(text) {
        Some(entry) => entry.key,
        None => [0; 33],
    }
}

// One more label with its key.
fn put(
    alloc: Global,
    index: &mut Indexed<LabelKey>,
    label: &Label,
    key: &[u8; 33],
) -> Result<(), OutOfMemory>
    ensures { OnOk result (map spec.pair_of index.new ≡ map spec.pair_of index.old ++ (label.now, key.now) ∷ []) }
{
    let text = label_text(alloc, label)?;
    let entry = LabelKey {
        label: label.copy(alloc)?,
        key: *key,
    };
    index.push(entry, text)
}

fn indexed(alloc: Global, keys: &[(Label, [u8; 33])]) -> Result<Indexed<LabelKey>, OutOfMemory>
    ensures { IfOk result (λ index. map spec.pair_of index ≡ keys.now) }
{
    let mut index = Indexed::new(alloc);
    for (label, key) in keys {
        put(alloc, &mut index, label, key)?;
    }
    Ok(index)
}

// One more script under its name.
fn put_script(
    alloc: Global,
    index: &mut Indexed<OwnScript>,
    name: &Name,
    script: &Bytes,
) -> Result<(), OutOfMemory>
    ensures { OnOk result (map spec.script_pair index.new ≡ map spec.script_pair index.old ++ (name.now, script.now) ∷ []) }
{
    let found_by = Vec::from_slice(alloc, name.bytes())?;
    let entry = OwnScript {
        name: *name,
        script: script.copy(alloc)?,
    };
    index.push(entry, found_by)
}

/// These scripts, each found by its name.
pub(crate) fn named_scripts(
    alloc: Global,
    scripts: &[(Name, Bytes)],
) -> Result<Indexed<OwnScript>, OutOfMemory>
    ensures { IfOk result (λ index. map spec.script_pair index ≡ scripts.now) }
{
    let mut index = Indexed::new(alloc);
    for (name, script) in scripts {
        put_script(alloc, &mut index, name, script)?;
    }
    Ok(index)
}

/// The first script under this name.
pub(crate) fn script_under<'a>(index: &'a Indexed<OwnScript>, name: &[u8]) -> Option<&'a [u8]>
    ensures { option_map (λ script. script.now) result ≡ look_up name.now (map spec.script_pair index.now) }
{
    match index.find(name) {
        Some(entry) => Some(entry.script.as_slice()),
        None => None,
    }
}

impl DealKeys {
    /// What is held of a deal.
    pub fn of(alloc: Global, deal: &Deal) -> Result<DealKeys, OutOfMemory>
        ensures { IfOk result (λ k. k ≡ spec.held_of deal.now) }
    {
        let index = indexed(alloc, deal.keys.as_slice())?;
        let wallets = named_scripts(alloc, deal.wallets.as_slice())?;
        let payees = named_scripts(alloc, deal.payees.as_slice())?;
        Ok(DealKeys {
            index,
            wallets,
            payees,
        })
    }

    // The first key of the label with this text.
    fn under(&self, text: &[u8]) -> [u8; 33]
        ensures { result ≡ spec.key_under self.now.keys text.now }
    {
        key_under(&self.index, text)
    }

    /// The key of a label.
    #[tactic(auto, using(crate::proofs::Under::key_of_label))]
    pub fn label_key(&self, alloc: Global, label: &Label) -> Result<[u8; 33], OutOfMemory>
        ensures { IfOk result (λ key. key ≡ key_at self.now.keys label.now) }
    {
        let text = label_text(alloc, label)?;
        Ok(self.under(&text))
    }

    /// A party's key of its deposits.
    #[tactic(auto, using(crate::proofs::Under::key_of_label))]
    pub fn party_key(&self, alloc: Global, party: &[u8]) -> Result<[u8; 33], OutOfMemory>
        ensures { IfOk result (λ key. key ≡ key_at self.now.keys (Deposit party.now)) }
    {
        let text = deposit_text(alloc, party)?;
        Ok(self.under(&text))
    }
}

impl KeySource for DealKeys {
    ghost keys = { λ k. spec.keys_of k };

    #[tactic(auto, using(bm_hash::proofs::HashesLemmas::hashed_none, bm_hash::proofs::HashesLemmas::stops_early))]
    fn key<H: Hash32 + Drop>(
        &self,
        alloc: Global,
        _trail: &mut Trail<H>,
        label: &Label,
    ) -> Result<[u8; 33], TrailError> {
        let key = self.label_key(alloc, label)?;
        Ok(key)
    }

    fn deposit_key<H: Hash32>(
        &self,
        alloc: Global,
        _hasher: &H,
        party: &[u8],
    ) -> Result<[u8; 33], OutOfMemory> {
        self.party_key(alloc, party)
    }

    fn own_script(&self, name: &[u8]) -> Option<&[u8]> {
        script_under(&self.wallets, name)
    }

    fn own_payee(&self, party: &[u8]) -> Option<&[u8]> {
        script_under(&self.payees, party)
    }
}
