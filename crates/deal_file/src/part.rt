//! What the lines of a file give that may lack some.

ghost use Rattle.std.specs.Prelude.{◌≡◌, Some, filter, option_map, IfOk};
ghost use Rattle.spec_terms.specs.Parties.{participants};
ghost use Rattle.spec_bitcoin.specs.declared.label.Label.TheVariants as labels;
ghost use Rattle.spec_deal.specs.declared.deal.Needed.TheVariants as needs;
ghost use Rattle.spec_deal.specs.DealFile as spec;
ghost use Rattle.spec_deal.specs.Used as used;
ghost use Rattle.deal_file.specs.Building as building;
ghost use Rattle.deal_file.specs.Entries.{told};

use crate::entries::Entries;
use crate::keying::{kind_and, need_key};
use crate::used::key_users;
use crate::values::{key_in, network_in, payee_script, place_in, wallet_script};
use crate::whole::own_deal;
use bm_wellformed::Checked;
use spec_bitcoin::{Label, OutPoint};
use spec_data::{Name, OutOfMemory};
use spec_deal::Needed;
use std::alloc::Global;
use std::marker::Model;

/// What the lines of a file give to a contract. Contracts see the list of entries.
pub struct Part {
    entries: Entries,
}

impl Model for Part {
    ghost use Rattle.std.specs.Prelude.{List};
    ghost use Rattle.spec_deal.specs.declared.entry.Entry.{Entry};
    ghost use Rattle.deal_file.specs.Entries.{told};

    ghost Value = { List Entry };

    ghost view = { λ part. told part.entries };
}

impl Drop for Part {
    fn drop(self) {
        let Part { entries: _ } = self;
    }
}

impl Part {
    /// What these entries give.
    pub(crate) fn of(entries: Entries) -> Part
        ensures { result ≡ told entries }
    {
        Part { entries }
    }

    /// A party's key of its deposits.
    pub fn key_of(&self, alloc: Global, party: &Name) -> Result<Option<[u8; 33]>, OutOfMemory>
        ensures { IfOk result (λ key. key
            ≡ option_map (λ v. spec.key_or_none (Some v)) (spec.value_for self.now (needs.Key (labels.Deposit party.now)))) }
    {
        let key = need_key(alloc, &Needed::Key(Label::Deposit { party: *party }))?;
        Ok(key_in(self.entries.value_for(&key)))
    }

    /// Where a deposit lies.
    pub fn place_of(&self, alloc: Global, name: &Name) -> Result<Option<OutPoint>, OutOfMemory>
        ensures { IfOk result (λ place. place ≡ building.place_given (spec.value_for self.now (needs.Deposit name.now))) }
    {
        let key = kind_and(alloc, b'D', name.bytes())?;
        Ok(place_in(self.entries.value_for(&key)))
    }

    /// The script of the wallet that brings a deposit.
    pub fn wallet_of(&self, alloc: Global, name: &Name) -> Result<Option<&[u8]>, OutOfMemory>
        ensures { IfOk result (λ script. option_map (λ s. s.now) script
            ≡ spec.wallet_given (spec.value_for self.now (needs.Deposit name.now))) }
    {
        let key = kind_and(alloc, b'D', name.bytes())?;
        Ok(wallet_script(self.entries.value_for(&key)))
    }

    /// The script where a participant is paid.
    pub fn payee_of(&self, alloc: Global, party: &Name) -> Result<Option<&[u8]>, OutOfMemory>
        ensures { IfOk result (λ script. option_map (λ s. s.now) script
            ≡ spec.script_given (spec.value_for self.now (needs.Payee party.now))) }
    {
        let key = kind_and(alloc, b'P', party.bytes())?;
        Ok(payee_script(self.entries.value_for(&key)))
    }

    /// The network whose addresses are shown.
    pub fn network(&self, alloc: Global) -> Result<Option<Name>, OutOfMemory>
        ensures { IfOk result (λ network. network ≡ spec.network_given (spec.value_for self.now needs.Network)) }
    {
        let key = kind_and(alloc, b'N', &[])?;
        Ok(network_in(self.entries.value_for(&key)))
    }

    /// The participants whose keys of their deposits are used, in order.
    pub fn key_users(&self, alloc: Global, checked: &Checked) -> Result<Vec<Name>, OutOfMemory>
        ensures { IfOk result (λ parties. parties.items
            ≡ filter (used.uses_key (spec.entry_keys checked.now self.now) checked.now) (participants checked.now)) }
    {
        let deal = own_deal(alloc, checked, &self.entries)?;
        key_users(alloc, checked, &deal)
    }
}
