//! What the lines so far give.

ghost use Rattle.std.specs.Prelude.{◌≡◌, ◌++◌, ◌∷◌, [], true, false, option_map, IfOk, OnOk};
ghost use Rattle.std.specs.List.{find};
ghost use Rattle.spec_deal.specs.declared.deal.Needed.{Needed as SpecNeeded};
ghost use Rattle.spec_deal.specs.declared.entry.Entry.{Entry as SpecEntry};
ghost use Rattle.spec_deal.specs.declared.entry.Value.{Value as SpecValue};
ghost use Rattle.spec_deal.specs.Needed.{same_needed};
ghost use Rattle.spec_deal.specs.DealFile as spec;
ghost use Rattle.deal_file.specs.Keying as keys;
ghost use Rattle.deal_file.specs.Entries.{told, entry_in, worth_of, IsTied};
ghost use Rattle.deal_file.specs.declared.keying.Worth.{Worth as SpecWorth};

use crate::keying::{Given, Worth};
use deal_index::Indexed;
use spec_data::OutOfMemory;
use spec_deal::{Entry, Value};
use std::alloc::Global;

/// What the lines so far give, in order; found by what it is given to, and by its value where that may be given once alone.
pub(crate) struct Entries {
    given: Indexed<Given>,
    worth: Indexed<Worth>,
}

impl Drop for Entries {
    fn drop(self) {
        let Entries { given: _, worth: _ } = self;
    }
}

// The entry that was found.
fn entry_of(given: Option<&Given>) -> Option<&Entry>
    ensures { option_map (λ e. e.now) result ≡ option_map entry_in (option_map (λ g. g.now) given.entry) }
{
    match given {
        Some(given) => Some(&given.entry),
        None => None,
    }
}

// The line of the value that was found.
fn line_of(worth: Option<&Worth>) -> Option<u32>
    ensures { result ≡ option_map (λ (w : SpecWorth). w.line) (option_map (λ w. w.now) worth.entry) }
{
    match worth {
        Some(worth) => Some(worth.line),
        None => None,
    }
}

impl Entries {
    /// No entry; it takes no memory.
    pub(crate) fn new(alloc: Global) -> Entries
        ensures tied { IsTied result }
        ensures told { told result ≡ [] }
    {
        Entries {
            given: Indexed::new(alloc),
            worth: Indexed::new(alloc),
        }
    }

    // What is given to what is found by this key.
    fn entry(&self, key: &[u8]) -> Option<&Entry>
        ensures { (what : SpecNeeded) → key.now ≡ keys.need_key what
            → option_map (λ e. e.now) result ≡ find (λ x. same_needed x.needed what) (told self.now) }
    {
        entry_of(self.given.find(key))
    }

    /// The line that gives something to what is found by this key.
    pub(crate) fn line_for(&self, key: &[u8]) -> Option<u32>
        ensures { (what : SpecNeeded) → key.now ≡ keys.need_key what
            → result ≡ option_map (λ (e : SpecEntry). e.line) (find (λ x. same_needed x.needed what) (told self.now)) }
    {
        match self.entry(key) {
            Some(entry) => Some(entry.line),
            None => None,
        }
    }

    /// What is given to what is found by this key.
    pub(crate) fn value_for(&self, key: &[u8]) -> Option<&Value>
        ensures { (what : SpecNeeded) → key.now ≡ keys.need_key what
            → option_map (λ v. v.now) result ≡ spec.value_for (told self.now) what }
    {
        match self.entry(key) {
            Some(entry) => Some(&entry.value),
            None => None,
        }
    }

    /// The line that gives the value that is found by this key.
    pub(crate) fn line_of_value(&self, key: &[u8]) -> Option<u32>
        requires { IsTied self.now }
        ensures { (value : SpecValue) → key.now ≡ keys.value_key value → keys.is_sized value ≡ true → keys.is_unique value ≡ true
            → result ≡ option_map (λ (e : SpecEntry). e.line) (find (λ x. spec.same_value x.value value) (told self.now)) }
    {
        line_of(self.worth.find(key))
    }

    // The value of an entry is found by this key from now on.
    fn push_worth(
        &mut self,
        alloc: Global,
        entry: &Entry,
        value_key: Vec<u8>,
    ) -> Result<(), OutOfMemory>
        requires value { value_key.items ≡ keys.value_key entry.now.value }
        requires sized { keys.is_sized entry.now.value ≡ true }
        ensures worth { OnOk result (self.new.worth ≡ self.old.worth ++ worth_of entry.now ∷ []) }
        ensures given { self.new.given ≡ self.old.given }
    {
        let worth = Worth {
            line: entry.line,
            value: entry.value.copy(alloc)?,
        };
        self.worth.push(worth, value_key)
    }

    /// Adds an entry whose value may be given once alone; it is found by these keys.
    pub(crate) fn push_unique(
        &mut self,
        alloc: Global,
        entry: Entry,
        need_key: Vec<u8>,
        value_key: Vec<u8>,
    ) -> Result<(), OutOfMemory>
        requires tied { IsTied self.old }
        requires need { need_key.items ≡ keys.need_key entry.needed }
        requires value { value_key.items ≡ keys.value_key entry.value }
        requires sized { keys.is_sized entry.value ≡ true }
        requires unique { keys.is_unique entry.value ≡ true }
        ensures tied { OnOk result (IsTied self.new) }
        ensures told { OnOk result (told self.new ≡ told self.old ++ entry ∷ []) }
    {
        self.push_worth(alloc, &entry, value_key)?;
        self.given.push(Given { entry }, need_key)
    }

    /// Adds an entry whose value may be given again; it is found by this key.
    pub(crate) fn push_other(&mut self, entry: Entry, need_key: Vec<u8>) -> Result<(), OutOfMemory>
        requires tied { IsTied self.old }
        requires need { need_key.items ≡ keys.need_key entry.needed }
        requires unique { keys.is_unique entry.value ≡ false }
        ensures tied { OnOk result (IsTied self.new) }
        ensures told { OnOk result (told self.new ≡ told self.old ++ entry ∷ []) }
    {
        self.given.push(Given { entry }, need_key)
    }
}
