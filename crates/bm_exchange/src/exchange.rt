//! What the parties have told each other.

ghost use Rattle.std.specs.Prelude.{◌≡◌, ◌++◌, ◌∷◌, [], ◌≤◌, ◌==◌, length, take, is_some, IfOk, IfSome, OnOk, OnErr};
ghost use Rattle.std.specs.List.{list_any};
ghost use Rattle.spec_data.specs.Lists.{is_among};
ghost use Rattle.spec_run.specs.World.{is_promise_of, bindings_at, digests_at};
ghost use Rattle.spec_run.specs.Committing.{used_digests};
ghost use Rattle.bm_exchange.specs.Exchanged.{digests_by};

use crate::posts::Posts;
use crate::promised::{Promised, add_promise, all_digests, digests_of, has_promised};
use bm_hash_strings::Strings;
use spec_calculus::Advertised;
use spec_data::{Name, OutOfMemory, Seq};
use std::alloc::Global;
use std::marker::Model;

/// The posted strings, the contracts that are advertised with their bindings, and the commitments. The digests of all
/// commitments are kept with an index, since each commitment asks for each of its digests whether it was used before.
pub struct Exchange {
    alloc: Global,
    posted: Posts,
    advertised: Seq<Advertised>,
    promises: Seq<Promised>,
    used: Strings,
}

impl Model for Exchange {
    ghost use Rattle.std.specs.Prelude.{◌≡◌};
    ghost use Rattle.spec_run.specs.Committing.{used_digests};
    ghost use Rattle.bm_exchange.specs.Exchanged.{Exchanged};

    ghost Value = { Exchanged };

    ghost view = { λ e. record { posted = e.posted; advertised = e.advertised; promises = e.promises } };

    ghost invariant = { λ e. e.used ≡ used_digests e.promises };
}

impl Drop for Exchange {
    fn drop(self) {
        let Exchange {
            alloc: _,
            posted: _,
            advertised: _,
            promises: _,
            used: _,
        } = self;
    }
}

// The bindings of the contract.
fn bindings_of(advertised: &[Advertised], contract: u32) -> Option<&[(Name, u32)]>
    ensures there { is_some result ≡ list_any (λ a. a.contract == contract) advertised.now }
    ensures bindings { IfSome result (λ bindings. bindings.now ≡ bindings_at advertised.now contract) }
{
    for told in advertised {
        if told.contract == contract {
            return Some(told.bindings.as_slice());
        }
    }
    None
}

// A contract with these bindings.
fn advertised_with(
    alloc: Global,
    contract: u32,
    bindings: &[(Name, u32)],
) -> Result<Advertised, OutOfMemory>
    ensures { IfOk result (λ a. a ≡ record { contract = contract; bindings = bindings.now }) }
{
    Ok(Advertised {
        contract,
        bindings: Seq::of(Vec::from_slice(alloc, bindings)?),
    })
}

// A commitment to these digests.
fn promised_with(
    alloc: Global,
    contract: u32,
    party: Name,
    digests: &[(Name, [u8; 32])],
) -> Result<Promised, OutOfMemory>
    ensures { IfOk result (λ p. p ≡ record { contract = contract; party = party; digests = digests.now }) }
{
    let digests = Seq::of(Vec::from_slice(alloc, digests)?);
    Ok(Promised::new(contract, party, digests))
}

impl Exchange {
    /// Nothing is told yet. The memory for so many advertised contracts is taken here.
    pub fn new(alloc: Global, contracts: u32) -> Result<Exchange, OutOfMemory>
        ensures { IfOk result (λ e. e ≡ record { posted = []; advertised = []; promises = [] }) }
    {
        Ok(Exchange {
            alloc,
            posted: Posts::new(alloc),
            advertised: Seq::of(Vec::with_capacity(alloc, contracts as usize)?),
            promises: Seq::new(alloc),
            used: Strings::new(alloc),
        })
    }

    /// Adds a contract with its bindings, in the precondition's order.
    pub fn advertise(&mut self, contract: u32, bindings: &[(Name, u32)]) -> Result<(), OutOfMemory>
        ensures ok { OnOk result (self.new ≡ record self.old {
          advertised = self.old.advertised ++ record { contract = contract; bindings = bindings.now } ∷ [];
        }) }
        ensures err { OnErr result (self.new ≡ self.old) }
    {
        let advertised = advertised_with(self.alloc, contract, bindings)?;
        self.advertised.push(advertised)?;
        Ok(())
    }

    /// Adds a party's commitment for a contract, its digests in the precondition's order.
    pub fn commit(
        &mut self,
        contract: u32,
        party: Name,
        digests: &[(Name, [u8; 32])],
    ) -> Result<(), OutOfMemory>
        ensures ok { OnOk result (self.new ≡ record self.old {
          promises = self.old.promises ++ record { contract = contract; party = party; digests = digests.now } ∷ [];
        }) }
        ensures err { OnErr result (self.new ≡ self.old) }
    {
        let promised = promised_with(self.alloc, contract, party, digests)?;
        add_promise(&mut self.promises, &mut self.used, promised)?;
        Ok(())
    }

    /// Adds a posted string.
    pub fn post(&mut self, bytes: &[u8]) -> Result<(), OutOfMemory>
        ensures ok { OnOk result (self.new ≡ record self.old { posted = self.old.posted ++ bytes.now ∷ [] }) }
        ensures err { OnErr result (self.new ≡ self.old) }
    {
        self.posted.add(bytes)?;
        Ok(())
    }

    /// Whether the party has committed its secrets of the contract.
    pub fn committed(&self, contract: u32, party: &Name) -> bool
        ensures { result ≡ list_any (is_promise_of contract party.now) self.now.promises }
    {
        has_promised(self.promises.as_slice(), contract, party)
    }

    /// Whether the string was posted.
    pub fn posted(&self, bytes: &[u8]) -> bool
        ensures { result ≡ is_among bytes.now self.now.posted }
    {
        self.posted.has(bytes)
    }

    /// The bindings of the contract, where it is advertised.
    pub fn bindings(&self, contract: u32) -> Option<&[(Name, u32)]>
        ensures there { is_some result ≡ list_any (λ a. a.contract == contract) self.now.advertised }
        ensures bindings { IfSome result (λ bindings. bindings.now ≡ bindings_at self.now.advertised contract) }
    {
        bindings_of(self.advertised.as_slice(), contract)
    }

    /// The digests that the party has committed for the contract, where it has.
    pub fn digests(&self, contract: u32, party: &Name) -> Option<&[(Name, [u8; 32])]>
        ensures there { is_some result ≡ list_any (is_promise_of contract party.now) self.now.promises }
        ensures digests { IfSome result (λ digests. digests.now ≡ digests_by self.now.promises contract party.now) }
    {
        digests_of(self.promises.as_slice(), contract, party)
    }

    /// The digests that were committed for the contract, by all parties, in the order of the commitments.
    pub fn all_digests(&self, contract: u32) -> Result<Seq<(Name, [u8; 32])>, OutOfMemory>
        ensures { IfOk result (λ digests. digests ≡ digests_at self.now.promises contract) }
    {
        all_digests(self.alloc, self.promises.as_slice(), contract)
    }

    /// Whether the digest stands in some commitment.
    pub fn used(&self, digest: &[u8; 32]) -> bool
        ensures { result ≡ is_among digest.now (used_digests self.now.promises) }
    {
        self.used.has(digest)
    }

    /// How many strings were posted.
    pub fn posts(&self) -> usize
        ensures { result ≡ length self.now.posted }
    {
        self.posted.count()
    }

    /// Makes it fast to ask whether a string was posted, until further ones are. Nothing changes.
    pub fn index_posts(&mut self)
        ensures { self.new ≡ self.old }
    {
        self.posted.index();
    }

    /// Leaves the first `count` posted strings; it takes no memory.
    pub fn cut_posts(&mut self, count: usize)
        requires { count ≤ length self.old.posted }
        ensures { self.new ≡ record self.old { posted = take count self.old.posted } }
    {
        self.posted.cut(count);
    }
}
