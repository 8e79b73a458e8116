//! The digests that parties have committed.

ghost use Rattle.std.specs.Prelude.{◌≡◌, ◌++◌, ◌∷◌, [], ◌≤◌, length, map, take, is_some, IfOk, IfSome, OnOk, OnErr};
ghost use Rattle.std.specs.List.{list_any};
ghost use Rattle.spec_run.specs.World.{is_promise_of, digests_at};
ghost use Rattle.spec_run.specs.Committing.{used_digests};
ghost use Rattle.bm_exchange.specs.Exchanged.{digests_by};

use bm_hash_strings::Strings;
use spec_data::{Name, OutOfMemory, Seq};
use std::alloc::Global;
use std::marker::Model;

/// The digests that a party has committed, each beside the name of its secret, in the precondition's order.
#[derive(Drop)]
pub(crate) struct Promised {
    contract: u32,
    party: Name,
    digests: Seq<(Name, [u8; 32])>,
}

impl Model for Promised {
    ghost use Rattle.spec_run.specs.World.{Promise};

    ghost Value = { Promise };

    ghost view = { λ p. record { contract = p.contract; party = p.party; digests = p.digests } };
}

impl Promised {
    /// A commitment to these digests.
    pub fn new(contract: u32, party: Name, digests: Seq<(Name, [u8; 32])>) -> Promised
        ensures { result ≡ record { contract = contract; party = party; digests = digests } }
    {
        Promised {
            contract,
            party,
            digests,
        }
    }

    /// The digests in order.
    pub fn digests(&self) -> &[(Name, [u8; 32])]
        ensures { result.now ≡ self.now.digests }
    {
        self.digests.as_slice()
    }

    /// Whether it is this party's for this contract.
    pub fn is_of(&self, contract: u32, party: &Name) -> bool
        ensures { result ≡ is_promise_of contract party.now self.now }
    {
        self.contract == contract && self.party == *party
    }
}

/// Whether the party has committed its secrets of the contract. There are at most 256 commitments, one for each
/// participant of each contract.
pub(crate) fn has_promised(promises: &[Promised], contract: u32, party: &Name) -> bool
    ensures { result ≡ list_any (is_promise_of contract party.now) promises.now }
{
    promises.iter().any(|p| p.is_of(contract, party))
}

/// The digests that the party has committed for the contract.
pub(crate) fn digests_of<'a>(
    promises: &'a [Promised],
    contract: u32,
    party: &Name,
) -> Option<&'a [(Name, [u8; 32])]>
    ensures there { is_some result ≡ list_any (is_promise_of contract party.now) promises.now }
    ensures digests { IfSome result (λ digests. digests.now ≡ digests_by promises.now contract party.now) }
{
    for promise in promises {
        if promise.is_of(contract, party) {
            return Some(promise.digests());
        }
    }
    None
}

// Puts these digests to the others.
fn put_digests(
    list: &mut Seq<(Name, [u8; 32])>,
    digests: &[(Name, [u8; 32])],
) -> Result<(), OutOfMemory>
    ensures { OnOk result (list.new ≡ list.old ++ digests.now) }
{
    for pair in digests {
        list.push(*pair)?;
    }
    Ok(())
}

/// The digests that were committed for the contract, by all parties, in the order of the commitments.
pub(crate) fn all_digests(
    alloc: Global,
    promises: &[Promised],
    contract: u32,
) -> Result<Seq<(Name, [u8; 32])>, OutOfMemory>
    ensures { IfOk result (λ digests. digests ≡ digests_at promises.now contract) }
{
    let mut list = Seq::new(alloc);
    for promise in promises {
        if promise.contract == contract {
            put_digests(&mut list, promise.digests())?;
        }
    }
    Ok(list)
}

// Adds these digests; on an error some of them are added.
fn add_digests(used: &mut Strings, digests: &[(Name, [u8; 32])]) -> Result<(), OutOfMemory>
    ensures ok { OnOk result (used.new ≡ used.old ++ map (λ d. d.1) digests.now) }
    ensures more { length used.old ≤ length used.new }
    ensures prefix { take (length used.old) used.new ≡ used.old }
{
    for pair in digests {
        used.add(&pair.1)?;
    }
    Ok(())
}

// Adds the commitment's digests, or none.
fn add_all_digests(used: &mut Strings, digests: &[(Name, [u8; 32])]) -> Result<(), OutOfMemory>
    ensures ok { OnOk result (used.new ≡ used.old ++ map (λ d. d.1) digests.now) }
    ensures err { OnErr result (used.new ≡ used.old) }
{
    let count = used.count();
    if let Err(error) = add_digests(used, digests) {
        used.cut(count);
        return Err(error);
    }
    Ok(())
}

/// Adds a commitment, and its digests to those that are used.
pub(crate) fn add_promise(
    promises: &mut Seq<Promised>,
    used: &mut Strings,
    promised: Promised,
) -> Result<(), OutOfMemory>
    requires used { used.old ≡ used_digests promises.old }
    ensures ok { OnOk result (promises.new ≡ promises.old ++ promised ∷ []) }
    ensures err { OnErr result (promises.new ≡ promises.old) }
    ensures used { used.new ≡ used_digests promises.new }
{
    let count = used.count();
    add_all_digests(used, promised.digests())?;
    if let Err(error) = promises.push(promised) {
        used.cut(count);
        return Err(error);
    }
    Ok(())
}
