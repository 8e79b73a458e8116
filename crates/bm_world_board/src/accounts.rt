//! The accounts of the declared parties.

ghost use Rattle.std.specs.Prelude.{◌≡◌, ◌++◌, ◌∷◌, [], ℕ, List, true, map, None, IfOk, OnOk};
ghost use Rattle.std.specs.List.{find};
ghost use Rattle.std.specs.Option.{option_copied};
ghost use Rattle.std.specs.Str.{bytes_eq};
ghost use Rattle.bm_hash.specs.Messages.{evidence_of};
ghost use Rattle.bm_hash.specs.Trails.{Hashes};
ghost use Rattle.spec_bitcoin.specs.Keys as keys;
ghost use Rattle.bm_world_board.specs.Accounts.{has_account, account_of, account_with, named_key, label_string, script_string, opening_labels, opening_scripts, owner_in};

use bm_hash::{Hash32, Trail, TrailError};
use bm_keys::{deposit_script, key, pay_to};
use spec_bitcoin::Label;
use spec_calculus::Owner;
use spec_data::{Name, Seq};
use std::alloc::Global;

/// What a party's deposits are: the party, its key, their script, and what an output pays to that is one.
#[derive(Clone, Copy)]
pub struct Account {
    pub party: Name,
    pub key: [u8; 33],
    pub script: [u8; 35],
    pub pays: [u8; 34],
}

// The key of a party's deposits, put to the others. It hashes the text of its label.
#[tactic(auto, using(bm_hash::proofs::HashesLemmas::stops_late))]
fn put_key<H: Hash32 + Drop>(
    alloc: Global,
    trail: &mut Trail<H>,
    named: &mut Seq<(Name, [u8; 33])>,
    party: &Name,
) -> Result<(), TrailError>
    ensures keys { OnOk result (named.new ≡ named.old ++ named_key (H.digest_of trail.old.hasher) party.now ∷ []) }
    ensures trail { Hashes H.digest_of trail.old trail.new (label_string party.now ∷ []) result }
{
    let made = key(alloc, trail, &Label::Deposit { party: *party })?;
    named.push((*party, made))?;
    Ok(())
}

// The keys of the parties' deposits, in order. It hashes the texts of their labels.
#[tactic(auto, using(bm_hash::proofs::HashesLemmas::hashed_none))]
fn keys_of<H: Hash32 + Drop>(
    alloc: Global,
    trail: &mut Trail<H>,
    parties: &[Name],
) -> Result<Seq<(Name, [u8; 33])>, TrailError>
    requires clear { evidence_of (H.digest_of trail.old.hasher) trail.old.messages ≡ None }
    ensures keys { IfOk result (λ named. named ≡ map (named_key (H.digest_of trail.old.hasher)) parties.now) }
    ensures trail { Hashes H.digest_of trail.old trail.new (opening_labels parties.now) result }
{
    let mut named = Seq::new(alloc);
    for party in parties {
        put_key(alloc, trail, &mut named, party)?;
    }
    Ok(named)
}

// The account of a party, put to the others. It hashes the script of its deposits.
#[tactic(auto, using(bm_hash::proofs::HashesLemmas::stops_late))]
fn put_account<H: Hash32 + Drop>(
    trail: &mut Trail<H>,
    accounts: &mut Seq<Account>,
    named: &(Name, [u8; 33]),
) -> Result<(), TrailError>
    ensures accounts { OnOk result (accounts.new ≡ accounts.old ++ account_with (H.digest_of trail.old.hasher) named.now ∷ []) }
    ensures trail { Hashes H.digest_of trail.old trail.new (script_string named.now ∷ []) result }
{
    let script = deposit_script(&named.1);
    let program = trail.hash(&script)?;
    accounts.push(Account {
        party: named.0,
        key: named.1,
        script,
        pays: pay_to(&program),
    })?;
    Ok(())
}

// The accounts of parties with their keys, in order. It hashes the scripts of their deposits.
#[tactic(auto, using(bm_hash::proofs::HashesLemmas::hashed_none))]
fn accounts_with<H: Hash32 + Drop>(
    alloc: Global,
    trail: &mut Trail<H>,
    named: &[(Name, [u8; 33])],
) -> Result<Seq<Account>, TrailError>
    requires clear { evidence_of (H.digest_of trail.old.hasher) trail.old.messages ≡ None }
    ensures accounts { IfOk result (λ accounts. accounts ≡ map (account_with (H.digest_of trail.old.hasher)) named.now) }
    ensures trail { Hashes H.digest_of trail.old trail.new (map script_string named.now) result }
{
    let mut accounts = Seq::new(alloc);
    for one in named {
        put_account(trail, &mut accounts, one)?;
    }
    Ok(accounts)
}

/// The accounts of the parties, in order. It hashes the texts of the labels of their deposits, and then the deposits' scripts.
pub fn accounts_of<H: Hash32 + Drop>(
    alloc: Global,
    trail: &mut Trail<H>,
    parties: &[Name],
) -> Result<Seq<Account>, TrailError>
    requires clear { evidence_of (H.digest_of trail.old.hasher) trail.old.messages ≡ None }
    ensures accounts { IfOk result (λ accounts. accounts ≡ map (account_of (H.digest_of trail.old.hasher)) parties.now) }
    ensures trail { Hashes H.digest_of trail.old trail.new (opening_labels parties.now ++ opening_scripts (H.digest_of trail.old.hasher) parties.now) result }
{
    let named = keys_of(alloc, trail, parties)?;
    let accounts = accounts_with(alloc, trail, named.as_slice())?;
    Ok(accounts)
}

// The account of the party, if it has one. There are at most 64 parties.
fn account_at<'a>(accounts: &'a [Account], party: &Name) -> Option<&'a Account>
    ensures { option_copied result ≡ find (λ a. bytes_eq a.party party.now) accounts.now }
{
    for account in accounts {
        if account.party == *party {
            return Some(account);
        }
    }
    None
}

/// The account of a party that has one, as each declared party has.
pub fn declared_account<'a>(accounts: &'a [Account], party: &Name) -> &'a Account
    requires { has_account accounts.now party.now ≡ true }
    ensures { (hash : List ℕ → List ℕ) (parties : List (List ℕ)) → accounts.now ≡ map (account_of hash) parties → result.now ≡ account_of hash party.now }
{
    let Some(account) = account_at(accounts, party) else {
        unreachable!()
    };
    account
}

/// The first of the parties whose deposits pay to the script, else somebody outside.
pub fn owner_of_script(accounts: &[Account], script: &[u8]) -> Owner
    ensures { result ≡ owner_in accounts.now script.now }
{
    for account in accounts {
        if account.pays.as_slice() == script {
            return Owner::Party(account.party);
        }
    }
    Owner::Outside
}
