//! The opening of a run.

ghost use Rattle.std.specs.Prelude.{◌≡◌, ◌≤◌, ℕ, List, [], true, length, map, None, IfOk, OnOk};
ghost use Rattle.std.specs.List.{All, AllByRecursion};
ghost use Rattle.spec_data.specs.Ranges.{most_contracts};
ghost use Rattle.spec_terms.specs.Faults.{IsWellFormed};
ghost use Rattle.bm_hash.specs.Messages.{evidence_of};
ghost use Rattle.bm_hash.specs.Trails.{Hashes};
ghost use Rattle.spec_bitcoin.specs.Digests as digests;
ghost use Rattle.spec_run.specs.Conditions.{IsHeader};
ghost use Rattle.spec_run.specs.Event as run;
ghost use Rattle.bm_world_board.specs.Accounts.{has_account, account_of};
ghost use Rattle.bm_world_board.specs.Secrets.{secret_strings};
ghost use Rattle.bm_world_opening.specs.Opening.{setup_with, opening_output, opening_coins, none_compiled, IsOpenedWith, IsOpened};

use bm_book::Book;
use bm_compile::Compiled;
use bm_exchange::{Exchange, Strings};
use bm_hash::{Hash32, Trail, TrailError};
use bm_wellformed::Checked;
use bm_world_board::{Account, Board, accounts_of, declared_account};
use bm_world_coins::Coins;
use spec_bitcoin::TxOut;
use spec_data::{Bytes, Name, OutOfMemory, Seq};
use spec_run::{Header, HeldSecret};
use std::alloc::Global;

// The output of a deposit of the header.
fn output_of(
    alloc: Global,
    accounts: &[Account],
    deposit: &(Name, u64),
) -> Result<TxOut, OutOfMemory>
    requires { has_account accounts.now (deposit.now.0) ≡ true }
    ensures { IfOk result (λ o. (hash : List ℕ → List ℕ) (parties : List (List ℕ)) → accounts.now ≡ map (account_of hash) parties → o ≡ opening_output hash deposit.now) }
{
    let account = declared_account(accounts, &deposit.0);
    let output = paying(alloc, account, deposit.1)?;
    Ok(output)
}

// An output that pays so many satoshi to the account.
fn paying(alloc: Global, account: &Account, value: u64) -> Result<TxOut, OutOfMemory>
    ensures { IfOk result (λ o. o ≡ record { value = value; script = account.now.pays }) }
{
    Ok(TxOut {
        value,
        script: Bytes::from_slice(alloc, &account.pays)?,
    })
}

// The outputs of the header's deposits.
fn outputs_of(
    alloc: Global,
    accounts: &[Account],
    deposits: &[(Name, u64)],
) -> Result<Seq<TxOut>, OutOfMemory>
    requires { All (λ d. has_account accounts.now (d.0) ≡ true) deposits.now }
    ensures { IfOk result (λ os. (hash : List ℕ → List ℕ) (parties : List (List ℕ)) → accounts.now ≡ map (account_of hash) parties → os ≡ map (opening_output hash) deposits.now) }
{
    let mut outputs = Seq::new(alloc);
    for deposit in deposits {
        outputs.push(output_of(alloc, accounts, deposit)?)?;
    }
    Ok(outputs)
}

// The coins of a run's opening. It hashes the opening transaction, and its hash.
#[tactic(auto, using(bm_hash::proofs::HashesLemmas::stops_early))]
fn coins_of<H: Hash32 + Drop>(
    alloc: Global,
    trail: &mut Trail<H>,
    accounts: &[Account],
    header: &Header,
) -> Result<Coins, TrailError>
    requires header { IsHeader header.now }
    requires accounts { accounts.now ≡ map (account_of (H.digest_of trail.old.hasher)) header.now.parties }
    requires clear { evidence_of (H.digest_of trail.old.hasher) trail.old.messages ≡ None }
    ensures coins { IfOk result (λ c. c ≡ opening_coins (setup_with (H.digest_of trail.old.hasher) header.now [])) }
    ensures trail { Hashes H.digest_of trail.old trail.new (digests.txid_strings (H.digest_of trail.old.hasher) (digests.opening_transaction (run.opening_outputs (setup_with (H.digest_of trail.old.hasher) header.now [])))) result }
{
    let outputs = outputs_of(alloc, accounts, header.deposits.as_slice())?;
    let coins = Coins::opening(alloc, trail, outputs.as_slice())?;
    Ok(coins)
}

// The accounts of the declared parties, and the coins of the opening. It hashes the opening strings of the run.
fn open_coins<H: Hash32 + Drop>(
    alloc: Global,
    trail: &mut Trail<H>,
    header: &Header,
) -> Result<(Seq<Account>, Coins), TrailError>
    requires header { IsHeader header.now }
    requires clear { evidence_of (H.digest_of trail.old.hasher) trail.old.messages ≡ None }
    ensures opened { IfOk result (λ p. IsOpenedWith (setup_with (H.digest_of trail.old.hasher) header.now []) (p.0) (p.1)) }
    ensures trail { Hashes H.digest_of trail.old trail.new (run.opening_strings (setup_with (H.digest_of trail.old.hasher) header.now [])) result }
{
    let accounts = accounts_of(alloc, trail, header.parties.as_slice())?;
    let coins = coins_of(alloc, trail, accounts.as_slice(), header)?;
    Ok((accounts, coins))
}

// For each of the contracts, which have all passed the check, that it isn't compiled.
fn not_compiled(alloc: Global, contracts: &[Checked]) -> Result<Seq<Option<Compiled>>, OutOfMemory>
    ensures compiled { IfOk result (λ compiled. compiled ≡ none_compiled contracts.now) }
    ensures checked { OnOk result (AllByRecursion IsWellFormed contracts.now) }
{
    let mut compiled = Seq::new(alloc);
    for contract in contracts {
        let _passed = contract.advert();
        compiled.push(None)?;
    }
    Ok(compiled)
}

// The bytes of the secrets, in order, with an index.
fn known_strings(alloc: Global, secrets: &[HeldSecret]) -> Result<Strings, OutOfMemory>
    ensures { IfOk result (λ known. known ≡ secret_strings secrets.now) }
{
    let mut known = Strings::new(alloc);
    for held in secrets {
        known.add(held.bytes.as_slice())?;
    }
    Ok(known)
}

/// The board before any event. It hashes the opening strings of the run.
#[tactic(auto, using(bm_hash::proofs::HashesLemmas::stops_early, crate::proofs::NotCompiled::none_is))]
pub fn open_board<H: Hash32 + Drop>(
    alloc: Global,
    trail: &mut Trail<H>,
    header: &Header,
    contracts: Vec<Checked>,
) -> Result<Board, TrailError>
    requires header { IsHeader header.now }
    requires few { length contracts.items ≤ most_contracts }
    requires clear { evidence_of (H.digest_of trail.old.hasher) trail.old.messages ≡ None }
    ensures board { IfOk result (IsOpened (setup_with (H.digest_of trail.old.hasher) header.now contracts.items)) }
    ensures trail { Hashes H.digest_of trail.old trail.new (run.opening_strings (setup_with (H.digest_of trail.old.hasher) header.now contracts.items)) result }
{
    let compiled = not_compiled(alloc, &contracts)?;
    let copied = header.copy(alloc)?;
    let known = known_strings(alloc, header.secrets.as_slice())?;
    let exchange = Exchange::new(alloc, contracts.len() as u32)?;
    let (accounts, coins) = open_coins(alloc, trail, header)?;
    Ok(Board {
        header: copied,
        contracts: Seq::of(contracts),
        accounts,
        known,
        coins,
        book: Book::new(alloc),
        exchange,
        begun: Seq::new(alloc),
        compiled,
    })
}
