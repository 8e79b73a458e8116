//! The transaction of a gift, and its signatures.

ghost use Rattle.std.specs.Prelude.{◌≡◌, ◌∷◌, [], ◌++◌, ℕ, List, None, true, map, slice_get, IfOk, OnOk, OnErr};
ghost use Rattle.std.specs.List.{All, flat_map};
ghost use Rattle.bm_hash.specs.Messages.{evidence_of};
ghost use Rattle.bm_hash.specs.Trails.{Hashes};
ghost use Rattle.bm_sighash.specs.Shared.{hashes_of};
ghost use Rattle.spec_run.specs.Setup.{Setup};
ghost use Rattle.spec_run.specs.Signing.{signed, signed_all};
ghost use Rattle.spec_run.specs.Giving.{given_output};
ghost use Rattle.bm_world_board.specs.Accounts.{has_account, account_of};
ghost use Rattle.bm_world_board.specs.Prepares.{IsPrefix};
ghost use Rattle.bm_world_spend.specs.Gifts as by;

use crate::refusing::value_at;
use bm_book::Book;
use bm_hash::{Hash32, Trail, TrailError};
use bm_keys::signature;
use bm_sighash::{ListHashes, digest_of_input, shared};
use bm_tx::txid;
use bm_world_board::{Account, declared_account};
use bm_world_coins::Coins;
use spec_bitcoin::{Tx, TxIn, TxOut};
use spec_data::{Bytes, Name, OutOfMemory, Seq};
use std::alloc::Global;

// ---- without signatures

// The input that spends the output of this number.
fn bare_input(alloc: Global, coins: &Coins, number: u32) -> TxIn
    requires { by.has_output coins.now.outputs number ≡ true }
    ensures { result ≡ by.input_of coins.now.outputs number }
{
    let Some(output) = coins.output(number) else {
        unreachable!()
    };
    TxIn {
        prev: output.outpoint(),
        script_sig: Bytes::of(Vec::new(alloc)),
        sequence: u32::MAX,
        witness: Seq::new(alloc),
    }
}

fn bare_inputs(alloc: Global, coins: &Coins, numbers: &[u32]) -> Result<Seq<TxIn>, OutOfMemory>
    requires { All (λ n. by.has_output coins.now.outputs n ≡ true) numbers.now }
    ensures { IfOk result (λ is. is ≡ map (by.input_of coins.now.outputs) numbers.now) }
{
    let mut inputs = Seq::with_capacity(alloc, numbers.len())?;
    for number in numbers {
        inputs.push(bare_input(alloc, coins, *number))?;
    }
    Ok(inputs)
}

// An output that pays so many satoshi to the account.
fn paying(alloc: Global, account: &Account, value: u64) -> Result<TxOut, OutOfMemory>
    ensures { IfOk result (λ o. o ≡ record { value = value; script = account.now.pays }) }
{
    Ok(TxOut {
        value,
        script: Bytes::from_slice(alloc, &account.pays)?,
    })
}

// An output to a party.
fn output_to(
    alloc: Global,
    accounts: &[Account],
    output: &(Name, u64),
) -> Result<TxOut, OutOfMemory>
    requires { has_account accounts.now (output.now.0) ≡ true }
    ensures { IfOk result (λ o. (s : Setup) → accounts.now ≡ map (account_of s.hash) s.header.parties → o ≡ given_output s output.now) }
{
    let account = declared_account(accounts, &output.0);
    let paid = paying(alloc, account, output.1)?;
    Ok(paid)
}

fn outputs_to(
    alloc: Global,
    accounts: &[Account],
    outputs: &[(Name, u64)],
) -> Result<Seq<TxOut>, OutOfMemory>
    requires { All (λ o. has_account accounts.now (o.0) ≡ true) outputs.now }
    ensures { IfOk result (λ os. (s : Setup) → accounts.now ≡ map (account_of s.hash) s.header.parties → os ≡ map (given_output s) outputs.now) }
{
    let mut made = Seq::with_capacity(alloc, outputs.len())?;
    for output in outputs {
        made.push(output_to(alloc, accounts, output)?)?;
    }
    Ok(made)
}

/// A gift without signatures: it spends the outputs of these numbers and pays the parties.
pub(crate) fn bare_gift(
    alloc: Global,
    coins: &Coins,
    accounts: &[Account],
    inputs: &[u32],
    outputs: &[(Name, u64)],
) -> Result<Tx, OutOfMemory>
    requires inputs { All (λ n. by.has_output coins.now.outputs n ≡ true) inputs.now }
    requires outputs { All (λ o. has_account accounts.now (o.0) ≡ true) outputs.now }
    ensures { IfOk result (λ tx. (s : Setup) → accounts.now ≡ map (account_of s.hash) s.header.parties
        → tx ≡ record { version = 2; inputs = map (by.input_of coins.now.outputs) inputs.now; outputs = map (given_output s) outputs.now; lock = 0 }) }
{
    let inputs = bare_inputs(alloc, coins, inputs)?;
    let outputs = outputs_to(alloc, accounts, outputs)?;
    Ok(Tx {
        version: 2,
        inputs,
        outputs,
        lock: 0,
    })
}

// ---- signatures

// The digest that an account signs for the output of this number. It hashes the script of its deposits, and what is signed.
#[tactic(auto, using(bm_hash::proofs::HashesLemmas::hashing, bm_hash::proofs::HashesLemmas::stops_early))]
fn sign_digest<H: Hash32 + Drop>(
    alloc: Global,
    trail: &mut Trail<H>,
    coins: &Coins,
    account: &Account,
    tx: &Tx,
    lists: &ListHashes,
    number: u32,
) -> Result<[u8; 32], TrailError>
    requires there { by.has_output coins.now.outputs number ≡ true }
    requires lists { lists.now ≡ hashes_of (H.digest_of trail.old.hasher) tx.now }
    requires clear { evidence_of (H.digest_of trail.old.hasher) trail.old.messages ≡ None }
    ensures digest { IfOk result (λ d. d ≡ by.digest_of (H.digest_of trail.old.hasher) coins.now.outputs tx.now account.now.script number) }
    ensures trail { Hashes H.digest_of trail.old trail.new (by.strings_of (H.digest_of trail.old.hasher) coins.now.outputs tx.now account.now.script number) result }
{
    let input = bare_input(alloc, coins, number);
    trail.hash(&account.script)?;
    let value = value_at(coins, number);
    let digest = digest_of_input(alloc, trail, tx, lists, &input, &account.script, value)?;
    Ok(digest)
}

fn witness_of(
    alloc: Global,
    account: &Account,
    digest: &[u8; 32],
) -> Result<Seq<Bytes>, OutOfMemory>
    ensures { IfOk result (λ w. w ≡ by.witness_of account.now digest.now) }
{
    let mut witness = Seq::with_capacity(alloc, 2)?;
    witness.push(Bytes::from_slice(alloc, &signature(&account.key, digest))?)?;
    witness.push(Bytes::from_slice(alloc, &account.script)?)?;
    Ok(witness)
}

// The input with a witness for this digest.
fn filled_input(
    alloc: Global,
    coins: &Coins,
    account: &Account,
    digest: &[u8; 32],
    number: u32,
) -> Result<TxIn, OutOfMemory>
    requires { by.has_output coins.now.outputs number ≡ true }
    ensures { IfOk result (λ i. i ≡ record (by.input_of coins.now.outputs number) { witness = by.witness_of account.now digest.now }) }
{
    let mut input = bare_input(alloc, coins, number);
    input.witness = witness_of(alloc, account, digest)?;
    Ok(input)
}

// Puts the signed input that spends the output of this number, whose pair is then in the book.
#[tactic(auto, using(bm_hash::proofs::HashesLemmas::stops_late))]
fn put_signed<H: Hash32 + Drop>(
    alloc: Global,
    trail: &mut Trail<H>,
    coins: &Coins,
    book: &mut Book,
    account: &Account,
    tx: &Tx,
    lists: &ListHashes,
    inputs: &mut Seq<TxIn>,
    number: &u32,
) -> Result<(), TrailError>
    requires there { by.has_output coins.now.outputs number.now ≡ true }
    requires lists { lists.now ≡ hashes_of (H.digest_of trail.old.hasher) tx.now }
    requires clear { evidence_of (H.digest_of trail.old.hasher) trail.old.messages ≡ None }
    ensures inputs { OnOk result (inputs.new ≡ inputs.old ++ by.signed_input (H.digest_of trail.old.hasher) coins.now.outputs account.now tx.now number.now ∷ []) }
    ensures book { OnOk result (book.new ≡ signed book.old (by.pair_of (H.digest_of trail.old.hasher) coins.now.outputs account.now tx.now number.now)) }
    ensures same { OnErr result (book.new ≡ book.old) }
    ensures trail { Hashes H.digest_of trail.old trail.new (by.strings_of (H.digest_of trail.old.hasher) coins.now.outputs tx.now account.now.script number.now) result }
{
    let digest = sign_digest(alloc, trail, coins, account, tx, lists, *number)?;
    inputs.push(filled_input(alloc, coins, account, &digest, *number)?)?;
    book.sign(account.key, digest)?;
    Ok(())
}

// The signed inputs that spend the outputs of these numbers, whose pairs are then in the book.
#[tactic(auto, using(bm_hash::proofs::HashesLemmas::hashed_none))]
fn signed_inputs<H: Hash32 + Drop>(
    alloc: Global,
    trail: &mut Trail<H>,
    coins: &Coins,
    book: &mut Book,
    account: &Account,
    tx: &Tx,
    lists: &ListHashes,
    numbers: &[u32],
) -> Result<Seq<TxIn>, TrailError>
    requires there { All (λ n. by.has_output coins.now.outputs n ≡ true) numbers.now }
    requires lists { lists.now ≡ hashes_of (H.digest_of trail.old.hasher) tx.now }
    requires clear { evidence_of (H.digest_of trail.old.hasher) trail.old.messages ≡ None }
    ensures inputs { IfOk result (λ is. is ≡ map (by.signed_input (H.digest_of trail.old.hasher) coins.now.outputs account.now tx.now) numbers.now) }
    ensures book { OnOk result (book.new ≡ signed_all book.old (map (by.pair_of (H.digest_of trail.old.hasher) coins.now.outputs account.now tx.now) numbers.now)) }
    ensures prefix { IsPrefix book.old book.new }
    ensures trail { Hashes H.digest_of trail.old trail.new (flat_map (by.strings_of (H.digest_of trail.old.hasher) coins.now.outputs tx.now account.now.script) numbers.now) result }
{
    let mut inputs = Seq::with_capacity(alloc, numbers.len())?;
    for number in numbers {
        put_signed(
            alloc,
            trail,
            coins,
            book,
            account,
            tx,
            lists,
            &mut inputs,
            number,
        )?;
    }
    Ok(inputs)
}

/// A gift with the account's signatures, whose pairs are then in the book. It hashes the strings of the transaction.
pub(crate) fn signed_gift<H: Hash32 + Drop>(
    alloc: Global,
    trail: &mut Trail<H>,
    coins: &Coins,
    book: &mut Book,
    account: &Account,
    bare: Tx,
    numbers: &[u32],
) -> Result<Tx, TrailError>
    requires { All (λ n. by.has_output coins.now.outputs n ≡ true) numbers.now }
    ensures tx { IfOk result (λ tx. tx ≡ by.signed_tx (H.digest_of trail.old.hasher) coins.now.outputs account.now bare numbers.now) }
    ensures book { OnOk result (book.new ≡ signed_all book.old (map (by.pair_of (H.digest_of trail.old.hasher) coins.now.outputs account.now bare) numbers.now)) }
    ensures prefix { IsPrefix book.old book.new }
    ensures trail { Hashes H.digest_of trail.old trail.new (by.gift_strings (H.digest_of trail.old.hasher) coins.now.outputs account.now.script bare numbers.now) result }
{
    txid(alloc, trail, &bare)?;
    let lists = shared(alloc, trail, &bare)?;
    let inputs = signed_inputs(alloc, trail, coins, book, account, &bare, &lists, numbers)?;
    Ok(bare.with_inputs(inputs))
}
