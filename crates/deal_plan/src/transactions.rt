//! The lines of scripts and transactions.

ghost use Rattle.std.specs.Prelude.{◌≡◌, ◌++◌, ◌∷◌, [], codes, flat_map, reverse, OnOk};
ghost use Rattle.std.specs.Fmt.{decimal};
ghost use Rattle.spec_data.specs.Digits.{hex_text};
ghost use Rattle.spec_text.specs.PlanText.{script_line};
ghost use Rattle.spec_tool.specs.Keyed.Listed.{which_text};
ghost use Rattle.spec_deal.specs.DealText.{line_of, verb_text};
ghost use Rattle.spec_deal.specs.Wallets.{signer_text};
ghost use Rattle.deal_plan.specs.Parts as spec;

use bm_keys::{put_label, put_path};
use bm_text::{put, put_decimal, put_hex};
use deal_compile::has_digest;
use spec_bitcoin::Label;
use spec_data::{Bytes, OutOfMemory};
use spec_deal::{Input, Signer, Transaction, Verb, Wallet};
use spec_terms::Path;
use spec_tool::Which;
use std::alloc::Global;
use tool_which::put_which;

// `script POSITION HEX`
#[tactic(auto, using(std::proofs::Common::append_assoc))]
fn put_script(
    alloc: Global,
    out: &mut Vec<u8>,
    position: &Path,
    script: &Bytes,
) -> Result<(), OutOfMemory>
    ensures { OnOk result (out.new.items ≡ out.old.items ++ script_line (position.now, script.now)) }
{
    put(out, b"script ")?;
    put_path(alloc, out, position.steps())?;
    put(out, b" ")?;
    put_hex(alloc, out, script.as_slice())?;
    put(out, b"\n")
}

/// A line for the script of each position.
pub(crate) fn put_scripts(
    alloc: Global,
    out: &mut Vec<u8>,
    scripts: &[(Path, Bytes)],
) -> Result<(), OutOfMemory>
    ensures { OnOk result (out.new.items ≡ out.old.items ++ flat_map script_line scripts.now) }
{
    for (position, script) in scripts {
        put_script(alloc, out, position, script)?;
    }
    Ok(())
}

fn put_verb(out: &mut Vec<u8>, verb: Verb) -> Result<(), OutOfMemory>
    ensures { OnOk result (out.new.items ≡ out.old.items ++ verb_text verb) }
{
    match verb {
        Verb::Init => put(out, b"init"),
        Verb::Authorise => put(out, b"authorise"),
        Verb::Endorse => put(out, b"endorse"),
    }
}

/// A txid as it is shown, the last byte first.
pub(crate) fn put_txid(alloc: Global, out: &mut Vec<u8>, txid: &[u8; 32]) -> Result<(), OutOfMemory>
    ensures { OnOk result (out.new.items ≡ out.old.items ++ hex_text (reverse txid.now)) }
{
    let mut shown = *txid;
    shown.reverse();
    put_hex(alloc, out, &shown)
}

// `WORD WHICH k`, with a space behind.
#[tactic(auto, using(std::proofs::Common::append_assoc))]
fn put_place(
    alloc: Global,
    out: &mut Vec<u8>,
    word: &[u8],
    which: &Which,
    number: u64,
) -> Result<(), OutOfMemory>
    ensures { OnOk result (out.new.items ≡ out.old.items
        ++ (word.now ++ (codes " " ++ (which_text which.now ++ (codes " " ++ (decimal number ++ codes " ")))))) }
{
    put(out, word)?;
    put(out, b" ")?;
    put_which(alloc, out, which)?;
    put(out, b" ")?;
    put_decimal(alloc, out, number)?;
    put(out, b" ")
}

// `digest WHICH k HEX`
#[tactic(auto, using(std::proofs::Common::append_assoc))]
fn put_digest(
    alloc: Global,
    out: &mut Vec<u8>,
    which: &Which,
    number: u64,
    digest: &[u8; 32],
) -> Result<(), OutOfMemory>
    ensures { OnOk result (out.new.items ≡ out.old.items
        ++ line_of (codes "digest" ∷ which_text which.now ∷ decimal number ∷ hex_text digest.now ∷ [])) }
{
    put_place(alloc, out, b"digest", which, number)?;
    put_hex(alloc, out, digest)?;
    put(out, b"\n")
}

// The name of whose signature it is: `W:` and the deposit that the wallet brings, or else the label of the key.
fn put_signatory(
    alloc: Global,
    out: &mut Vec<u8>,
    wallet: &Option<Wallet>,
    label: &Label,
) -> Result<(), OutOfMemory>
    ensures { OnOk result (out.new.items ≡ out.old.items ++ signer_text wallet.now label.now) }
{
    match wallet {
        Some(wallet) => {
            put(out, b"W:")?;
            put(out, wallet.deposit.bytes())
        }
        None => put_label(alloc, out, label),
    }
}

// The line of a digest, where it is known that a signature signs it.
fn put_digest_of(
    alloc: Global,
    out: &mut Vec<u8>,
    which: &Which,
    number: u64,
    wallet: &Option<Wallet>,
    digest: &[u8; 32],
) -> Result<(), OutOfMemory>
    ensures { OnOk result (out.new.items ≡ out.old.items ++ spec.digest_text which.now number wallet.now digest.now) }
{
    if has_digest(wallet) {
        put_digest(alloc, out, which, number, digest)
    } else {
        Ok(())
    }
}

// `sign WHICH k SIGNATORY VERB`
#[tactic(auto, using(std::proofs::Common::append_assoc))]
fn put_sign(
    alloc: Global,
    out: &mut Vec<u8>,
    which: &Which,
    number: u64,
    wallet: &Option<Wallet>,
    signer: &Signer,
) -> Result<(), OutOfMemory>
    ensures { OnOk result (out.new.items ≡ out.old.items ++ spec.sign_text which.now number wallet.now signer.now) }
{
    put_place(alloc, out, b"sign", which, number)?;
    put_signatory(alloc, out, wallet, &signer.label)?;
    put(out, b" ")?;
    put_verb(out, signer.verb)?;
    put(out, b"\n")
}

fn put_signs(
    alloc: Global,
    out: &mut Vec<u8>,
    which: &Which,
    number: u64,
    wallet: &Option<Wallet>,
    signers: &[Signer],
) -> Result<(), OutOfMemory>
    ensures { OnOk result (out.new.items ≡ out.old.items ++ flat_map (spec.sign_text which.now number wallet.now) signers.now) }
{
    for signer in signers {
        put_sign(alloc, out, which, number, wallet, signer)?;
    }
    Ok(())
}

// The digest of an input, if it has one, and who signs it.
#[tactic(auto, using(std::proofs::Common::append_assoc))]
fn put_input(
    alloc: Global,
    out: &mut Vec<u8>,
    which: &Which,
    number: u64,
    input: &Input,
) -> Result<(), OutOfMemory>
    ensures { OnOk result (out.new.items ≡ out.old.items ++ spec.input_text which.now number input.now) }
{
    let wallet = &input.wallet;
    put_digest_of(alloc, out, which, number, wallet, &input.digest)?;
    put_signs(alloc, out, which, number, wallet, input.signers.as_slice())
}

#[tactic(auto, using(std::proofs::Common::append_assoc))]
fn put_inputs(
    alloc: Global,
    out: &mut Vec<u8>,
    which: &Which,
    inputs: &[Input],
) -> Result<(), OutOfMemory>
    ensures { OnOk result (out.new.items ≡ out.old.items ++ spec.inputs_text which.now 0 inputs.now) }
{
    let mut number = 0u64;
    for input in inputs {
        put_input(alloc, out, which, number, input)?;
        number += 1;
    }
    Ok(())
}

// `tx WHICH TXID HEX`
#[tactic(auto, using(std::proofs::Common::append_assoc))]
fn put_tx(alloc: Global, out: &mut Vec<u8>, transaction: &Transaction) -> Result<(), OutOfMemory>
    ensures { OnOk result (out.new.items ≡ out.old.items ++ spec.tx_text transaction.now) }
{
    put(out, b"tx ")?;
    put_which(alloc, out, &transaction.which)?;
    put(out, b" ")?;
    put_txid(alloc, out, &transaction.txid)?;
    put(out, b" ")?;
    put_hex(alloc, out, transaction.bytes.as_slice())?;
    put(out, b"\n")
}

#[tactic(auto, using(std::proofs::Common::append_assoc))]
fn put_transaction(
    alloc: Global,
    out: &mut Vec<u8>,
    transaction: &Transaction,
) -> Result<(), OutOfMemory>
    ensures { OnOk result (out.new.items ≡ out.old.items ++ spec.transaction_text transaction.now) }
{
    put_tx(alloc, out, transaction)?;
    put_inputs(
        alloc,
        out,
        &transaction.which,
        transaction.inputs.as_slice(),
    )
}

/// The lines of each transaction: its bytes, the digests of its inputs, and who signs them.
pub(crate) fn put_transactions(
    alloc: Global,
    out: &mut Vec<u8>,
    transactions: &[Transaction],
) -> Result<(), OutOfMemory>
    ensures { OnOk result (out.new.items ≡ out.old.items ++ flat_map spec.transaction_text transactions.now) }
{
    for transaction in transactions {
        put_transaction(alloc, out, transaction)?;
    }
    Ok(())
}
