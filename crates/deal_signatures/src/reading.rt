//! The signatures that a text gives to a deal.

ghost use Rattle.std.specs.Prelude.{◌≡◌, ◌≤◌, [], length, map, option_map, Some, OnOk};
ghost use Rattle.spec_text.specs.Lines.{lines_of, words_of};
ghost use Rattle.spec_tool.specs.Base64.{base64_bytes};
ghost use Rattle.spec_deal.specs.Sizes.{most_signature_bytes};
ghost use Rattle.spec_deal.specs.Transactions.{all_required};
ghost use Rattle.spec_deal.specs.SignatureFile as spec;
ghost use Rattle.spec_deal.specs.Verifier.{secp256k1};
ghost use Rattle.deal_signatures.specs.Seen.{known_in, numbered};
ghost use Rattle.deal_signatures.specs.Gives.{Takes, Gives, at_line};

use crate::error::{LineError, SignatureError};
use crate::given::Given;
use crate::inputs::take_inputs;
use crate::known::{Known, known_by, transaction_of};
use crate::required::Outstanding;
use bm_psbt::{Base64Error, Psbt, PsbtError, decode, read_base64};
use bm_runfile::{first_line, words_of};
use bm_tx::encode_stripped;
use deal_index::Indexed;
use spec_deal::{SignatureFault, SignatureReason, Transaction};
use std::alloc::Global;

/// The most bytes of a file of signatures.
const MOST_SIGNATURE_BYTES: usize = 8_388_608;

// The signatures of a partially signed transaction.
fn take_psbt(
    alloc: Global,
    transactions: &[Transaction],
    known: &Indexed<Known>,
    required: &Outstanding,
    given: &mut Given,
    psbt: &Psbt,
) -> Result<(), LineError>
    requires known { map known_in known.now ≡ numbered 0 transactions.now }
    requires required { required.now ≡ all_required transactions.now }
    ensures { Takes given.old given.new result (spec.take_psbt secp256k1 transactions.now given.old (Some psbt.now)) }
{
    let bytes = encode_stripped(alloc, psbt.tx())?;
    match transaction_of(transactions, known, &bytes) {
        Some(found) => take_inputs(
            alloc,
            required,
            given,
            &bytes,
            found.inputs.as_slice(),
            psbt.inputs(),
        ),
        None => Err(LineError::Bad(SignatureReason::Foreign)),
    }
}

// The signatures of the partially signed transaction that these bytes spell.
fn take_bytes(
    alloc: Global,
    transactions: &[Transaction],
    known: &Indexed<Known>,
    required: &Outstanding,
    given: &mut Given,
    bytes: &[u8],
) -> Result<(), LineError>
    requires known { map known_in known.now ≡ numbered 0 transactions.now }
    requires required { required.now ≡ all_required transactions.now }
    ensures { Takes given.old given.new result (spec.take_bytes secp256k1 transactions.now given.old (Some bytes.now)) }
{
    match decode(alloc, bytes) {
        Ok(psbt) => take_psbt(alloc, transactions, known, required, given, &psbt),
        Err(PsbtError::BadPsbt) => Err(LineError::Bad(SignatureReason::Form)),
        Err(PsbtError::Memory) => Err(LineError::Memory),
    }
}

// The signatures of a word.
fn take_word(
    alloc: Global,
    transactions: &[Transaction],
    known: &Indexed<Known>,
    required: &Outstanding,
    given: &mut Given,
    word: &[u8],
) -> Result<(), LineError>
    requires known { map known_in known.now ≡ numbered 0 transactions.now }
    requires required { required.now ≡ all_required transactions.now }
    ensures { Takes given.old given.new result (spec.take_bytes secp256k1 transactions.now given.old (base64_bytes word.now)) }
{
    match read_base64(alloc, word) {
        Ok(bytes) => take_bytes(alloc, transactions, known, required, given, &bytes),
        Err(Base64Error::Bad) => Err(LineError::Bad(SignatureReason::Base64)),
        Err(Base64Error::Memory) => Err(LineError::Memory),
    }
}

// The signatures of a line.
fn take_line(
    alloc: Global,
    transactions: &[Transaction],
    known: &Indexed<Known>,
    required: &Outstanding,
    given: &mut Given,
    line: &[u8],
) -> Result<(), LineError>
    requires known { map known_in known.now ≡ numbered 0 transactions.now }
    requires required { required.now ≡ all_required transactions.now }
    ensures { Takes given.old given.new result (spec.take_words secp256k1 transactions.now given.old (words_of line.now)) }
{
    let words = words_of(alloc, line)?;
    match words.as_slice() {
        [] => Ok(()),
        [word] => take_word(alloc, transactions, known, required, given, word),
        _ => Err(LineError::Bad(SignatureReason::Base64)),
    }
}

fn at_line(error: LineError, line: u32) -> SignatureError
    ensures { result ≡ at_line error line }
{
    match error {
        LineError::Bad(reason) => SignatureError::Refused(SignatureFault::Line(line, reason)),
        LineError::Memory => SignatureError::Memory,
    }
}

// The signatures of a text that isn't too long.
fn read_lines(
    alloc: Global,
    transactions: &[Transaction],
    text: &[u8],
) -> Result<Given, SignatureError>
    requires { length text.now ≤ most_signature_bytes }
    ensures { Gives (λ given. given) result (spec.take_lines secp256k1 transactions.now [] 1 (lines_of text.now)) }
{
    let known = known_by(alloc, transactions)?;
    let required = Outstanding::by(alloc, transactions)?;
    let mut given = Given::new(alloc);
    let mut rest = text;
    let mut line = 1u32;
    while !rest.is_empty() {
        let (prefix, more) = first_line(rest);
        if let Err(error) = take_line(alloc, transactions, &known, &required, &mut given, prefix) {
            return Err(at_line(error, line));
        }
        rest = more;
        line += 1;
    }
    Ok(given)
}

/// The signatures that a text gives to the transactions of a deal, or why it is refused.
pub fn read_signatures(
    alloc: Global,
    transactions: &[Transaction],
    text: &[u8],
) -> Result<Given, SignatureError>
    ensures { Gives (λ given. given) result (spec.read_given secp256k1 transactions.now text.now) }
{
    if text.len() > MOST_SIGNATURE_BYTES {
        return Err(SignatureError::Refused(SignatureFault::Size));
    }
    read_lines(alloc, transactions, text)
}
