//! Theorems on deals: what a taken file gives, which signatures are missing, when the start may be signed, and that a
//! finished transaction's scripts are true. `deal_tool` has most of them in its clause. Each is the contract of a
//! function that does nothing.
#![tactic(auto)]

ghost use Rattle.theory_deal.specs.Accepted.{VerdictByBook, AcceptedTheorem};
ghost use Rattle.theory_deal.specs.Asked.{DealsAsk};
ghost use Rattle.theory_deal.specs.Causes.{DealCausesTheorem};
ghost use Rattle.theory_deal.specs.Circles.{NoneIsCircular};
ghost use Rattle.theory_deal.specs.DealLines.{DealFilesAreRead, PartsAreRead};
ghost use Rattle.theory_deal.specs.Ecdsa.{IsEcdsa};
ghost use Rattle.theory_deal.specs.Files.{DealsAreSized, DealsGiveAll, KeysArePoints, ScriptsArePayable, SecretsFit, SignaturesAreShaped};
ghost use Rattle.theory_deal.specs.Files.{SignaturesVerify, KeysAreGiven, WitnessesVerify};
ghost use Rattle.theory_deal.specs.FinishAnswers.{FinishAnswers};
ghost use Rattle.theory_deal.specs.Finished.{InputsOpened, FinishedOpens, FinishedIsPlanned, FalseWithoutOne};
ghost use Rattle.theory_deal.specs.ForSigners.{FilesForSigners};
ghost use Rattle.theory_deal.specs.NothingTwice.{NothingTwice};
ghost use Rattle.theory_deal.specs.Plain.{PlainDeals};
ghost use Rattle.theory_deal.specs.Plan.{PlanOfRuns};
ghost use Rattle.theory_deal.specs.Printed.{ReadAgainTheorem};
ghost use Rattle.theory_deal.specs.Scripts.{ScriptsAsk};
ghost use Rattle.theory_deal.specs.SecretLines.{SecretFilesAreRead};
ghost use Rattle.theory_deal.specs.Shapes.{ShapeExactly, ShapeIsShort};
ghost use Rattle.theory_deal.specs.SignatureLines.{SignatureFilesAreRead};
ghost use Rattle.theory_deal.specs.Signatures.{MissingAndHeld, MayStart};
ghost use Rattle.theory_deal.specs.Signing.{AsksExactly, EndorsementsOfRuns, HeldAndMissing};
ghost use Rattle.theory_deal.specs.SigningOrder.{SignaturesInOrder};
ghost use Rattle.theory_deal.specs.Transactions.{DealsHash, TransactionsOfDeals};
ghost use Rattle.theory_deal.specs.Used.{KeysAreUsed};
ghost use Rattle.theory_deal.specs.Weights.{AreLight};
ghost use Rattle.theory_deal.specs.Whole.{FinishesExactly, FinishTheorem};

use theory_script::any_keys::paths_in_order;

/// A signature is listed as missing exactly where a transaction needs it and it isn't there, as held exactly where it is, and as not verified
/// exactly where it is a wallet's endorsement that is there.
pub fn missing_and_held()
    ensures { MissingAndHeld }
{}

/// A deal has a transaction under each name in the order of the text, that of the contract, which pays out what it spends but the fee.
pub fn transactions_of_deals()
    ensures { TransactionsOfDeals }
{
    paths_in_order();
}

/// What is hashed for a deal are the scripts of keys of deposits that are used, and then what is hashed to compile its contract at given keys.
pub fn deals_hash()
    ensures { DealsHash }
{}

/// The file for signers of a name is that of the contract's transaction of the name; all of them are these in order.
pub fn files_for_signers()
    ensures { FilesForSigners }
{
    transactions_of_deals();
}

/// A signature is needed exactly where a transaction of the contract asks for it: of this input, by this key, by this event of a run.
pub fn asks_exactly()
    ensures { AsksExactly }
{}

/// The script of an input asks for the key of each signature by a key that is needed of it.
pub fn scripts_ask()
    ensures { ScriptsAsk }
{}

/// Signatures are needed in the order of the text, none of them twice.
pub fn signatures_in_order()
    ensures { SignaturesInOrder }
{
    transactions_of_deals();
}

/// The endorsements of a deal are those that honest parties in runs wait for, in the same order.
pub fn endorsements_of_runs()
    ensures { EndorsementsOfRuns }
{}

/// The signatures that are held and those that are missing part those that are needed.
pub fn held_and_missing()
    ensures { HeldAndMissing }
{}

/// All that a deal asks to be signed is its contract's, in the order of the text.
pub fn deals_ask()
    ensures { DealsAsk }
{
    transactions_of_deals();
    asks_exactly();
    scripts_ask();
    signatures_in_order();
    endorsements_of_runs();
    held_and_missing();
}

/// The initial transaction may be signed exactly where every endorsement is there.
pub fn may_start()
    ensures { MayStart }
{}

/// Without its deposits, payees and signers, the plan of a deal with deposits of keys is what `bitml` prints of the same contract at the same
/// keys.
pub fn plan_of_runs()
    ensures { PlanOfRuns }
{}

/// Where a transaction is finished, the scripts of all inputs that keys of the deal sign are true for every oracle of signatures that
/// accepts the given ones, and those of wallets have what was handed in.
pub fn inputs_opened()
    ensures { InputsOpened }
{}

/// Where a transaction is finished and all deposits are of keys, every oracle of signatures that accepts the given ones finds the
/// scripts of all its inputs true.
pub fn finished_opens()
    ensures { FinishedOpens }
{}

/// Without witnesses a finished transaction has the bytes of the plan's.
pub fn finished_is_planned()
    ensures { FinishedIsPlanned }
{}

/// A script is false for every oracle that finds no signature of one of its signers.
pub fn false_without_one()
    ensures { FalseWithoutOne }
{}

/// A signature has the shape exactly where there are an R and an S that it spells.
pub fn shape_exactly()
    ensures { ShapeExactly }
{}

/// A signature of the shape has at most 73 bytes.
pub fn shape_is_short()
    ensures { ShapeIsShort }
{}

/// Each signature of a file that is taken has the shape.
pub fn signatures_are_shaped()
    ensures { SignaturesAreShaped }
{}

/// Each signature by a key, of a file that is taken, verifies under its key, for the digest of its input; so the initial transaction may be
/// signed exactly where every endorsement is there, and each by a key verifies.
pub fn signatures_verify()
    ensures { SignaturesVerify }
{}

/// The keys that sign in a deal that is taken are given.
pub fn keys_are_given()
    ensures { KeysAreGiven }
{}

/// Each witness of a file that is taken is of an input that a wallet signs, has the form that spends the wallet's output, and verifies as
/// far as that is known.
pub fn witnesses_verify()
    ensures { WitnessesVerify }
{}

/// Each string of a file of secrets that is taken fits its secret.
pub fn secrets_fit()
    ensures { SecretsFit }
{}

/// A file of signatures comes to what its lines come to, input by input and signature by signature; it is refused at its first bad line, by
/// the first reason there.
pub fn signature_files_are_read()
    ensures { SignatureFilesAreRead }
{}

/// A deal file comes to what its lines come to, each by its words, and to the first thing that is needed and that no line gives; it is
/// refused at its first bad line, by the first reason there.
pub fn deal_files_are_read()
    ensures { DealFilesAreRead }
{}

/// A deal file that may lack lines comes to what its lines come to, each by its words.
pub fn parts_are_read()
    ensures { PartsAreRead }
{}

/// A file of secrets comes to what its lines come to, each by its words; it is refused at its first bad line, by the first reason there.
pub fn secret_files_are_read()
    ensures { SecretFilesAreRead }
{}

/// A deal that is taken gives all that it uses of what its contract needs, in order.
pub fn deals_give_all()
    ensures { DealsGiveAll }
{}

/// A deal isn't circular exactly where its own transactions make none of its deposits, and nobody is paid at one of its positions.
pub fn none_is_circular()
    ensures { NoneIsCircular }
{}

/// A file without networks, payees and scripts gives a deal whose texts have no payees, no addresses and no wallets.
pub fn plain_deals()
    ensures { PlainDeals }
{}

/// No two lines of a deal file that is taken give the same.
pub fn nothing_twice()
    ensures { NothingTwice }
{}

/// The verifier of the program is ECDSA over secp256k1, of the key, the digest and the signature that it is given.
pub fn is_ecdsa()
    ensures { IsEcdsa }
{}

/// The keys and hashes of a deal that is taken have their sizes.
pub fn deals_are_sized()
    ensures { DealsAreSized }
{}

/// The key of a party's deposits is needed exactly where one of them has no wallet or a withdraw pays the key.
pub fn keys_are_used()
    ensures { KeysAreUsed }
{}

/// The keys of a deal that is taken are points.
pub fn keys_are_points()
    ensures { KeysArePoints }
{}

/// The output scripts that a deal that is taken gives are of kinds that deposits and participants may have.
pub fn scripts_are_payable()
    ensures { ScriptsArePayable }
{}

/// A transaction is finished exactly where nothing is missing that it needs.
pub fn finishes_exactly()
    ensures { FinishesExactly }
{}

/// What `finish` prints of files that are taken is the plan's transaction, with witnesses that make all its scripts true.
pub fn finish_theorem()
    ensures { FinishTheorem }
{}

/// By the book of ideal signatures, the verdict by an oracle is that of the ledger.
pub fn verdict_by_book()
    ensures { VerdictByBook }
{}

/// What `finish` prints of files that are taken is accepted by each ledger on which what it spends is live, from its lock on and not before.
pub fn finished_accepted()
    ensures { AcceptedTheorem }
{}

/// What `finish` prints of files that are taken is, read as hexadecimal, the spelling of the finished transaction, and of no other.
pub fn finished_is_read_again()
    ensures { ReadAgainTheorem }
{}

/// Where the status of `finish` is 0, its text is one transaction, which is the plan's, and which ledgers accept.
pub fn finish_answers()
    ensures { FinishAnswers }
{}

/// Each status of the program for deals comes by its cause, the first of them in their order.
pub fn deal_statuses_have_causes()
    ensures { DealCausesTheorem }
{}

/// No finished transaction weighs more than 50,000 whose wallets are those of keys.
pub fn are_light()
    ensures { AreLight }
{}
