//! Test vectors of `bitml deal`: words and files of a deal and what the definitions answer, computed by the kernel.
//! Hashes are tables of SHA-256; the expected texts come from another implementation.
#![tactic(auto)]

ghost use Rattle.theory_deal_values.specs.FinishedDeal.{FinishedDealExists};
ghost use Rattle.theory_deal_values.specs.RefusedCalls.{CallsAreRefused, TransactionsAreRefused, SmallestDealIsFinished};
ghost use Rattle.theory_deal_values.specs.RefusedChains.{ChainsAreRefused};
ghost use Rattle.theory_deal_values.specs.RefusedDealFiles.{DealFilesAreRefused};
ghost use Rattle.theory_deal_values.specs.RefusedSecretFiles.{SecretFilesAreRefused};
ghost use Rattle.theory_deal_values.specs.RefusedSignatureFiles.{SignatureFilesAreRefused};

/// A branch that puts a deposit and reveals two secrets is finished to the bytes that a node takes. The other values stand in `proofs/`.
pub fn finished_deals_exist()
    ensures { FinishedDealExists }
{}

/// The smallest deal is finished by signatures that verify.
pub fn smallest_deal_is_finished()
    ensures { SmallestDealIsFinished }
{}

/// Words that are no command, a file that can't be read, a contract that is refused, and a collision.
pub fn calls_are_refused()
    ensures { CallsAreRefused }
{}

/// A refused deal file for each reason.
pub fn deal_files_are_refused()
    ensures { DealFilesAreRefused }
{}

/// A refused file of signatures for each reason.
pub fn signature_files_are_refused()
    ensures { SignatureFilesAreRefused }
{}

/// A refused file of secrets for each reason.
pub fn secret_files_are_refused()
    ensures { SecretFilesAreRefused }
{}

/// A transaction that can't be finished, for each reason, and a deal that isn't ready.
pub fn transactions_are_refused()
    ensures { TransactionsAreRefused }
{}

/// A refused chain file for each reason.
pub fn chains_are_refused()
    ensures { ChainsAreRefused }
{}
