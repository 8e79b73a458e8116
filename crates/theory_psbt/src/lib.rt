//! Theorems on partially signed transactions: reading and writing are inverse, and combining loses nothing. Each is the
//! contract of a function that does nothing.
#![tactic(auto)]

ghost use Rattle.theory_psbt.specs.Again.{ReadIsFitting, ReadIsReadAgain};
ghost use Rattle.theory_psbt.specs.Joined.{CombinedIsJoined, CombinedBothWays, OtherTxExactly, ConflictExactly};
ghost use Rattle.theory_psbt.specs.Listed.{KeysDiffer, ListedIsFitting, ListedIsRead, ParticipantsDiffer, SignersForEach};
ghost use Rattle.theory_psbt.specs.Spelled.{SpelledIsRead, ReadIsSpelled, OnePsbt, SpelledIsPsbt, WrittenIsSpelled, WrittenIsRead};

pub mod any_keys;

/// What bytes spell is read of them, foreign records or not.
pub fn spelled_is_read()
    ensures { SpelledIsRead }
{}

/// What is read of bytes is spelled by them: nothing is read of others.
pub fn read_is_spelled()
    ensures { ReadIsSpelled }
{}

/// Bytes spell at most one partially signed transaction.
pub fn one_psbt()
    ensures { OnePsbt }
{}

/// What bytes spell has an input, no script and no witness in its transaction, and signatures that
/// ascend by their keys.
pub fn spelled_is_psbt()
    ensures { SpelledIsPsbt }
{}

/// What is written spells what it was written of.
pub fn written_is_spelled()
    ensures { WrittenIsSpelled }
{}

/// What is written is read again as the same.
pub fn written_is_read()
    ensures { WrittenIsRead }
{}

/// What is read of bytes can be written: its numbers are within their widths.
pub fn read_is_fitting()
    ensures { ReadIsFitting }
{}

/// What is read of bytes and written again is read as the same.
pub fn read_is_read_again()
    ensures { ReadIsReadAgain }
{}

/// A compiled transaction with the signatures that a book has for it is a partially signed
/// transaction that can be written, where the keys of each input's signers are different.
pub fn listed_is_fitting()
    ensures { ListedIsFitting }
{}

/// What is written of it is read as the same.
pub fn listed_is_read()
    ensures { ListedIsRead }
{}

/// The keys of different parties for a branch are different, where no two texts of their labels
/// collide.
pub fn keys_differ()
    ensures { KeysDiffer }
{}

/// No party stands twice among the participants of a contract.
pub fn participants_differ()
    ensures { ParticipantsDiffer }
{}

/// Each transaction of a contract has signers for each of its inputs.
pub fn signers_for_each()
    ensures { SignersForEach }
{}

/// Two that can be combined give one of the transaction of both, with the records of both, whose
/// records of one key don't differ.
pub fn combined_is_joined()
    ensures { CombinedIsJoined }
{}

/// Two that can be combined can be so the other way round, and give the same.
pub fn combined_both_ways()
    ensures { CombinedBothWays }
{}

/// It is answered that two are of different transactions exactly where they are.
pub fn other_tx_exactly()
    ensures { OtherTxExactly }
{}

/// A conflict at an input is answered exactly where both are of one transaction and this is the
/// first input of which both have a record of one key with different values.
pub fn conflict_exactly()
    ensures { ConflictExactly }
{}
