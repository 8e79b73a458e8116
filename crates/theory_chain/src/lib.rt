//! What follows of chains of a deal: each theorem is the contract of a function that does nothing, or calls one that does nothing.
#![tactic(auto)]

ghost use Rattle.theory_chain.specs.Aside.{AsideAnywhere, OthersAreReadOver};
ghost use Rattle.theory_chain.specs.Files.{ChainsAreSpelled, ChainsAreRefused};
ghost use Rattle.theory_chain.specs.GoingOn.{WhatCanGoesOn};
ghost use Rattle.theory_chain.specs.Ledgers.{CanIsAccepted};
ghost use Rattle.theory_chain.specs.Nevers.{NeverComes};
ghost use Rattle.theory_chain.specs.Prospects.{CanExactly, CanOpens, GoneNeverComes, KnownFit, SuppliedComes};
ghost use Rattle.theory_chain.specs.Follows.{FollowedExactly, RefusedExactly, HistoryStays};
ghost use Rattle.theory_chain.specs.OwnAccepted.{OwnIsAccepted};
ghost use Rattle.theory_chain.specs.Reasons.{BadExactly};
ghost use Rattle.theory_chain.specs.Refused.{AcceptedExactly, CannotIsRefused, NotAskedIsSpent};
ghost use Rattle.theory_chain.specs.RequirementOrder.{RequirementsInOrder, WaitsExactly};
ghost use Rattle.theory_chain.specs.Requirements.{RequirementsExactly, UnverifiedExactly};
ghost use Rattle.theory_chain.specs.Revealed.{RevealedExactly, RevealedOnce, SecretsExactly};
ghost use Rattle.theory_chain.specs.Runs.{ChainsAreRuns};

use theory_deal::{
    asks_exactly, finished_is_planned, finished_opens, finishes_exactly, inputs_opened,
    signatures_in_order,
};

/// A chain file is taken exactly where its lines spell these transactions and this tip.
pub fn chains_are_spelled()
    ensures { ChainsAreSpelled }
{}

/// It is refused for a line exactly where this is the first that is none of a chain, by the reason that holds there.
pub fn chains_are_refused()
    ensures { ChainsAreRefused }
{}

/// A chain is followed to its tip exactly where its file is taken and no transaction is bad where it stands.
pub fn followed_exactly()
    ensures { FollowedExactly }
{}

/// It is refused exactly at the first bad line.
pub fn refused_exactly()
    ensures { RefusedExactly }
{}

/// What has happened begins what has happened after more lines.
pub fn history_stays()
    ensures { HistoryStays }
{}

/// A chain is a legal run of the calculus, and the configuration at its end is what the chain shows: the contracts are the live positions with
/// their balances, the deposits those that weren't taken and what was paid, the secrets those that were shown, the time is the tip, and what is
/// gone may move outside.
pub fn chains_are_runs()
    ensures { ChainsAreRuns }
{}

/// Nothing is missing for a transaction exactly where it is finished, its lock is reached and its deposits are live.
pub fn can_exactly()
    ensures { CanExactly }
{
    finishes_exactly();
}

/// Every string that is known fits its secret.
pub fn known_fit()
    ensures { KnownFit }
{}

/// The witnesses of a transaction for which nothing is missing open what it spends, for every oracle that accepts its signatures; those of
/// wallets are what was handed in.
pub fn can_opens()
    ensures { CanOpens }
{
    can_exactly();
    finished_opens();
    inputs_opened();
    known_fit();
}

/// It is accepted at the tip by each ledger that has, of what it spends, what is live, for every oracle that accepts its signatures, and
/// consensus that takes the witnesses of wallets.
pub fn can_is_accepted()
    ensures { CanIsAccepted }
{
    can_exactly();
    can_opens();
}

/// What is finished while something is missing is refused at the tip by each such ledger, whatever judges the signatures.
pub fn cannot_is_refused()
    ensures { CannotIsRefused }
{
    can_exactly();
}

/// A transaction of the deal that isn't asked spends an output that isn't live, so that no such ledger accepts it.
pub fn not_asked_is_spent()
    ensures { NotAskedIsSpent }
{}

/// A transaction whose deposit is gone never can come, whatever lines are added, and whatever is signed and known.
pub fn gone_never_comes()
    ensures { GoneNeverComes }
{}

/// A transaction below which `never` stands can't come after any further lines, whatever is signed and told, where no two strings have one
/// hash.
pub fn never_comes()
    ensures { NeverComes }
{}

/// A transaction that isn't the deal's, spends none of its outputs and shows nothing new is never bad, and changes nothing of the text.
pub fn others_are_read_over()
    ensures { OthersAreReadOver }
{}

/// Where all that may be missing is supplied, nothing is missing, or its predicate is false and it never comes.
pub fn supplied_comes()
    ensures { SuppliedComes }
{}

/// Each line below a transaction that can't come stands exactly where what it says is missing.
pub fn requirements_exactly()
    ensures { RequirementsExactly }
{}

/// Below a transaction that can come, each line `unverified` stands exactly where it counts on the witness of a wallet.
pub fn unverified_exactly()
    ensures { UnverifiedExactly }
{}

/// The lines below one that can't come stand in order, each once: the lock, the signatures in the order of the text, the deposits by input, the secrets in the order of the
/// reveal, and what never comes.
pub fn requirements_in_order()
    ensures { RequirementsInOrder }
{
    asks_exactly();
    signatures_in_order();
}

/// A participant is waited for exactly where such a line names it and none beside it says that the transaction never comes.
pub fn waits_exactly()
    ensures { WaitsExactly }
{}

/// What can come at a tip below the last height is, as it is finished, the next transaction of the longer chain, by its name.
pub fn what_can_goes_on()
    ensures { WhatCanGoesOn }
{
    can_exactly();
    can_opens();
    finished_is_planned();
}

/// Each transaction of the deal is accepted where it stands in a chain, by each ledger that has what is live there, if every signature is good
/// and consensus takes the witnesses of wallets.
pub fn own_is_accepted()
    ensures { OwnIsAccepted }
{}

/// A string of a secret is known exactly where the file of secrets gives it or a witness of the chain shows it, whosever the transaction is.
pub fn secrets_exactly()
    ensures { SecretsExactly }
{}

/// A secret is revealed below a transaction exactly where it shows the secret and none before it does.
pub fn revealed_exactly()
    ensures { RevealedExactly }
{}

/// Such a transaction may be added anywhere in a chain or left out of it: neither makes another transaction bad, and the text is the same.
pub fn aside_anywhere()
    ensures { AsideAnywhere }
{}

/// What is asked and finished can come exactly where such a ledger accepts it at the tip.
pub fn accepted_exactly()
    ensures { AcceptedExactly }
{
    can_is_accepted();
    cannot_is_refused();
}

/// A transaction is bad by the first of the reasons that holds of it, each in words of its own, and isn't bad where none holds.
pub fn bad_exactly()
    ensures { BadExactly }
{}

/// What a transaction is the first to show is revealed once below it.
pub fn revealed_once()
    ensures { RevealedOnce }
{}
