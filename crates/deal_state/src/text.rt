//! What is printed of where a deal stands.

ghost use Rattle.std.specs.Prelude.{◌≡◌, ◌++◌, ℕ, List, true, map, flat_map, filter, IfOk, OnOk};
ghost use Rattle.std.specs.List.{list_any, list_all};
ghost use Rattle.spec_terms.specs.Precondition.{secrets, names_of};
ghost use Rattle.spec_compiler.specs.Keyed.Instance.{Instance};
ghost use Rattle.spec_compiler.specs.Keyed.Keys.{Keys};
ghost use Rattle.spec_terms.specs.Parties.{participants};
ghost use Rattle.spec_deal.specs.SecretFile.{has_length, string_for};
ghost use Rattle.spec_deal.specs.Transactions.{transactions as transactions_of};
ghost use Rattle.spec_chain.specs.StateText as spec;
ghost use Rattle.spec_chain.specs.Outstanding as required;
ghost use Rattle.deal_state.specs.Prospects as by;
ghost use Rattle.deal_follow.specs.Seen.{happened_in, state_in, course_in};
ghost use Rattle.deal_missing.specs.Required as missing;

use crate::asked::asked;
use crate::lines::{
    put_event, put_height, put_live, put_paid, put_prospect, put_string, put_waits,
};
use crate::outstanding::outstanding;
use crate::signatures::{Unverified, all_unverified};
use bm_wellformed::Checked;
use deal_follow::{Course, Event, Standing};
use deal_missing::{Wanted, all_requirements, party_of};
use deal_secrets::{Strings, known};
use deal_signatures::Given;
use spec_chain::{Output, Requirement};
use spec_data::{Name, OutOfMemory};
use spec_deal::Transaction;
use spec_terms::Pre;
use spec_tool::Which;
use std::alloc::Global;

// ---- what has been

fn put_events(alloc: Global, out: &mut Vec<u8>, events: &[Event]) -> Result<(), OutOfMemory>
    ensures { OnOk result (out.new.items ≡ out.old.items ++ flat_map spec.happened_text (map happened_in events.now)) }
{
    for event in events {
        put_event(alloc, out, event)?;
    }
    Ok(())
}

fn put_all_live(alloc: Global, out: &mut Vec<u8>, outputs: &[Output]) -> Result<(), OutOfMemory>
    ensures { OnOk result (out.new.items ≡ out.old.items ++ flat_map spec.live_line outputs.now) }
{
    for output in outputs {
        put_live(alloc, out, output)?;
    }
    Ok(())
}

fn put_all_paid(alloc: Global, out: &mut Vec<u8>, outputs: &[Output]) -> Result<(), OutOfMemory>
    ensures { OnOk result (out.new.items ≡ out.old.items ++ flat_map spec.paid_line outputs.now) }
{
    for output in outputs {
        put_paid(alloc, out, output)?;
    }
    Ok(())
}

#[tactic(auto, using(std::proofs::Common::append_assoc))]
fn put_past(alloc: Global, out: &mut Vec<u8>, course: &Course) -> Result<(), OutOfMemory>
    ensures { (messages : List (List ℕ)) → OnOk result (out.new.items ≡ out.old.items ++ spec.past_text (course_in messages course.now)) }
{
    put_events(alloc, out, &course.history)?;
    put_all_live(alloc, out, &course.standing.live)?;
    put_all_paid(alloc, out, &course.standing.made)
}

// The secrets of the precondition that are known.
fn put_secrets(
    alloc: Global,
    out: &mut Vec<u8>,
    pre: &[Pre],
    strings: &Strings,
) -> Result<(), OutOfMemory>
    ensures { OnOk result (out.new.items
        ≡ out.old.items ++ flat_map (λ name. spec.string_line name (string_for strings.now name)) (names_of (secrets pre.now))) }
{
    for entry in pre {
        if let Pre::Secret { name, .. } = entry {
            put_string(alloc, out, name, strings.string(name))?;
        }
    }
    Ok(())
}

// ---- what may come

/// A transaction that may come next, the wallets' witnesses that it counts on, and what is missing for it.
#[derive(Drop)]
pub(crate) struct Prospect {
    pub(crate) which: Which,
    pub(crate) unverified: Vec<Unverified>,
    pub(crate) requirements: Vec<Requirement>,
}

// What is missing for a transaction, and what it counts on.
fn prospect_of(
    alloc: Global,
    checked: &Checked,
    transactions: &[Transaction],
    wanted: &[Wanted],
    given: &Given,
    strings: &Strings,
    standing: &Standing,
    tip: u32,
    which: &Which,
) -> Result<Prospect, OutOfMemory>
    ensures { IfOk result (λ p. by.prospect_in p ≡ by.chance_of checked.now transactions.now (map missing.wanted_in wanted.now) given.now
        strings.now (state_in standing.now) tip which.now) }
{
    let requirements = outstanding(
        alloc,
        checked,
        transactions,
        wanted,
        given,
        strings,
        standing,
        tip,
        which,
    )?;
    let unverified = all_unverified(alloc, given, which, wanted)?;
    let which = which.copy(alloc)?;
    Ok(Prospect {
        which,
        unverified,
        requirements,
    })
}

// Each of these transactions.
fn prospects(
    alloc: Global,
    checked: &Checked,
    transactions: &[Transaction],
    wanted: &[Wanted],
    given: &Given,
    strings: &Strings,
    standing: &Standing,
    tip: u32,
    asked: &[Which],
) -> Result<Vec<Prospect>, OutOfMemory>
    ensures { IfOk result (λ v. map by.prospect_in v.items
        ≡ by.prospects_by checked.now transactions.now (map missing.wanted_in wanted.now) given.now strings.now (state_in standing.now) tip asked.now) }
{
    let mut all = Vec::new(alloc);
    for which in asked {
        let prospect = prospect_of(
            alloc,
            checked,
            transactions,
            wanted,
            given,
            strings,
            standing,
            tip,
            which,
        )?;
        all.push(prospect)?;
    }
    Ok(all)
}

fn put_prospects(
    alloc: Global,
    out: &mut Vec<u8>,
    prospects: &[Prospect],
) -> Result<(), OutOfMemory>
    ensures { OnOk result (out.new.items
        ≡ out.old.items ++ flat_map by.chance_text (map by.prospect_in prospects.now)) }
{
    for prospect in prospects {
        put_prospect(
            alloc,
            out,
            &prospect.which,
            &prospect.unverified,
            &prospect.requirements,
        )?;
    }
    Ok(())
}

// ---- on whom it waits

fn is_never(requirement: &Requirement) -> bool
    ensures { result ≡ required.is_never requirement.now }
{
    match requirement {
        Requirement::Height(_) => false,
        Requirement::Signature(_, _, _, _) => false,
        Requirement::Wallet(_, _, _, _, _) => false,
        Requirement::Deposit(_) => false,
        Requirement::Secret(_, _) => false,
        Requirement::DepositGone => true,
        Requirement::PredicateFalse => true,
    }
}

// Whether it is a signature or a secret of this party.
fn is_of(party: &Name, requirement: &Requirement) -> bool
    ensures { result ≡ required.is_of party.now requirement.now }
{
    match requirement {
        Requirement::Height(_) => false,
        Requirement::Signature(_, _, label, _) => *party_of(label) == *party,
        Requirement::Wallet(_, _, _, owner, _) => *owner == *party,
        Requirement::Deposit(_) => false,
        Requirement::Secret(_, holder) => *holder == *party,
        Requirement::DepositGone => false,
        Requirement::PredicateFalse => false,
    }
}

// Whether a transaction that these are missing for never comes.
fn is_hopeless(requirements: &[Requirement]) -> bool
    ensures { result ≡ list_any required.is_never requirements.now }
{
    for requirement in requirements {
        if is_never(requirement) {
            return true;
        }
    }
    false
}

// Whether one of these is a signature or a secret of this party.
fn has_any_of(party: &Name, requirements: &[Requirement]) -> bool
    ensures { result ≡ list_any (required.is_of party.now) requirements.now }
{
    for requirement in requirements {
        if is_of(party, requirement) {
            return true;
        }
    }
    false
}

// Whether a transaction that these are missing for, and that may still come, waits for the party.
fn waits_for(party: &Name, requirements: &[Requirement]) -> bool
    ensures { result ≡ required.waits_for party.now requirements.now }
{
    if is_hopeless(requirements) {
        return false;
    }
    has_any_of(party, requirements)
}

// Whether one of these transactions waits for the party.
fn is_awaited(party: &Name, prospects: &[Prospect]) -> bool
    ensures { result ≡ by.is_awaited_by (map by.prospect_in prospects.now) party.now }
{
    for prospect in prospects {
        if waits_for(party, &prospect.requirements) {
            return true;
        }
    }
    false
}

// A line, if one of these transactions waits for the party.
fn put_awaited(out: &mut Vec<u8>, party: &Name, prospects: &[Prospect]) -> Result<(), OutOfMemory>
    ensures { OnOk result (out.new.items ≡ out.old.items
        ++ by.waits_if (by.is_awaited_by (map by.prospect_in prospects.now) party.now) party.now) }
{
    if is_awaited(party, prospects) {
        return put_waits(out, party);
    }
    Ok(())
}

fn put_all_waits(
    out: &mut Vec<u8>,
    parties: &[Name],
    prospects: &[Prospect],
) -> Result<(), OutOfMemory>
    ensures { OnOk result (out.new.items ≡ out.old.items
        ++ flat_map spec.waits_line
        (filter (by.is_awaited_by (map by.prospect_in prospects.now)) parties.now)) }
{
    for party in parties {
        put_awaited(out, party, prospects)?;
    }
    Ok(())
}

// What may come, and on whom it waits.
#[tactic(auto, using(std::proofs::Common::append_assoc))]
fn put_future(
    alloc: Global,
    out: &mut Vec<u8>,
    parties: &[Name],
    prospects: &[Prospect],
) -> Result<(), OutOfMemory>
    ensures { OnOk result (out.new.items ≡ out.old.items ++ by.future_text parties.now (map by.prospect_in prospects.now)) }
{
    put_prospects(alloc, out, prospects)?;
    put_all_waits(out, parties, prospects)
}

// ---- all of it

// What has been, the secrets that are known, the tip, and what may come.
#[tactic(auto, using(std::proofs::Common::append_assoc))]
fn put_state(
    alloc: Global,
    out: &mut Vec<u8>,
    checked: &Checked,
    course: &Course,
    tip: u32,
    strings: &Strings,
    prospects: &[Prospect],
) -> Result<(), OutOfMemory>
    ensures { (messages : List (List ℕ)) → OnOk result (out.new.items ≡ out.old.items
        ++ by.state_by checked.now (participants checked.now) (course_in messages course.now) tip strings.now (map by.prospect_in prospects.now)) }
{
    put_past(alloc, out, course)?;
    put_secrets(alloc, out, &checked.advert().pre, strings)?;
    put_height(alloc, out, tip)?;
    put_future(alloc, out, checked.parties(), prospects)
}

// The same, by its transactions.
fn text_by(
    alloc: Global,
    checked: &Checked,
    transactions: &[Transaction],
    course: &Course,
    tip: u32,
    given: &Given,
    strings: &Strings,
) -> Result<Vec<u8>, OutOfMemory>
    requires { list_all (λ p. has_length p.1) course.now.standing.shown.items ≡ true }
    ensures { (messages : List (List ℕ)) → IfOk result (λ text. text.items
        ≡ by.text_by checked.now transactions.now (course_in messages course.now) tip given.now strings.now) }
{
    let standing = &course.standing;
    let all = known(alloc, &standing.shown, strings)?;
    let asked = asked(alloc, checked, standing)?;
    let wanted = all_requirements(alloc, transactions)?;
    let prospects = prospects(
        alloc,
        checked,
        transactions,
        &wanted,
        given,
        &all,
        standing,
        tip,
        &asked,
    )?;
    let mut out = Vec::new(alloc);
    put_state(alloc, &mut out, checked, course, tip, &all, &prospects)?;
    Ok(out)
}

/// Where a deal stands after a chain of this tip: what has been, as steps of the calculus, its live positions and its payouts; the secrets
/// that are known, by the chain or by those that are given; and for each transaction that may come next whether it can, or what is missing
/// and on whom it waits, by the signatures that are given.
pub fn state_text(
    alloc: Global,
    checked: &Checked,
    transactions: &[Transaction],
    course: &Course,
    tip: u32,
    given: &Given,
    strings: &Strings,
) -> Result<Vec<u8>, OutOfMemory>
    requires { list_all (λ p. has_length p.1) course.now.standing.shown.items ≡ true }
    ensures { (hash : List ℕ → List ℕ) (keys : Keys) (s : Instance) (messages : List (List ℕ)) → s.advert ≡ checked.now
        → transactions.now ≡ transactions_of hash keys s
        → IfOk result (λ text. text.items ≡ spec.state_text hash keys s (course_in messages course.now) tip given.now strings.now) }
{
    text_by(alloc, checked, transactions, course, tip, given, strings)
}
