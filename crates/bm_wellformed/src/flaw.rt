//! What a position or a branch may show.

ghost use Rattle.std.specs.Prelude.{◌≡◌, ◌≤◌, ◌<◌, ◌^◌, pos, neg_ℤ, ◌≤ℤ◌, not, length};
ghost use Rattle.spec_terms.specs.Core.{core as core_of, puts_of, reveals_of, test_of};
ghost use Rattle.spec_terms.specs.Term.{parts_list};
ghost use Rattle.spec_terms.specs.Paths.{position, at_branch};
ghost use Rattle.spec_terms.specs.Faults as spec;
ghost use Rattle.bm_syntax.specs.View.{guarded, contract, parts_view};
ghost use Rattle.bm_wellformed.specs.Small.{AreSmall, IsSmall, IsBalance};
ghost use Rattle.bm_wellformed.specs.Search.{passes, core_passes};

use crate::entries::{are_secrets, are_volatile};
use crate::names::{are_different, lengths_are_among};
use bm_pred::{ScriptSize, cost, is_bounded};
use bm_syntax::{Advert, Contract, Guarded, Part, core};
use spec_data::MAX_MONEY;

/// A fault, or a limit that is exceeded, that stands at a position or a branch.
#[derive(Clone, Copy)]
pub enum Flaw {
    UnknownDeposit,
    UnknownSecret,
    PrefixRepeated,
    PredicateSecret,
    SplitSum,
    FeeShort,
    Balance,
    Expression,
    Script { parties: u32 },
}

/// Whether the position shows the flaw.
pub fn position_shows(advert: &Advert, flaw: Flaw, balance: i128, choice: &Contract) -> bool
    ensures { result ≡ passes flaw advert.now balance (position (contract choice.now)) }
{
    match flaw {
        Flaw::FeeShort => balance < 0,
        Flaw::Balance => i128::from(MAX_MONEY) < balance,
        Flaw::Script { parties } => is_too_large(choice, parties),
        Flaw::UnknownDeposit => false,
        Flaw::UnknownSecret => false,
        Flaw::PrefixRepeated => false,
        Flaw::PredicateSecret => false,
        Flaw::SplitSum => false,
        Flaw::Expression => false,
    }
}

/// Whether the branch of a position with this balance shows the flaw.
#[tactic(auto, using(crate::proofs::Found::passes_core, crate::proofs::Smallness::small_core))]
pub fn branch_shows(advert: &Advert, flaw: Flaw, balance: i128, branch: &Guarded) -> bool
    requires { IsSmall (guarded branch.now) }
    ensures { result ≡ passes flaw advert.now balance (at_branch (guarded branch.now)) }
{
    core_shows(advert, flaw, balance, core(branch))
}

// Whether a branch of this core shows the flaw.
fn core_shows(advert: &Advert, flaw: Flaw, balance: i128, branch: &Guarded) -> bool
    requires { IsSmall (guarded branch.now) }
    ensures { result ≡ core_passes flaw advert.now balance (guarded branch.now) }
{
    match flaw {
        Flaw::UnknownDeposit => puts_unknown(advert, branch),
        Flaw::UnknownSecret => reveals_unknown(advert, branch),
        Flaw::PrefixRepeated => repeats(branch),
        Flaw::PredicateSecret => tests_hidden(branch),
        Flaw::SplitSum => is_uneven(advert.fee, balance, branch),
        Flaw::FeeShort => is_withdraw(branch) && balance < i128::from(advert.fee),
        Flaw::Expression => is_unbounded(branch),
        Flaw::Balance => false,
        Flaw::Script { .. } => false,
    }
}

fn puts_unknown(advert: &Advert, branch: &Guarded) -> bool
    ensures { result ≡ spec.puts_unknown advert.now.pre (guarded branch.now) }
{
    match branch {
        Guarded::PutReveal { puts, .. } => !are_volatile(&advert.pre, puts),
        _ => false,
    }
}

fn reveals_unknown(advert: &Advert, branch: &Guarded) -> bool
    ensures { result ≡ spec.reveals_unknown advert.now.pre (guarded branch.now) }
{
    match branch {
        Guarded::PutReveal { reveals, .. } => !are_secrets(&advert.pre, reveals),
        _ => false,
    }
}

fn repeats(branch: &Guarded) -> bool
    ensures { result ≡ spec.repeats (guarded branch.now) }
{
    match branch {
        Guarded::PutReveal { puts, reveals, .. } => {
            let puts_differ = are_different(puts);
            let reveals_differ = are_different(reveals);
            !(puts_differ && reveals_differ)
        }
        _ => false,
    }
}

fn tests_hidden(branch: &Guarded) -> bool
    ensures { result ≡ spec.tests_hidden (guarded branch.now) }
{
    match branch {
        Guarded::PutReveal { reveals, test, .. } => !lengths_are_among(test, reveals),
        _ => false,
    }
}

fn is_unbounded(branch: &Guarded) -> bool
    ensures { result ≡ spec.is_unbounded (guarded branch.now) }
{
    match branch {
        Guarded::PutReveal { test, .. } => !is_bounded(test),
        _ => false,
    }
}

fn is_withdraw(branch: &Guarded) -> bool
    ensures { result ≡ spec.is_withdraw (guarded branch.now) }
{
    match branch {
        Guarded::Withdraw { .. } => true,
        _ => false,
    }
}

fn is_uneven(fee: u64, balance: i128, branch: &Guarded) -> bool
    requires { IsSmall (guarded branch.now) }
    ensures { result ≡ spec.is_uneven fee balance (guarded branch.now) }
{
    match branch {
        Guarded::Split { parts } => sum_of_parts(parts) + i128::from(fee) != balance,
        _ => false,
    }
}

#[tactic(auto, using(crate::proofs::Smallness::length_parts))]
fn sum_of_parts(parts: &[Part]) -> i128
    requires { length (parts_list (parts_view parts.now)) ≤ 64 }
    ensures exact { result ≡ pos (spec.sum_of_parts (parts_view parts.now)) }
    ensures high { result ≤ℤ pos (2 ^ 71) }
{
    let mut sum: i128 = 0;
    for part in parts {
        sum += i128::from(part.value);
    }
    sum
}

// Whether the script of the position, among so many participants, is too large.
#[tactic(auto, using(crate::proofs::Scripts::fits_held))]
fn is_too_large(choice: &Contract, parties: u32) -> bool
    ensures { result ≡ spec.is_too_large parties (contract choice.now) }
{
    !fits_a_script(cost(choice, parties))
}

fn fits_a_script(size: ScriptSize) -> bool
    ensures { result ≡ spec.fits_a_script size }
{
    size.bytes <= 10_000 && size.operations <= 201
}
