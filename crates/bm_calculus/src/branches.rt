//! Active contracts and their branches.

ghost use Rattle.std.specs.Prelude.{◌≡◌, ◌^◌, ◌<◌, ◌+◌, ◌-◌, ◌++◌, ◌∷◌, [], Some, length, option_map, is_some, IfOk, unwrap_or};
ghost use Rattle.spec_terms.specs.Core.{asks as asks_in, puts_of as puts_in, reveals_of as reveals_in};
ghost use Rattle.spec_calculus.specs.Branches as spec;
ghost use Rattle.bm_syntax.specs.View.{guarded, parts_view};

use bm_syntax::{Guarded, Part, branch_at, longer};
use bm_wellformed::Checked;
use spec_calculus::{ActiveContract, BranchAuthorisation};
use spec_data::{Name, OutOfMemory};
use spec_terms::{Path, PathStep};
use std::alloc::Global;

/// The branch of this number at a position of a contract.
pub fn branch_in<'a>(checked: &'a Checked, position: &Path, branch: u32) -> Option<&'a Guarded>
    ensures { option_map (λ b. guarded b.now) result ≡ spec.branch_in (Some checked.now) position.now branch }
{
    branch_at(&checked.advert().root, position, branch)
}

/// Whether the party has authorised the branch.
pub fn has_branch_authorised(
    authorised: &[BranchAuthorisation],
    output: u32,
    branch: u32,
    party: &Name,
) -> bool
    ensures { result ≡ spec.has_branch_authorised authorised.now output branch party.now }
{
    authorised.iter().any(|a| a.party == *party && a.output == output && a.branch == branch)
}

/// Whether all whom the branch asks have authorised it.
pub fn have_branch_authorised(
    authorised: &[BranchAuthorisation],
    output: u32,
    branch: u32,
    taken: &Guarded,
) -> bool
    ensures { result ≡ spec.have_branch_authorised authorised.now output branch (asks_in (guarded taken.now)) }
{
    match taken {
        Guarded::Auth { party, body } => {
            has_branch_authorised(authorised, output, branch, party)
                && have_branch_authorised(authorised, output, branch, body)
        }
        Guarded::After { body, .. } => have_branch_authorised(authorised, output, branch, body),
        _ => true,
    }
}

/// Whether a core puts deposits in or reveals secrets.
pub fn is_put(core: &Guarded) -> bool
    ensures { result ≡ spec.is_put_core (guarded core.now) }
{
    matches!(core, Guarded::PutReveal { .. })
}

/// Whether a core pays a party.
pub fn is_withdraw(core: &Guarded) -> bool
    ensures { result ≡ spec.is_withdraw_core (guarded core.now) }
{
    matches!(core, Guarded::Withdraw { .. })
}

/// Whether a core divides the balance.
pub fn is_split(core: &Guarded) -> bool
    ensures { result ≡ spec.is_split_core (guarded core.now) }
{
    matches!(core, Guarded::Split { .. })
}

/// The names of the deposits that a core puts in.
pub fn puts(core: &Guarded) -> &[Name]
    ensures { result.now ≡ puts_in (guarded core.now) }
{
    match core {
        Guarded::PutReveal { puts, .. } => puts,
        _ => &[],
    }
}

/// The names of the secrets that a core reveals.
pub fn reveals(core: &Guarded) -> &[Name]
    ensures { result.now ≡ reveals_in (guarded core.now) }
{
    match core {
        Guarded::PutReveal { reveals, .. } => reveals,
        _ => &[],
    }
}

/// The party that a core pays.
pub fn payee(core: &Guarded) -> Option<Name>
    ensures value { unwrap_or result [] ≡ spec.payee_in (guarded core.now) }
    ensures some { is_some result ≡ spec.is_withdraw_core (guarded core.now) }
{
    match core {
        Guarded::Withdraw { party } => Some(*party),
        _ => None,
    }
}

/// The parts that a core divides the balance into.
pub fn parts(core: &Guarded) -> &[Part]
    ensures { spec.part_values (parts_view result.now) ≡ spec.values_in (guarded core.now) }
{
    match core {
        Guarded::Split { parts } => parts,
        _ => &[],
    }
}

/// What is left of a sum after the fee.
pub fn left(sum: u64, fee: u64) -> u64
    ensures { result ≡ sum - fee }
{
    sum.saturating_sub(fee)
}

/// An active contract for each part of a split at this path, named in order.
pub fn parts_made(
    alloc: Global,
    next: u32,
    contract: u32,
    path: &Path,
    parts: &[Part],
) -> Result<Vec<ActiveContract>, OutOfMemory>
    requires { next + length parts.now < 2 ^ 32 }
    ensures { IfOk result (λ v. v.items ≡ spec.parts_made next contract path.now 0 (spec.part_values (parts_view parts.now))) }
{
    let mut made = Vec::new(alloc);
    let mut k = 0;
    for part in parts {
        made.push(ActiveContract {
            number: next + k,
            contract,
            position: longer(alloc, path, PathStep::Part(k))?,
            balance: part.value,
        })?;
        k += 1;
    }
    Ok(made)
}
