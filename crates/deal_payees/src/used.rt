//! Whose keys of their deposits a deal uses. `brought` are everywhere the names of the deposits that wallets bring, with scripts
//! of their own.

ghost use Rattle.std.specs.Prelude.{◌≡◌, is_some, IfOk};
ghost use Rattle.std.specs.List.{list_any};
ghost use Rattle.spec_terms.specs.Precondition.{holding, deposits, names_of};
ghost use Rattle.spec_compiler.specs.Keyed.Keys.{Keys, own_payee};
ghost use Rattle.spec_deal.specs.Used as spec;
ghost use Rattle.deal_payees.specs.Brought.{AreBrought, is_left};

use crate::withdraws::is_paid;
use bm_wellformed::Checked;
use spec_data::{Bytes, Name, OutOfMemory};
use spec_terms::Pre;
use std::alloc::Global;

/// The names of the deposits that wallets bring.
pub fn brought_names(alloc: Global, wallets: &[(Name, Bytes)]) -> Result<Vec<Name>, OutOfMemory>
    ensures { IfOk result (λ names. names.items ≡ names_of wallets.now) }
{
    let mut names = Vec::new(alloc);
    for (name, _script) in wallets {
        names.push(*name)?;
    }
    Ok(names)
}

// Whether a deposit of this name is the party's, and has the script of its key.
fn is_left(brought: &[Name], name: &Name, owner: &Name, value: u64, party: &Name) -> bool
    ensures { result ≡ is_left brought.now party.now (name.now, holding owner.now value) }
{
    *owner == *party && !brought.contains(name)
}

// Whether one of these entries is such a deposit.
fn is_any_left(pre: &[Pre], brought: &[Name], party: &Name) -> bool
    ensures { result ≡ list_any (is_left brought.now party.now) (deposits pre.now) }
{
    for entry in pre {
        match entry {
            Pre::Persistent {
                party: owner,
                value,
                name,
            } => {
                if is_left(brought, name, owner, *value, party) {
                    return true;
                }
            }
            Pre::Volatile {
                party: owner,
                value,
                name,
            } => {
                if is_left(brought, name, owner, *value, party) {
                    return true;
                }
            }
            Pre::Secret { .. } => {}
        }
    }
    false
}

/// Whether a deposit of a precondition has the script of the party's key.
pub fn has_deposit(pre: &[Pre], brought: &[Name], party: &Name) -> bool
    ensures { (keys : Keys) → AreBrought keys brought.now
        → result ≡ list_any (spec.is_key_deposit keys party.now) (deposits pre.now) }
{
    is_any_left(pre, brought, party)
}

/// Whether the script of the party's key of its deposits stands in an output: of its deposits, or of what it is paid. `paid` are
/// the parties of all withdraws; `has_payee` says whether the party gave a script where it is paid.
pub fn uses_key(
    checked: &Checked,
    paid: &[Name],
    brought: &[Name],
    has_payee: bool,
    party: &Name,
) -> bool
    requires { paid.now ≡ spec.choice_paid checked.now.root }
    ensures { (keys : Keys) → AreBrought keys brought.now → has_payee ≡ is_some (own_payee keys party.now)
        → result ≡ spec.uses_key keys checked.now party.now }
{
    if has_deposit(&checked.advert().pre, brought, party) {
        return true;
    }
    is_paid(paid, party) && !has_payee
}
