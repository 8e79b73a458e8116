//! Whose keys of their deposits a deal uses.

ghost use Rattle.std.specs.Prelude.{◌≡◌, filter, is_some, IfOk};
ghost use Rattle.spec_data.specs.Lists.{look_up};
ghost use Rattle.spec_terms.specs.Parties.{participants};
ghost use Rattle.spec_terms.specs.Precondition.{names_of};
ghost use Rattle.spec_deal.specs.Setting.{deal_keys, own_scripts};
ghost use Rattle.spec_deal.specs.Used as spec;
ghost use Rattle.spec_deal.specs.Used.{choice_paid};
ghost use Rattle.deal_file.specs.Building as building;

use bm_wellformed::Checked;
use deal_payees::{all_paid, brought_names, uses_key};
use spec_bitcoin::Label;
use spec_data::{Bytes, Name, OutOfMemory};
use spec_deal::{Deal, Needed};
use std::alloc::Global;

// Whether a name has a script.
fn has_script(scripts: &[(Name, Bytes)], name: &Name) -> bool
    ensures { result ≡ is_some (look_up name.now scripts.now) }
{
    for (other, _) in scripts {
        if other == name {
            return true;
        }
    }
    false
}

// Whether the script of a party's key of its deposits stands in an output.
fn is_user(checked: &Checked, paid: &[Name], brought: &[Name], deal: &Deal, party: &Name) -> bool
    requires paid { paid.now ≡ choice_paid checked.now.root }
    requires brought { brought.now ≡ names_of deal.now.wallets }
    ensures { result ≡ spec.uses_key (deal_keys deal.now) checked.now party.now }
{
    let has_payee = has_script(deal.payees.as_slice(), party);
    uses_key(checked, paid, brought, has_payee, party)
}

/// Whether a deal with the scripts of these wallets uses it. `paid` are the parties whom the contract pays, `brought` the deposits that
/// wallets bring.
pub(crate) fn is_used(
    checked: &Checked,
    paid: &[Name],
    brought: &[Name],
    deal: &Deal,
    needed: &Needed,
) -> bool
    requires paid { paid.now ≡ choice_paid checked.now.root }
    requires brought { brought.now ≡ names_of deal.now.wallets }
    ensures { result ≡ building.is_used_by (own_scripts deal.now) checked.now needed.now }
{
    match needed {
        Needed::Key(Label::Deposit { party }) => is_user(checked, paid, brought, deal, party),
        _ => true,
    }
}

// The parties among these whose keys are used.
fn users_among(
    alloc: Global,
    checked: &Checked,
    paid: &[Name],
    brought: &[Name],
    deal: &Deal,
    parties: &[Name],
) -> Result<Vec<Name>, OutOfMemory>
    requires paid { paid.now ≡ choice_paid checked.now.root }
    requires brought { brought.now ≡ names_of deal.now.wallets }
    ensures { IfOk result (λ users. users.items ≡ filter (spec.uses_key (deal_keys deal.now) checked.now) parties.now) }
{
    let mut users = Vec::new(alloc);
    for party in parties {
        if is_user(checked, paid, brought, deal, party) {
            users.push(*party)?;
        }
    }
    Ok(users)
}

/// The participants whose keys a deal uses.
pub(crate) fn key_users(
    alloc: Global,
    checked: &Checked,
    deal: &Deal,
) -> Result<Vec<Name>, OutOfMemory>
    ensures { IfOk result (λ users. users.items
        ≡ filter (spec.uses_key (deal_keys deal.now) checked.now) (participants checked.now)) }
{
    let paid = all_paid(alloc, checked)?;
    let brought = brought_names(alloc, deal.wallets.as_slice())?;
    users_among(alloc, checked, &paid, &brought, deal, checked.parties())
}
