//! Where the deposits of a contract lie.

ghost use Rattle.std.specs.Prelude.{◌≡◌, ◌∷◌, [], is_some};
ghost use Rattle.std.specs.List.{list_all};
ghost use Rattle.spec_data.specs.Lists.{look_up};
ghost use Rattle.spec_terms.specs.Precondition.{deposits};

use bm_syntax::{Name, Pre};
use spec_bitcoin::OutPoint;

/// Where the deposit of this name lies, where it is bound.
pub(crate) fn bound_to(bound: &[(Name, OutPoint)], name: &Name) -> Option<OutPoint>
    ensures { result ≡ look_up name.now bound.now }
{
    for (known, outpoint) in bound {
        if *known == *name {
            return Some(*outpoint);
        }
    }
    None
}

// Whether the entry is bound, where it is a deposit.
fn is_bound(entry: &Pre, bound: &[(Name, OutPoint)]) -> bool
    ensures { result ≡ list_all (λ d. is_some (look_up d.0 bound.now)) (deposits (entry.now ∷ [])) }
{
    match entry {
        Pre::Persistent { name, .. } => bound_to(bound, name).is_some(),
        Pre::Volatile { name, .. } => bound_to(bound, name).is_some(),
        Pre::Secret { .. } => true,
    }
}

/// Whether each deposit of the precondition is bound.
pub fn are_bound(pre: &[Pre], bound: &[(Name, OutPoint)]) -> bool
    ensures { result ≡ list_all (λ d. is_some (look_up d.0 bound.now)) (deposits pre.now) }
{
    for entry in pre {
        if !is_bound(entry, bound) {
            return false;
        }
    }
    true
}
