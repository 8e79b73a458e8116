//! Who is to give what is missing.

ghost use Rattle.std.specs.Prelude.{◌≡◌, option_map};
ghost use Rattle.spec_next.specs.Prospects as spec;

use spec_data::Name;
use spec_next::Requirement;

/// The party that is to give what is missing.
pub fn awaited(requirement: &Requirement) -> Option<&Name>
    ensures { option_map (λ n. n.now) result ≡ spec.awaited requirement.now }
{
    match requirement {
        Requirement::Digest { party, .. } => Some(party),
        Requirement::Commitment { party, .. } => Some(party),
        Requirement::Endorsement { party, .. } => Some(party),
        Requirement::Start { party, .. } => Some(party),
        Requirement::Authorisation { party, .. } => Some(party),
        Requirement::Secret { party, .. } => Some(party),
        Requirement::Posted { party, .. } => Some(party),
        _ => None,
    }
}
