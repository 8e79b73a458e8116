//! Events that never come.

ghost use Rattle.std.specs.Prelude.{◌≡◌};
ghost use Rattle.std.specs.List.{list_any};
ghost use Rattle.spec_next.specs.Prospects as spec;

use spec_next::{Prospect, Requirement, Ruling};

/// Whether nothing gives it.
pub fn is_never(requirement: &Requirement) -> bool
    ensures { result ≡ spec.is_never requirement.now }
{
    match requirement {
        Requirement::Gone(_) => true,
        Requirement::NobodyHonest => true,
        Requirement::Missing(_) => true,
        Requirement::BadLength(_) => true,
        Requirement::Repeated(_) => true,
        Requirement::Put(_) => true,
        Requirement::Predicate => true,
        _ => false,
    }
}

/// Whether nothing gives one of these.
pub fn is_any_never(requirements: &[Requirement]) -> bool
    ensures { result ≡ list_any spec.is_never requirements.now }
{
    requirements.iter().any(|requirement| is_never(requirement))
}

/// Whether the event never comes.
pub fn is_lost(prospect: &Prospect) -> bool
    ensures { result ≡ spec.is_lost prospect.now }
{
    is_any_never(prospect.requirements.as_slice())
}

/// Whether it is a refusal.
pub fn is_refused(ruling: &Ruling) -> bool
    ensures { result ≡ spec.is_refused ruling.now }
{
    match ruling {
        Ruling::Can => false,
        Ruling::Cannot(_) => true,
        Ruling::Halts => false,
    }
}
