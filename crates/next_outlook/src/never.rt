//! What nothing gives.

ghost use Rattle.std.specs.Prelude.{◌≡◌, ◌++◌, filter, IfOk, OnOk};
ghost use Rattle.spec_next.specs.Prospects as spec;

use next_events::{is_any_never, is_never};
use spec_data::{OutOfMemory, Seq};
use spec_next::Requirement;
use spec_run::Reason;
use std::alloc::Global;

// Those of these that nothing gives.
fn never_of(alloc: Global, requirements: &[Requirement]) -> Result<Seq<Requirement>, OutOfMemory>
    ensures { IfOk result (λ list. list ≡ filter spec.is_never requirements.now) }
{
    let mut list = Seq::new(alloc);
    for requirement in requirements {
        if is_never(requirement) {
            list.push(requirement.copy())?;
        }
    }
    Ok(list)
}

/// These, or where nothing gives one of them, those that nothing gives.
pub(crate) fn decisive(
    alloc: Global,
    requirements: Seq<Requirement>,
) -> Result<Seq<Requirement>, OutOfMemory>
    ensures { IfOk result (λ list. list ≡ spec.decisive requirements) }
{
    if is_any_never(requirements.as_slice()) {
        return never_of(alloc, requirements.as_slice());
    }
    Ok(requirements)
}

/// Adds what stays so of a refusal.
#[tactic(auto, using(next_events::proofs::Unmet::nothing_more))]
pub(crate) fn put_lasting(
    requirements: &mut Seq<Requirement>,
    reason: &Reason,
) -> Result<(), OutOfMemory>
    ensures { OnOk result (requirements.new ≡ requirements.old ++ spec.lasting reason.now) }
{
    match reason {
        Reason::NoHonest => requirements.push(Requirement::NobodyHonest),
        Reason::NoSecret(secret) => requirements.push(Requirement::Missing(*secret)),
        Reason::BadSecretLength(secret) => requirements.push(Requirement::BadLength(*secret)),
        Reason::HashRepeated(secret) => requirements.push(Requirement::Repeated(*secret)),
        _ => Ok(()),
    }
}
