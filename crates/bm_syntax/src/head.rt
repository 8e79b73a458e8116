//! What stands at the head of a branch.

ghost use Rattle.std.specs.Prelude.{◌≡◌};
ghost use Rattle.bm_syntax.specs.View.{guarded};
ghost use Rattle.spec_terms.specs.Core as spec;

use crate::term::Guarded;
use spec_data::Name;

/// What stands under all `Auth` and `After`.
pub fn core(branch: &Guarded) -> &Guarded
    ensures { guarded result.now ≡ spec.core (guarded branch.now) }
{
    match branch {
        Guarded::Auth { body, .. } => core(body),
        Guarded::After { body, .. } => core(body),
        _ => branch,
    }
}

/// Whether the party stands in an `Auth` above the core.
pub fn asks(branch: &Guarded, party: &Name) -> bool
    ensures { result ≡ spec.is_asked (guarded branch.now) party.now }
{
    match branch {
        Guarded::Auth { party: asked, body } => *asked == *party || asks(body, party),
        Guarded::After { body, .. } => asks(body, party),
        _ => false,
    }
}

/// The greatest height of an `After` above the core, 0 without one.
pub fn lock(branch: &Guarded) -> u32
    ensures { result ≡ spec.lock (guarded branch.now) }
{
    match branch {
        Guarded::Auth { body, .. } => lock(body),
        Guarded::After { height, body } => lock(body).max(*height),
        _ => 0,
    }
}

/// The names of the deposits that a branch puts.
pub fn puts(branch: &Guarded) -> &[Name]
    ensures { result.now ≡ spec.puts_of (spec.core (guarded branch.now)) }
{
    match core(branch) {
        Guarded::PutReveal { puts, .. } => puts,
        _ => &[],
    }
}

/// The names of the secrets that a branch reveals.
pub fn reveals(branch: &Guarded) -> &[Name]
    ensures { result.now ≡ spec.reveals_of (spec.core (guarded branch.now)) }
{
    match core(branch) {
        Guarded::PutReveal { reveals, .. } => reveals,
        _ => &[],
    }
}
