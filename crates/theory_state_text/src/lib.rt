//! What the text of `state` is besides what it shows: a file of secrets. The theorem is the contract of a function that
//! calls one that does nothing.
#![tactic(auto)]

ghost use Rattle.theory_state_text.specs.Secrets.{StateTellsSecrets};

use theory_deal::secret_files_are_read;
use theory_state::state_answers;

/// Where the status of `state` is 0, its text is read as a file of secrets that gives each secret the string that is known of
/// it and nothing else, whatever was hashed before; so is each text with the same lines of secrets. No line is refused.
pub fn state_tells_secrets()
    ensures { StateTellsSecrets }
{
    state_answers();
    secret_files_are_read();
}
