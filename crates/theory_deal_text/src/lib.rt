//! Theorems on the texts of the commands on deals: they read back as all that they tell. Each is the contract of a
//! function that does nothing.
#![tactic(auto)]

ghost use Rattle.theory_deal_text.specs.Filled.{FilledKeysAreTaken};
ghost use Rattle.theory_deal_text.specs.Statements.{DealTextsAreRead};

use theory_script::any_keys::paths_in_order;

/// What `keys`, `plan`, `psbt`, `missing` and `held` print of files that are taken is read as what the contract needs, as
/// the plan, as the transactions for signers, and as the signatures that aren't there and those that are: none can be
/// left out of the text.
pub fn deal_texts_are_read()
    ensures { DealTextsAreRead }
{}

/// The text of `keys` with its blanks filled in, each label's by a key that is a point, each deposit's by a place, each
/// secret's by a hash, none of them twice, is a deal file that is taken, and gives just these.
pub fn filled_keys_are_taken()
    ensures { FilledKeysAreTaken }
{
    paths_in_order();
}
