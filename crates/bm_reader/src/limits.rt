//! Why reading stops where a branch or a part here is one too many.

ghost use Rattle.std.specs.Prelude.{◌≡◌};
ghost use Rattle.spec_text.specs.Reading.{too_many};
ghost use Rattle.spec_text.specs.ReadContract.{begins_branch, branch_limit as limit_of_branch, a_value};

use bm_syntax::Limit;
use spec_data::MAX_MONEY;
use spec_text::{Keyword, Lexeme, Stop};

/// Why reading stops, where a part here is one too many.
pub fn too_many_parts(lexemes: &[Lexeme]) -> Stop
    ensures { result ≡ too_many Limit.Split a_value lexemes.now }
{
    match lexemes {
        [Lexeme::Number(number), ..] if *number <= MAX_MONEY => {
            Stop::Limit(Limit::Split, lexemes.len())
        }
        [Lexeme::Number(_) | Lexeme::HugeNumber, ..] => Stop::Limit(Limit::Number, lexemes.len()),
        _ => Stop::Syntax(lexemes.len()),
    }
}

/// Why reading stops, where a branch here is above the limit.
pub fn too_many_branches(limit: Limit, lexemes: &[Lexeme]) -> Stop
    ensures { result ≡ too_many limit begins_branch lexemes.now }
{
    match lexemes {
        [Lexeme::Name(_), ..] => Stop::Limit(limit, lexemes.len()),
        [Lexeme::LongName, ..] => Stop::Limit(Limit::Name, lexemes.len()),
        [
            Lexeme::Keyword(Keyword::After | Keyword::Put | Keyword::Reveal),
            ..
        ] => { Stop::Limit(limit, lexemes.len()) }
        [Lexeme::Keyword(Keyword::Withdraw | Keyword::Split), ..] => {
            Stop::Limit(limit, lexemes.len())
        }
        _ => Stop::Syntax(lexemes.len()),
    }
}

/// The limit that a branch here is above, by how many guarded terms, branches of the contract and branches
/// of this choice may still come.
pub fn branch_limit(depth: u32, budget: u32, more: u32) -> Option<Limit>
    ensures { result ≡ limit_of_branch depth budget more }
{
    if depth == 0 {
        return Some(Limit::Depth);
    }
    if budget == 0 {
        return Some(Limit::Branches);
    }
    if more == 0 {
        return Some(Limit::Choice);
    }
    None
}
