//! The call that words are, and the files that it reads.

ghost use Rattle.std.specs.Prelude.{◌≡◌, ◌∷◌, codes, map, string_bytes, option_map, IfOk};
ghost use Rattle.std.specs.Str.{bytes_eq};
ghost use Rattle.spec_next.specs.NextAnswer.{continued, continued_for, continued_in, form_of, next_files, next_words, party_of};
ghost use Rattle.tool_shell.specs.Asked.{asked};
ghost use Rattle.bitml_next.specs.Told.{seen, HasFew};

use spec_data::{MOST_TEXT_BYTES, OutOfMemory};
use spec_next::Form;
use std::alloc::Global;
use tool_command::{MOST_CONTRACTS, run_files};

/// What words ask for; files go by the words that name them.
#[derive(Drop)]
pub(crate) enum NextCall<'a> {
    /// The first lines of a run of a contract.
    Begins(&'a str),
    /// What comes next after a run with its contracts, in this form, for all or for one party.
    Continues(Form, Option<&'a str>, &'a str, &'a [String]),
}

// A run and its contracts, of which there are at most 16.
fn continuing<'a>(
    form: Form,
    party: Option<&'a str>,
    run: &'a String,
    contracts: &'a [String],
) -> Option<NextCall<'a>>
    ensures call { option_map seen result
        ≡ continued form (option_map (λ p. p.now) party.entry) (string_bytes run.now) (map string_bytes contracts.now) }
    ensures few { HasFew (option_map seen result) }
{
    if contracts.len() > MOST_CONTRACTS {
        return None;
    }
    Some(NextCall::Continues(form, party, run.as_str(), contracts))
}

// The same behind a party.
fn continuing_for<'a>(form: Form, party: &'a String, words: &'a [String]) -> Option<NextCall<'a>>
    ensures call { option_map seen result ≡ continued_for form (string_bytes party.now) (map string_bytes words.now) }
    ensures few { HasFew (option_map seen result) }
{
    match words {
        [] => None,
        [_] => None,
        [run, contracts @ ..] => continuing(form, Some(party.as_str()), run, contracts),
    }
}

// Whether the word asks for one party.
fn is_for(word: &String) -> bool
    ensures { result ≡ bytes_eq (string_bytes word.now) (codes "--for") }
{
    word.as_str() == "--for"
}

// Whether the word asks for JSON.
fn is_json(word: &String) -> bool
    ensures { result ≡ bytes_eq (string_bytes word.now) (codes "--json") }
{
    word.as_str() == "--json"
}

// The call in this form that two words and more are; the others are those behind the first.
fn several_in<'a>(
    form: Form,
    first: &'a String,
    second: &'a String,
    words: &'a [String],
    others: &'a [String],
) -> Option<NextCall<'a>>
    requires { others.now ≡ second.now ∷ words.now }
    ensures call { option_map seen result
        ≡ continued_in form (string_bytes first.now) (string_bytes second.now ∷ map string_bytes words.now) }
    ensures few { HasFew (option_map seen result) }
{
    if is_for(first) {
        return continuing_for(form, second, words);
    }
    continuing(form, None, first, others)
}

// The call in this form that a word and others are.
fn behind_in<'a>(form: Form, first: &'a String, others: &'a [String]) -> Option<NextCall<'a>>
    ensures call { option_map seen result ≡ continued_in form (string_bytes first.now) (map string_bytes others.now) }
    ensures few { HasFew (option_map seen result) }
{
    match others {
        [] => None,
        [second, words @ ..] => several_in(form, first, second, words, others),
    }
}

// The call that two words and more are; the others are those behind the first.
fn several<'a>(
    first: &'a String,
    second: &'a String,
    words: &'a [String],
    others: &'a [String],
) -> Option<NextCall<'a>>
    requires { others.now ≡ second.now ∷ words.now }
    ensures call { option_map seen result
        ≡ next_words (string_bytes first.now ∷ string_bytes second.now ∷ map string_bytes words.now) }
    ensures few { HasFew (option_map seen result) }
{
    if is_json(first) {
        return behind_in(Form::Json, second, words);
    }
    several_in(Form::Lines, first, second, words, others)
}

// The call that a word and others are.
fn behind<'a>(first: &'a String, others: &'a [String]) -> Option<NextCall<'a>>
    ensures call { option_map seen result ≡ next_words (string_bytes first.now ∷ map string_bytes others.now) }
    ensures few { HasFew (option_map seen result) }
{
    match others {
        [] => Some(NextCall::Begins(first.as_str())),
        [second, words @ ..] => several(first, second, words, others),
    }
}

/// The call that the words are, if they are one: a contract, or a run and up to 16 contracts, which may stand behind `--json`,
/// behind `--for` and a party, or behind both in this order.
pub(crate) fn call_of(words: &[String]) -> Option<NextCall<'_>>
    ensures call { option_map seen result ≡ next_words (map string_bytes words.now) }
    ensures few { HasFew (option_map seen result) }
{
    match words {
        [] => None,
        [first, others @ ..] => behind(first, others),
    }
}

/// The form that the call asks for.
pub(crate) fn form_in(call: &NextCall<'_>) -> Form
    ensures { result ≡ form_of (seen call.now) }
{
    match call {
        NextCall::Begins(_) => Form::Lines,
        NextCall::Continues(form, _, _, _) => *form,
    }
}

/// The party for which the call asks, if it does for one.
pub(crate) fn party_in<'a>(call: &NextCall<'a>) -> Option<&'a [u8]>
    ensures { option_map (λ p. p.now) result ≡ party_of (seen call.now) }
{
    match call {
        NextCall::Continues(_, Some(party), _, _) => Some(party.as_bytes()),
        _ => None,
    }
}

/// The files that it reads, each with the most bytes that it may have.
pub(crate) fn files_of<'a>(
    alloc: Global,
    call: &NextCall<'a>,
) -> Result<Vec<(&'a str, usize)>, OutOfMemory>
    ensures { IfOk result (λ v. map asked v.items ≡ next_files (seen call.now)) }
{
    match call {
        NextCall::Begins(contract) => Vec::from_slice(alloc, &[(*contract, MOST_TEXT_BYTES)]),
        NextCall::Continues(_, _, run, contracts) => run_files(alloc, run, contracts),
    }
}
