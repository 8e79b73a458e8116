//! The call that words are, the files that it reads, and its title.

ghost use Rattle.std.specs.Prelude.{◌≡◌, ◌++◌, codes, map, string_bytes, option_map, IfOk, OnOk};
ghost use Rattle.std.specs.Str.{bytes_eq};
ghost use Rattle.tool_shell.specs.Asked.{asked};
ghost use Rattle.bitml_draw.specs.DrawAnswer.{draw_files, draw_title, draw_words, few_words, further_names, page_words, svg_words};
ghost use Rattle.bitml_draw.specs.Drawn.{seen, HasFew};

use bm_text::put;
use draw_replies::Form;
use spec_data::{MOST_TEXT_BYTES, OutOfMemory};
use std::alloc::Global;
use tool_command::{MOST_CONTRACTS, run_files};

/// What words ask for; files go by the words that name them.
#[derive(Drop)]
pub(crate) enum DrawCall<'a> {
    /// The page of a contract.
    Sheet(&'a str),
    /// A run and its contracts, in this form.
    Run(Form, &'a str, &'a [String]),
}

// A run and its contracts, of which there are at most 16.
fn few<'a>(form: Form, run: &'a String, contracts: &'a [String]) -> Option<DrawCall<'a>>
    ensures call { option_map seen result ≡ few_words form (string_bytes run.now) (map string_bytes contracts.now) }
    ensures few { HasFew (option_map seen result) }
{
    if contracts.len() > MOST_CONTRACTS {
        return None;
    }
    Some(DrawCall::Run(form, run.as_str(), contracts))
}

// The page that words ask for.
fn paging(words: &[String]) -> Option<DrawCall<'_>>
    ensures call { option_map seen result ≡ page_words (map string_bytes words.now) }
    ensures few { HasFew (option_map seen result) }
{
    match words {
        [] => None,
        [contract] => Some(DrawCall::Sheet(contract.as_str())),
        [run, contracts @ ..] => few(Form::Page, run, contracts),
    }
}

// The SVG that words behind `--svg` ask for.
fn drawing(words: &[String]) -> Option<DrawCall<'_>>
    ensures call { option_map seen result ≡ svg_words (map string_bytes words.now) }
    ensures few { HasFew (option_map seen result) }
{
    match words {
        [] => None,
        [_] => None,
        [run, contracts @ ..] => few(Form::Svg, run, contracts),
    }
}

// Whether the word asks for an SVG.
fn is_svg(word: &String) -> bool
    ensures { result ≡ bytes_eq (string_bytes word.now) (codes "--svg") }
{
    word.as_str() == "--svg"
}

/// The call that the words are, if they are one: a contract, or a run and up to 16 contracts, which `--svg` may stand before.
pub(crate) fn call_of(words: &[String]) -> Option<DrawCall<'_>>
    ensures call { option_map seen result ≡ draw_words (map string_bytes words.now) }
    ensures few { HasFew (option_map seen result) }
{
    match words {
        [] => None,
        [word, others @ ..] => {
            if is_svg(word) {
                drawing(others)
            } else {
                paging(words)
            }
        }
    }
}

/// The files that it reads, each with the most bytes that it may have.
pub(crate) fn files_in<'a>(
    alloc: Global,
    call: &DrawCall<'a>,
) -> Result<Vec<(&'a str, usize)>, OutOfMemory>
    ensures { IfOk result (λ v. map asked v.items ≡ draw_files (seen call.now)) }
{
    match call {
        DrawCall::Sheet(contract) => Vec::from_slice(alloc, &[(*contract, MOST_TEXT_BYTES)]),
        DrawCall::Run(_, run, contracts) => run_files(alloc, run, contracts),
    }
}

// A name behind others.
#[tactic(auto, using(std::proofs::Common::append_assoc))]
fn put_name(title: &mut Vec<u8>, name: &String) -> Result<(), OutOfMemory>
    ensures { OnOk result (title.new.items ≡ title.old.items ++ (codes " and " ++ string_bytes name.now)) }
{
    put(title, b" and ")?;
    put(title, name.as_bytes())
}

// Names behind others.
#[tactic(auto, using(std::proofs::Common::append_assoc))]
fn put_names(title: &mut Vec<u8>, names: &[String]) -> Result<(), OutOfMemory>
    ensures { OnOk result (title.new.items ≡ title.old.items ++ further_names (map string_bytes names.now)) }
{
    for name in names {
        put_name(title, name)?;
    }
    Ok(())
}

// The names of a run and of its contracts.
fn all_names(alloc: Global, run: &str, contracts: &[String]) -> Result<Vec<u8>, OutOfMemory>
    ensures { IfOk result (λ title. title.items ≡ run.now ++ further_names (map string_bytes contracts.now)) }
{
    let mut title = Vec::new(alloc);
    put(&mut title, run.as_bytes())?;
    put_names(&mut title, contracts)?;
    Ok(title)
}

/// The title: the names of the files.
pub(crate) fn title_in(alloc: Global, call: &DrawCall) -> Result<Vec<u8>, OutOfMemory>
    ensures { IfOk result (λ title. title.items ≡ draw_title (seen call.now)) }
{
    match call {
        DrawCall::Sheet(contract) => Vec::from_slice(alloc, contract.as_bytes()),
        DrawCall::Run(_, run, contracts) => all_names(alloc, run, contracts),
    }
}
