//! The transaction that a word names.

ghost use Rattle.std.specs.Prelude.{◌≡◌, true, is_some, IfOk, OnErr};
ghost use Rattle.spec_text.specs.Words.{path};
ghost use Rattle.spec_tool.specs.Commands as spec;
ghost use Rattle.tool_which.specs.Path.{at_path};

use crate::path_word::is_path;
use bm_runfile::{WordError, read_path};
use spec_data::OutOfMemory;
use spec_tool::Which;
use std::alloc::{AllocError, Global};

// The path of a word that is one.
fn path_of(alloc: Global, word: &[u8]) -> Result<Option<Which>, OutOfMemory>
    requires { is_some (path word.now) ≡ true }
    ensures { IfOk result (λ which. which ≡ at_path (path word.now)) }
{
    match read_path(alloc, word) {
        Ok(path) => Ok(Some(Which::At(path))),
        Err(WordError::Bad) => Ok(None),
        Err(WordError::Memory) => Err(AllocError),
    }
}

/// The transaction that a word names. Of a word that names none no memory is asked.
pub fn which_of(alloc: Global, word: &str) -> Result<Option<Which>, OutOfMemory>
    ensures which { IfOk result (λ which. which ≡ spec.which_of word.now) }
    ensures memory { OnErr result (is_some (spec.which_of word.now) ≡ true) }
{
    if word == "init" {
        return Ok(Some(Which::Init));
    }
    if !is_path(word.as_bytes()) {
        return Ok(None);
    }
    path_of(alloc, word.as_bytes())
}
