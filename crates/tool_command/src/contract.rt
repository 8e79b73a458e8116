//! A contract file is judged.

ghost use Rattle.std.specs.Prelude.{◌≡◌, true, Ok, Err};
ghost use Rattle.spec_terms.specs.Readable.{is_readable};
ghost use Rattle.spec_text.specs.Refusals.{text_fault_text, fault_text, exceeded_text, too_long_text, judged_answer, contract_of};
ghost use Rattle.spec_text.specs.ReadAdvert.{read_answer};
ghost use Rattle.spec_tool.specs.Answers as spec;
ghost use Rattle.tool_command.specs.Judges.{Judges};

use crate::error::JudgeError;
use crate::refusal::{put_exceeded, put_fault, put_text_fault, put_too_long};
use bm_reader::{ReaderError, read_advert};
use bm_syntax::{Advert, Limit};
use bm_wellformed::{CheckError, Checked, check};
use spec_data::{Bytes, MOST_TEXT_BYTES};
use spec_terms::Place;
use spec_text::TextFault;
use std::alloc::Global;
use theory_text::reader_theorem;

fn refuse_too_long(alloc: Global) -> Result<Checked, JudgeError>
    ensures { Judges result (Err too_long_text) }
{
    let mut why = Vec::new(alloc);
    put_too_long(alloc, &mut why)?;
    Err(JudgeError::Refused(Bytes::of(why)))
}

fn refuse_text(alloc: Global, fault: TextFault) -> Result<Checked, JudgeError>
    ensures { Judges result (Err (text_fault_text fault)) }
{
    let mut why = Vec::new(alloc);
    put_text_fault(alloc, &mut why, fault)?;
    Err(JudgeError::Refused(Bytes::of(why)))
}

fn refuse_fault(alloc: Global, number: u8, place: &Place) -> Result<Checked, JudgeError>
    ensures { Judges result (Err (fault_text number place.now)) }
{
    let mut why = Vec::new(alloc);
    put_fault(alloc, &mut why, number, place)?;
    Err(JudgeError::Refused(Bytes::of(why)))
}

fn refuse_limit(alloc: Global, limit: Limit, place: &Place) -> Result<Checked, JudgeError>
    ensures { Judges result (Err (exceeded_text limit place.now)) }
{
    let mut why = Vec::new(alloc);
    put_exceeded(alloc, &mut why, limit, place)?;
    Err(JudgeError::Refused(Bytes::of(why)))
}

/// How an advert that was read is judged.
fn judge(alloc: Global, advert: Advert) -> Result<Checked, JudgeError>
    requires { is_readable advert ≡ true }
    ensures { Judges result (judged_answer (Ok advert)) }
{
    match check(alloc, advert) {
        Ok(checked) => Ok(checked),
        Err(CheckError::Fault(number, place)) => refuse_fault(alloc, number, &place),
        Err(CheckError::Limit(limit, place)) => refuse_limit(alloc, limit, &place),
        Err(CheckError::Memory) => Err(JudgeError::Memory),
    }
}

/// How the answer of the reader is judged, where the text isn't too long.
fn judge_text(alloc: Global, text: &[u8]) -> Result<Checked, JudgeError>
    ensures { Judges result (judged_answer (read_answer text.now)) }
{
    // What is read is within the limits of the reader, as the check requires.
    reader_theorem();
    match read_advert(alloc, text) {
        Ok(advert) => judge(alloc, advert),
        Err(ReaderError::BadByte(place)) => refuse_text(alloc, TextFault::BadByte(place)),
        Err(ReaderError::Syntax(place)) => refuse_text(alloc, TextFault::Syntax(place)),
        Err(ReaderError::Limit(limit, place)) => {
            refuse_text(alloc, TextFault::Limit(limit, place))
        }
        Err(ReaderError::Memory) => Err(JudgeError::Memory),
    }
}

/// The contract of a text, or why it is refused.
fn contract_of(alloc: Global, text: &[u8]) -> Result<Checked, JudgeError>
    ensures { Judges result (contract_of text.now) }
{
    if text.len() > MOST_TEXT_BYTES {
        return refuse_too_long(alloc);
    }
    judge_text(alloc, text)
}

/// The contract of a file, none of whose bytes are given where it is too long; or why it is refused.
pub fn contract_in(alloc: Global, text: &Option<Bytes>) -> Result<Checked, JudgeError>
    ensures { Judges result (spec.contract_in text.now) }
{
    match text {
        None => refuse_too_long(alloc),
        Some(bytes) => contract_of(alloc, bytes.as_slice()),
    }
}
