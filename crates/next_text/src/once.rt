//! Lists in which each stands once.

ghost use Rattle.std.specs.Prelude.{◌≡◌, OnOk};
ghost use Rattle.spec_data.specs.Lists.{is_among};
ghost use Rattle.spec_next.specs.Together as spec;

use spec_data::{Bytes, Name, OutOfMemory, Seq};

// Whether the line is among these.
fn is_line_among(lines: &[Bytes], line: &[u8]) -> bool
    ensures { result ≡ is_among line.now lines.now }
{
    lines.iter().any(|l| l.as_slice() == line)
}

/// Adds a line that isn't among the others.
pub(crate) fn add_line(lines: &mut Seq<Bytes>, line: Vec<u8>) -> Result<(), OutOfMemory>
    ensures { OnOk result (lines.new ≡ spec.with_line lines.old line.items) }
{
    if is_line_among(lines.as_slice(), line.as_slice()) {
        return Ok(());
    }
    lines.push(Bytes::of(line))?;
    Ok(())
}

// Whether the name is among these.
fn is_name_among(names: &[Name], name: &Name) -> bool
    ensures { result ≡ is_among name.now names.now }
{
    names.iter().any(|n| *n == *name)
}

/// Adds a name that isn't among the others.
pub(crate) fn add_name(names: &mut Seq<Name>, name: &Name) -> Result<(), OutOfMemory>
    ensures { OnOk result (names.new ≡ spec.with_line names.old name.now) }
{
    if is_name_among(names.as_slice(), name) {
        return Ok(());
    }
    names.push(*name)?;
    Ok(())
}
