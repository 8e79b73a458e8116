//! The lines of warnings.

ghost use Rattle.std.specs.Prelude.{◌≡◌, ◌++◌, ◌∷◌, [], codes, IfOk, OnOk};
ghost use Rattle.std.specs.Fmt.{decimal};
ghost use Rattle.spec_bitcoin.specs.Keys.{path_text};
ghost use Rattle.spec_text.specs.RunText.{newline};
ghost use Rattle.spec_tool.specs.Keyed.Listed.{which_text};
ghost use Rattle.spec_deal.specs.DealText.{line_of};

use bm_keys::put_path;
use bm_text::{Piece, put, put_all, put_decimal};
use spec_data::{Bytes, Name, OutOfMemory};
use spec_terms::Path;
use spec_tool::Which;
use std::alloc::Global;
use tool_which::put_which;

// ` NUMBER BOUND`, and the end of the line
fn put_numbers(alloc: Global, out: &mut Vec<u8>, number: u64, bound: u64) -> Result<(), OutOfMemory>
    ensures { OnOk result (out.new.items ≡ out.old.items ++ (codes " " ++ (decimal number ++ (codes " " ++ (decimal bound ++ newline))))) }
{
    let pieces = [
        Piece::Text(b" "),
        Piece::Number(number),
        Piece::Text(b" "),
        Piece::Number(bound),
        Piece::Text(b"\n"),
    ];
    put_all(alloc, out, &pieces)
}

/// `warn script POSITION SIZE BOUND`
#[tactic(auto, using(std::proofs::Common::append_assoc))]
pub(crate) fn script_line(
    alloc: Global,
    position: &Path,
    size: u64,
    bound: u64,
) -> Result<Bytes, OutOfMemory>
    ensures { IfOk result (λ line. line
        ≡ line_of (codes "warn" ∷ codes "script" ∷ path_text position.now ∷ decimal size ∷ decimal bound ∷ [])) }
{
    let mut out = Vec::new(alloc);
    put(&mut out, b"warn script ")?;
    put_path(alloc, &mut out, position.steps())?;
    put_numbers(alloc, &mut out, size, bound)?;
    Ok(Bytes::of(out))
}

/// `warn dust WHICH k VALUE LEAST`
#[tactic(auto, using(std::proofs::Common::append_assoc))]
pub(crate) fn dust_line(
    alloc: Global,
    which: &Which,
    number: u64,
    value: u64,
    least: u64,
) -> Result<Bytes, OutOfMemory>
    ensures { IfOk result (λ line. line
        ≡ line_of (codes "warn" ∷ codes "dust" ∷ which_text which.now ∷ decimal number ∷ decimal value ∷ decimal least ∷ [])) }
{
    let mut out = Vec::new(alloc);
    put(&mut out, b"warn dust ")?;
    put_which(alloc, &mut out, which)?;
    put(&mut out, b" ")?;
    put_decimal(alloc, &mut out, number)?;
    put_numbers(alloc, &mut out, value, least)?;
    Ok(Bytes::of(out))
}

/// `warn fee WHICH FEE SIZE`
#[tactic(auto, using(std::proofs::Common::append_assoc))]
pub(crate) fn fee_line(
    alloc: Global,
    which: &Which,
    fee: u64,
    size: u64,
) -> Result<Bytes, OutOfMemory>
    ensures { IfOk result (λ line. line
        ≡ line_of (codes "warn" ∷ codes "fee" ∷ which_text which.now ∷ decimal fee ∷ decimal size ∷ [])) }
{
    let mut out = Vec::new(alloc);
    put(&mut out, b"warn fee ")?;
    put_which(alloc, &mut out, which)?;
    put_numbers(alloc, &mut out, fee, size)?;
    Ok(Bytes::of(out))
}

/// `warn secret NAME SIZE BOUND`
#[tactic(auto, using(std::proofs::Common::append_assoc))]
pub(crate) fn secret_line(
    alloc: Global,
    name: &Name,
    size: u64,
    bound: u64,
) -> Result<Bytes, OutOfMemory>
    ensures { IfOk result (λ line. line
        ≡ line_of (codes "warn" ∷ codes "secret" ∷ name.now ∷ decimal size ∷ decimal bound ∷ [])) }
{
    let mut out = Vec::new(alloc);
    put(&mut out, b"warn secret ")?;
    put(&mut out, name.bytes())?;
    put_numbers(alloc, &mut out, size, bound)?;
    Ok(Bytes::of(out))
}

/// `warnings COUNT`
pub(crate) fn put_count(alloc: Global, out: &mut Vec<u8>, count: u64) -> Result<(), OutOfMemory>
    ensures { OnOk result (out.new.items ≡ out.old.items ++ line_of (codes "warnings" ∷ decimal count ∷ [])) }
{
    let pieces = [
        Piece::Text(b"warnings "),
        Piece::Number(count),
        Piece::Text(b"\n"),
    ];
    put_all(alloc, out, &pieces)
}
