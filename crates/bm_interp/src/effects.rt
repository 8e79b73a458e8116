//! What each opcode makes of the two stacks.

ghost use Rattle.std.specs.Prelude.{◌≡◌, List, ℕ, Bool, IfOk, Some, None, if◌then◌else◌, pos, negsuc, ◌≤ℤ◌};
ghost use Rattle.spec_bitcoin.specs.Effects.{result_of as binary_result, effect, verify_of, drop_of, dup_of, equal_of, hash_of};
ghost use Rattle.spec_bitcoin.specs.Effects.{check_sig_of, swap_of, size_of, pick_of, number_of_bool, binary_of, not_of};
ghost use Rattle.spec_bitcoin.specs.Effects.{within_of, moved_to_alt, moved_from_alt, truth, item_of_bool};

use crate::top_first::Stack;
use bm_hash::Hash32;
use bm_ops::{Binary, Opcode, item_of, number_of};
use spec_data::{Bytes, OutOfMemory};
use std::alloc::Global;

/// Which signatures are valid for which keys.
pub trait SigCheck {
    ghost valid: { Self → List ℕ → List ℕ → Bool };

    fn check(&self, signature: &[u8], key: &[u8]) -> bool
        ensures { result ≡ valid self.now signature.now key.now };
}

/// Whether an item counts as true.
pub(crate) fn is_true(item: &[u8]) -> bool
    ensures { result ≡ truth item.now }
{
    for (i, byte) in item.iter().enumerate() {
        if *byte != 0 {
            return !(*byte == 128 && i + 1 == item.len());
        }
    }
    false
}

// The item of a truth value.
fn bool_item(alloc: Global, value: bool) -> Result<Bytes, OutOfMemory>
    ensures { IfOk result (λ item. item ≡ item_of_bool value) }
{
    if value {
        Bytes::from_slice(alloc, &[1])
    } else {
        Bytes::from_slice(alloc, &[])
    }
}

fn verify(main: &mut Stack<Bytes>) -> bool
    ensures { verify_of main.old ≡ (if result then Some main.new else None) }
{
    match main.pop() {
        Some(item) => is_true(item.as_slice()),
        None => false,
    }
}

fn drop_top(main: &mut Stack<Bytes>) -> bool
    ensures { drop_of main.old ≡ (if result then Some main.new else None) }
{
    main.pop().is_some()
}

fn dup(alloc: Global, main: &mut Stack<Bytes>) -> Result<bool, OutOfMemory>
    ensures { IfOk result (λ done. dup_of main.old ≡ (if done then Some main.new else None)) }
{
    let Some(top) = main.get(0) else {
        return Ok(false);
    };
    let copy = top.copy(alloc)?;
    main.push(copy)?;
    Ok(true)
}

fn equal(alloc: Global, main: &mut Stack<Bytes>) -> Result<bool, OutOfMemory>
    ensures { IfOk result (λ done. equal_of main.old ≡ (if done then Some main.new else None)) }
{
    let Some(y) = main.pop() else {
        return Ok(false);
    };
    let Some(x) = main.pop() else {
        return Ok(false);
    };
    main.push(bool_item(alloc, x.as_slice() == y.as_slice())?)?;
    Ok(true)
}

fn hash_top<H: Hash32>(
    alloc: Global,
    hash: &H,
    main: &mut Stack<Bytes>,
) -> Result<bool, OutOfMemory>
    ensures { IfOk result (λ done. hash_of (H.digest_of hash.now) main.old ≡ (if done then Some main.new else None)) }
{
    let Some(x) = main.pop() else {
        return Ok(false);
    };
    let digest = hash.hash32(x.as_slice());
    main.push(Bytes::from_slice(alloc, &digest)?)?;
    Ok(true)
}

fn check_sig<C: SigCheck>(
    alloc: Global,
    check: &C,
    main: &mut Stack<Bytes>,
) -> Result<bool, OutOfMemory>
    ensures { IfOk result (λ done. check_sig_of (C.valid check.now) main.old ≡ (if done then Some main.new else None)) }
{
    let Some(key) = main.pop() else {
        return Ok(false);
    };
    let Some(signature) = main.pop() else {
        return Ok(false);
    };
    main.push(bool_item(alloc, check.check(signature.as_slice(), key.as_slice()))?)?;
    Ok(true)
}

fn swap(main: &mut Stack<Bytes>) -> Result<bool, OutOfMemory>
    ensures { IfOk result (λ done. swap_of main.old ≡ (if done then Some main.new else None)) }
{
    let Some(y) = main.pop() else {
        return Ok(false);
    };
    let Some(x) = main.pop() else {
        return Ok(false);
    };
    main.push(y)?;
    main.push(x)?;
    Ok(true)
}

fn size(alloc: Global, main: &mut Stack<Bytes>) -> Result<bool, OutOfMemory>
    ensures { IfOk result (λ done. size_of main.old ≡ (if done then Some main.new else None)) }
{
    let Some(top) = main.get(0) else {
        return Ok(false);
    };
    let len = top.as_slice().len();
    main.push(item_of(alloc, len as i64)?)?;
    Ok(true)
}

fn pick(alloc: Global, main: &mut Stack<Bytes>) -> Result<bool, OutOfMemory>
    ensures { IfOk result (λ done. pick_of main.old ≡ (if done then Some main.new else None)) }
{
    let Some(item) = main.pop() else {
        return Ok(false);
    };
    let Some(number) = number_of(item.as_slice()) else {
        return Ok(false);
    };
    if number < 0 {
        return Ok(false);
    }
    let Some(picked) = main.get(number as usize) else {
        return Ok(false);
    };
    let copy = picked.copy(alloc)?;
    main.push(copy)?;
    Ok(true)
}

fn bool_number(value: bool) -> i64
    ensures { result ≡ number_of_bool value }
{
    if value { 1 } else { 0 }
}

fn result_of(binary: Binary, x: i64, y: i64) -> i64
    requires x_low { negsuc 4294967295 ≤ℤ x }
    requires x_high { x ≤ℤ pos 4294967295 }
    requires y_low { negsuc 4294967295 ≤ℤ y }
    requires y_high { y ≤ℤ pos 4294967295 }
    ensures { result ≡ binary_result binary x y }
{
    match binary {
        Binary::Add => x + y,
        Binary::Sub => x - y,
        Binary::BoolAnd => bool_number(x != 0 && y != 0),
        Binary::BoolOr => bool_number(x != 0 || y != 0),
        Binary::NumEqual => bool_number(x == y),
        Binary::LessThan => bool_number(x < y),
        Binary::Min => if x < y { x } else { y },
        Binary::Max => if x < y { y } else { x },
    }
}

fn binary(alloc: Global, binary: Binary, main: &mut Stack<Bytes>) -> Result<bool, OutOfMemory>
    ensures { IfOk result (λ done. binary_of binary main.old ≡ (if done then Some main.new else None)) }
{
    let Some(y) = main.pop() else {
        return Ok(false);
    };
    let Some(x) = main.pop() else {
        return Ok(false);
    };
    let Some(m) = number_of(x.as_slice()) else {
        return Ok(false);
    };
    let Some(n) = number_of(y.as_slice()) else {
        return Ok(false);
    };
    main.push(item_of(alloc, result_of(binary, m, n))?)?;
    Ok(true)
}

fn not(alloc: Global, main: &mut Stack<Bytes>) -> Result<bool, OutOfMemory>
    ensures { IfOk result (λ done. not_of main.old ≡ (if done then Some main.new else None)) }
{
    let Some(x) = main.pop() else {
        return Ok(false);
    };
    let Some(n) = number_of(x.as_slice()) else {
        return Ok(false);
    };
    main.push(item_of(alloc, bool_number(n == 0))?)?;
    Ok(true)
}

fn within(alloc: Global, main: &mut Stack<Bytes>) -> Result<bool, OutOfMemory>
    ensures { IfOk result (λ done. within_of main.old ≡ (if done then Some main.new else None)) }
{
    let Some(top) = main.pop() else {
        return Ok(false);
    };
    let Some(low) = main.pop() else {
        return Ok(false);
    };
    let Some(x) = main.pop() else {
        return Ok(false);
    };
    let Some(n) = number_of(x.as_slice()) else {
        return Ok(false);
    };
    let Some(a) = number_of(low.as_slice()) else {
        return Ok(false);
    };
    let Some(b) = number_of(top.as_slice()) else {
        return Ok(false);
    };
    main.push(item_of(alloc, bool_number(a <= n && n < b))?)?;
    Ok(true)
}

fn to_alt(main: &mut Stack<Bytes>, alt: &mut Stack<Bytes>) -> Result<bool, OutOfMemory>
    ensures { IfOk result (λ done. moved_to_alt main.old alt.old
        ≡ (if done then Some (record { main = main.new; alt = alt.new }) else None)) }
{
    let Some(x) = main.pop() else {
        return Ok(false);
    };
    alt.push(x)?;
    Ok(true)
}

fn from_alt(main: &mut Stack<Bytes>, alt: &mut Stack<Bytes>) -> Result<bool, OutOfMemory>
    ensures { IfOk result (λ done. moved_from_alt main.old alt.old
        ≡ (if done then Some (record { main = main.new; alt = alt.new }) else None)) }
{
    let Some(x) = alt.pop() else {
        return Ok(false);
    };
    main.push(x)?;
    Ok(true)
}

fn hash_twice<H: Hash32>(
    alloc: Global,
    hash: &H,
    main: &mut Stack<Bytes>,
) -> Result<bool, OutOfMemory>
    ensures { IfOk result (λ done. hash_of (λ x. H.digest_of hash.now (H.digest_of hash.now x)) main.old
        ≡ (if done then Some main.new else None)) }
{
    let Some(x) = main.pop() else {
        return Ok(false);
    };
    let first = hash.hash32(x.as_slice());
    let digest = hash.hash32(&first);
    main.push(Bytes::from_slice(alloc, &digest)?)?;
    Ok(true)
}

/// What an opcode makes of the stacks; false where it fails.
pub(crate) fn apply<H: Hash32, C: SigCheck>(
    alloc: Global,
    hash: &H,
    check: &C,
    opcode: Opcode,
    main: &mut Stack<Bytes>,
    alt: &mut Stack<Bytes>,
) -> Result<bool, OutOfMemory>
    ensures { IfOk result (λ done. effect (H.digest_of hash.now) (C.valid check.now) (Some opcode) main.old alt.old
        ≡ (if done then Some (record { main = main.new; alt = alt.new }) else None)) }
{
    Ok(match opcode {
        Opcode::Constant(number) => {
            main.push(item_of(alloc, number)?)?;
            true
        }
        Opcode::Binary(kind) => binary(alloc, kind, main)?,
        Opcode::If | Opcode::NotIf | Opcode::Else | Opcode::EndIf | Opcode::Return => false,
        Opcode::Nop => true,
        Opcode::Verify => verify(main),
        Opcode::ToAltStack => to_alt(main, alt)?,
        Opcode::FromAltStack => from_alt(main, alt)?,
        Opcode::Drop => drop_top(main),
        Opcode::Dup => dup(alloc, main)?,
        Opcode::Pick => pick(alloc, main)?,
        Opcode::Swap => swap(main)?,
        Opcode::Size => size(alloc, main)?,
        Opcode::Equal => equal(alloc, main)?,
        Opcode::EqualVerify => equal(alloc, main)? && verify(main),
        Opcode::Not => not(alloc, main)?,
        Opcode::Within => within(alloc, main)?,
        Opcode::Sha256 => hash_top(alloc, hash, main)?,
        Opcode::Hash256 => hash_twice(alloc, hash, main)?,
        Opcode::CheckSig => check_sig(alloc, check, main)?,
        Opcode::CheckSigVerify => check_sig(alloc, check, main)? && verify(main),
    })
}
