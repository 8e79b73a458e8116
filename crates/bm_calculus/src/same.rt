//! When owners and moves are the same.

ghost use Rattle.std.specs.Prelude.{◌≡◌};
ghost use Rattle.std.specs.Cmp.Lexicographic.{pointwise};
ghost use Rattle.spec_calculus.specs.Same as spec;

use spec_calculus::{Move, Owner};

/// Whether both are the same party, or both someone outside.
pub fn owner_eq(first: &Owner, second: &Owner) -> bool
    ensures { result ≡ spec.owner_eq first.now second.now }
{
    match (first, second) {
        (Owner::Party(a), Owner::Party(b)) => a == b,
        (Owner::Outside, Owner::Outside) => true,
        _ => false,
    }
}

fn output_eq(first: &(Owner, u64), second: &(Owner, u64)) -> bool
    ensures { result ≡ spec.output_eq first.now second.now }
{
    owner_eq(&first.0, &second.0) && first.1 == second.1
}

fn outputs_eq(first: &[(Owner, u64)], second: &[(Owner, u64)]) -> bool
    ensures { result ≡ pointwise spec.output_eq first.now second.now }
{
    let mut rest = second;
    for output in first {
        let Some((other, others)) = rest.split_first() else {
            return false;
        };
        if !output_eq(output, other) {
            return false;
        }
        rest = others;
    }
    rest.is_empty()
}

/// Whether the moves have the same inputs and outputs, in order.
pub fn move_eq(first: &Move, second: &Move) -> bool
    ensures { result ≡ spec.move_eq first.now second.now }
{
    first.inputs.as_slice() == second.inputs.as_slice()
        && outputs_eq(first.outputs.as_slice(), second.outputs.as_slice())
}
