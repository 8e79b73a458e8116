//! Compiled contracts on the board.

ghost use Rattle.std.specs.Prelude.{◌≡◌};
ghost use Rattle.bm_world_board.specs.Compiling.{placed};

use bm_compile::Compiled;
use spec_data::{Boxed, Seq};
use std::alloc::Global;
use std::mem;

/// Puts a compiled contract to the others, if there is one; it takes no memory.
pub(crate) fn place(
    alloc: Global,
    compiled: &mut Seq<Option<Compiled>>,
    entry: Option<(u32, Boxed<Compiled>)>,
)
    ensures { compiled.new ≡ placed entry compiled.old }
{
    if let Some((contract, one)) = entry {
        let mut all = mem::replace(compiled, Seq::new(alloc)).into_vec();
        let number = contract as usize;
        if number < all.len() {
            all[number] = Some(one.into_value());
        }
        *compiled = Seq::of(all);
    }
}
