//! The weights of a compiled contract.

ghost use Rattle.std.specs.Prelude.{◌≡◌, ℕ, List, IfOk};
ghost use Rattle.spec_compiler.specs.Instance.{Instance};
ghost use Rattle.spec_compiler.specs.Statements.{IsHash};
ghost use Rattle.spec_tool.specs.Weights.{weights};
ghost use Rattle.bm_compile.specs.Numbered.{numbered};
ghost use Rattle.bm_plan.specs.Listed.{listed_weights};

use crate::listed::weigh_listed;
use bm_compile::Compiled;
use bm_wellformed::Checked;
use spec_data::OutOfMemory;
use spec_tool::Weight;
use std::alloc::Global;

/// Of a contract's initial transaction and then of each path, in the order of the text, its weight and its total: the weights
/// of all transactions that lead there, the initial one's included. The numbers are weight units of BIP 141, of witnesses
/// with signatures of 66 bytes, least with secrets of 16 bytes and most with secrets of 520. A transaction or a script of
/// 4 GiB or more, and a total of more than 64 bits, count as out of memory.
pub fn weigh(
    alloc: Global,
    checked: &Checked,
    compiled: &Compiled,
) -> Result<Vec<(Weight, Weight)>, OutOfMemory>
    ensures by_lists { IfOk result (λ ws. ws.items
        ≡ listed_weights checked.now compiled.now.init compiled.now.paths compiled.now.scripts) }
    ensures compiled { (hash : List ℕ → List ℕ) (s : Instance) → IsHash hash → s.advert ≡ checked.now → compiled.now ≡ numbered hash s
        → IfOk result (λ ws. ws.items ≡ weights hash s) }
{
    weigh_listed(
        alloc,
        compiled.init(),
        compiled.paths(),
        compiled.scripts(),
        checked,
    )
}
