//! Whether a contract is endorsed.

ghost use Rattle.std.specs.Prelude.{◌≡◌, IfOk};
ghost use Rattle.spec_compiler.specs.Instance.{Instance};
ghost use Rattle.spec_nodes.specs.Nodes.{nodes_of};
ghost use Rattle.bm_compile.specs.Numbered.{numbered};
ghost use Rattle.bm_honest.specs.Gates.{gate_of_paths, Tells};

use crate::branches::{first_at, first_nodes, next_nodes};
use bm_arena::Arena;
use bm_book::Book;
use bm_compile::Compiled;
use bm_hash::Hash32;
use bm_wellformed::Checked;
use spec_compiler::Prepared;
use spec_data::{Name, OutOfMemory, Seq};
use spec_terms::Path;
use std::alloc::Global;
use theory_script::missing_is_first;

/// Whether a contract is endorsed, and if not, whose signature for which branch is the first that is missing.
#[derive(Drop)]
pub enum Gate {
    Yes,
    /// The signature of this party is missing for the transaction of the branch at this path.
    No { path: Path, party: Name },
}

// The gate of these transactions by their paths, each with the participants' keys of it. The nodes of branches stand in the order of
// the paths, so that each is found beside its path.
fn gate_by_paths<H: Hash32>(
    alloc: Global,
    hash: &H,
    book: &Book,
    checked: &Checked,
    arena: &Arena,
    paths: &[(Path, Prepared)],
    table: &[Seq<[u8; 33]>],
) -> Result<Gate, OutOfMemory>
    requires { arena.now ≡ nodes_of checked.now.root }
    ensures { IfOk result (λ gate. gate ≡ gate_of_paths (H.digest_of hash.now) book.now checked.now paths.now table.now) }
{
    let mut rest = table;
    let mut nodes = first_nodes(checked, arena);
    for (path, made) in paths {
        let Some((keys, others)) = rest.split_first() else {
            return Ok(Gate::Yes);
        };
        let keys = keys.as_slice();
        let party = first_at(alloc, hash, book, checked, arena, nodes, keys, path, made)?;
        if let Some(party) = party {
            return Ok(Gate::No {
                path: path.copy(alloc)?,
                party,
            });
        }
        rest = others;
        nodes = next_nodes(checked, nodes);
    }
    Ok(Gate::Yes)
}

/// Whether a contract of this number is endorsed, with its keys by this hash: `No` with the first endorsement that the book
/// misses, by path in the order of the text, and for each path first the participants whom the branch doesn't ask and then the
/// owners of what it puts. The contract is compiled to `compiled`, which has the participants' keys of each path, so that none is
/// hashed anew: the keys are the plan's where it was compiled by the plan. The book is asked by its index.
pub fn may<H: Hash32>(
    alloc: Global,
    hash: &H,
    checked: &Checked,
    contract: u32,
    compiled: &Compiled,
    book: &Book,
) -> Result<Gate, OutOfMemory>
    requires { compiled.now.nodes ≡ nodes_of checked.now.root }
    ensures listed { IfOk result (λ gate. gate
        ≡ gate_of_paths (H.digest_of hash.now) book.now checked.now compiled.now.paths compiled.now.keys) }
    ensures tells { (s : Instance) → compiled.now ≡ numbered (H.digest_of hash.now) s → s.contract ≡ contract → s.advert ≡ checked.now
        → IfOk result (λ gate. Tells (H.digest_of hash.now) s book.now gate) }
{
    missing_is_first();
    let gate = gate_by_paths(
        alloc,
        hash,
        book,
        checked,
        compiled.arena(),
        compiled.paths(),
        compiled.keys(),
    )?;
    Ok(gate)
}
