//! What is found by the place of a node, or by a path.

ghost use Rattle.std.specs.Prelude.{◌≡◌, option_map, slice_get};
ghost use Rattle.std.specs.Option.{option_and_then};
ghost use Rattle.theory_script.specs.Listed.{at_path};
ghost use Rattle.bm_arena.specs.NodeView.{node_view};
ghost use Rattle.bm_compile.specs.Numbered as spec;

use bm_arena::Node;
use bm_syntax::Path;
use spec_compiler::Prepared;
use spec_data::Seq;

/// What stands at the place of this number.
pub(crate) fn entry<'a, V>(
    entries: &'a [(Path, V)],
    places: &[Option<u32>],
    number: u32,
) -> Option<&'a V>
    ensures { option_map (λ v. v.now) result ≡ option_and_then (spec.value_at entries.now) (slice_get places.now number) }
{
    let place = (*places.get(number as usize)?)?;
    let (_, value) = entries.get(place as usize)?;
    Some(value)
}

/// The keys at the place of this number.
pub(crate) fn row<'a>(
    table: &'a [Seq<[u8; 33]>],
    places: &[Option<u32>],
    number: u32,
) -> Option<&'a [[u8; 33]]>
    ensures { option_map (λ row. row.now) result ≡ option_and_then (spec.row_at table.now) (slice_get places.now number) }
{
    let place = (*places.get(number as usize)?)?;
    let keys = table.get(place as usize)?;
    Some(keys.as_slice())
}

/// Whether the node is the branch at this path.
pub(crate) fn is_branch_at(node: &Node, path: &Path) -> bool
    ensures { result ≡ spec.is_branch_at path.now (node_view node.now) }
{
    match node {
        Node::Choice { .. } => false,
        Node::Branch { path: known, .. } => *known == *path,
    }
}

/// What a list has for a path.
pub(crate) fn find_path<'a, V>(entries: &'a [(Path, V)], path: &Path) -> Option<&'a V>
    ensures { option_map (λ v. v.now) result ≡ at_path path.now entries.now }
{
    for (known, value) in entries {
        if *known == *path {
            return Some(value);
        }
    }
    None
}

/// What a list of keys has for a path, by the transactions beside it.
pub(crate) fn find_keys<'a>(
    entries: &[(Path, Prepared)],
    table: &'a [Seq<[u8; 33]>],
    path: &Path,
) -> Option<&'a [[u8; 33]]>
    ensures { option_map (λ row. row.now) result ≡ at_path path.now (spec.keyed_paths entries.now table.now) }
{
    let mut rest = table;
    for (known, _) in entries {
        let Some((keys, others)) = rest.split_first() else {
            return None;
        };
        if *known == *path {
            return Some(keys.as_slice());
        }
        rest = others;
    }
    None
}
