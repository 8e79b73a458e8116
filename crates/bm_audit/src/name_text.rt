//! How the names of transactions are printed.

ghost use Rattle.std.specs.Prelude.{◌≡◌, ◌++◌, codes, OnOk};
ghost use Rattle.std.specs.List.{flat_map};
ghost use Rattle.spec_tool.specs.Listed.{which_text};
ghost use Rattle.spec_tool.specs.AuditText as spec;

use bm_text::put;
use spec_data::OutOfMemory;
use spec_tool::Which;
use std::alloc::Global;
use tool_which::put_which;

// A space and a name.
#[tactic(auto, using(std::proofs::Common::append_assoc))]
fn put_spaced(alloc: Global, out: &mut Vec<u8>, which: &Which) -> Result<(), OutOfMemory>
    ensures { OnOk result (out.new.items ≡ out.old.items ++ (codes " " ++ which_text which.now)) }
{
    put(out, b" ")?;
    put_which(alloc, out, which)
}

// Names, a space before each.
#[tactic(auto, using(std::proofs::Common::append_assoc))]
fn put_all_spaced(alloc: Global, out: &mut Vec<u8>, names: &[Which]) -> Result<(), OutOfMemory>
    ensures { OnOk result (out.new.items ≡ out.old.items ++ flat_map (λ which. codes " " ++ which_text which) names.now) }
{
    for which in names {
        put_spaced(alloc, out, which)?;
    }
    Ok(())
}

// The names behind `path`.
#[tactic(auto, using(std::proofs::Common::append_assoc))]
fn put_paths(alloc: Global, out: &mut Vec<u8>, names: &[Which]) -> Result<(), OutOfMemory>
    ensures { OnOk result (out.new.items ≡ out.old.items ++ (codes "path" ++ flat_map (λ which. codes " " ++ which_text which) names.now)) }
{
    put(out, b"path")?;
    put_all_spaced(alloc, out, names)
}

/// `init`, or the paths behind `path`, or `foreign`.
pub(crate) fn put_names(
    alloc: Global,
    out: &mut Vec<u8>,
    names: &[Which],
) -> Result<(), OutOfMemory>
    ensures { OnOk result (out.new.items ≡ out.old.items ++ spec.names_text names.now) }
{
    match names {
        [] => put(out, b"foreign"),
        [Which::Init, ..] => put(out, b"init"),
        [Which::At(_), ..] => put_paths(alloc, out, names),
    }
}
