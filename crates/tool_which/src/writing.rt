//! The name of a transaction is written.

ghost use Rattle.std.specs.Prelude.{◌≡◌, ◌++◌, OnOk};
ghost use Rattle.spec_tool.specs.Listed.{which_text};

use bm_keys::put_path;
use bm_text::put;
use spec_data::OutOfMemory;
use spec_tool::Which;
use std::alloc::Global;

/// `init` or the path, behind what was written.
pub fn put_which(alloc: Global, out: &mut Vec<u8>, which: &Which) -> Result<(), OutOfMemory>
    ensures { OnOk result (out.new.items ≡ out.old.items ++ which_text which.now) }
{
    match which {
        Which::Init => put(out, b"init"),
        Which::At(path) => put_path(alloc, out, path.steps()),
    }
}
