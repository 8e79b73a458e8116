//! The further file of a command that reads one.

ghost use Rattle.std.specs.Prelude.{◌≡◌, length};
ghost use Rattle.spec_tool.specs.Reads.{text_at};

use spec_data::Bytes;

/// The text behind those of a run and its contract.
pub(crate) fn third(texts: &[Option<Bytes>]) -> &Option<Bytes>
    requires { length texts.now ≡ 3 }
    ensures { result.now ≡ text_at texts.now 2 }
{
    &texts[2]
}
