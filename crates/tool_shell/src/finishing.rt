//! The end of a call: its text is written.

ghost use Rattle.std.specs.Prelude.{◌≡◌, [], true, false};
ghost use Rattle.bm_io.specs.Counts.{RoseBy};
ghost use Rattle.spec_tool.specs.Commands.{prints};
ghost use Rattle.tool_shell.specs.Around.{IsWritten, Ends};

use bm_io::Sink;

// Writes a text, and answers whether the write went through. An empty text isn't written.
fn write<S: Sink>(out: &mut S, text: &[u8]) -> bool
    ensures written { IsWritten text.now result (S.pieces out.old) (S.pieces out.new) }
    ensures fault { result ≡ false → RoseBy 1 (S.faults out.old) (S.faults out.new) }
    ensures empty { text.now ≡ [] → result ≡ true }
{
    if text.is_empty() {
        return true;
    }
    match out.write_all(text) {
        Ok(()) => true,
        Err(_) => false,
    }
}

/// Writes a text, and answers this status, or 4 where the write failed.
pub(crate) fn finish<S: Sink>(out: &mut S, status: u8, text: &[u8]) -> u8
    ensures { Ends (prints status text.now) (S.pieces out.old) (S.pieces out.new) (S.faults out.old) (S.faults out.new) result }
{
    if write(out, text) { status } else { 4 }
}
