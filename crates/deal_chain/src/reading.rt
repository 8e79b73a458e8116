//! The transactions of a chain file.

ghost use Rattle.std.specs.Prelude.{◌≡◌, ◌≤◌, [], length, IfOk};
ghost use Rattle.spec_text.specs.Lines.{lines_of};
ghost use Rattle.spec_chain.specs.ChainFile as spec;
ghost use Rattle.spec_chain.specs.Sizes.{most_chain_bytes};

use crate::lines::line_says;
use bm_runfile::first_line;
use spec_chain::{ChainFault, Confirmed, Line, Reading};
use spec_data::{OutOfMemory, Seq};
use std::alloc::Global;

/// The most bytes of a chain file.
const MOST_CHAIN_BYTES: usize = 8_388_608;

// The transactions of a text that isn't too long.
fn read_lines(alloc: Global, text: &[u8]) -> Result<Reading, OutOfMemory>
    requires { length text.now ≤ most_chain_bytes }
    ensures { IfOk result (λ reading. reading ≡ spec.read_lines [] 1 0 (lines_of text.now)) }
{
    let mut confirmed = Seq::new(alloc);
    let mut rest = text;
    let mut line = 1u32;
    let mut height = 0u32;
    while !rest.is_empty() {
        let (prefix, more) = first_line(rest);
        match line_says(alloc, height, prefix)? {
            Line::Empty => {}
            Line::Bad(reason) => {
                return Ok(Reading {
                    confirmed,
                    tip: height,
                    fault: Some(ChainFault::Line(line, reason)),
                });
            }
            Line::Rises(next) => height = next,
            Line::Confirms(tx) => confirmed.push(Confirmed { line, height, tx })?,
        }
        rest = more;
        line += 1;
    }
    Ok(Reading {
        confirmed,
        tip: height,
        fault: None,
    })
}

/// The transactions that a text says were confirmed, up to its first line that is none of a chain.
pub fn read_chain(alloc: Global, text: &[u8]) -> Result<Reading, OutOfMemory>
    ensures { IfOk result (λ reading. reading ≡ spec.read_chain text.now) }
{
    if text.len() > MOST_CHAIN_BYTES {
        return Ok(Reading {
            confirmed: Seq::new(alloc),
            tip: 0,
            fault: Some(ChainFault::Size),
        });
    }
    read_lines(alloc, text)
}
