//! What a text gives to a contract: a deal, or a part of one.

ghost use Rattle.std.specs.Prelude.{◌≡◌, ◌≤◌, [], length, map, IfOk};
ghost use Rattle.spec_text.specs.Lines.{lines_of};
ghost use Rattle.spec_deal.specs.Sizes.{most_deal_bytes};
ghost use Rattle.spec_deal.specs.Needed as spec_needs;
ghost use Rattle.spec_deal.specs.DealFile as spec;
ghost use Rattle.spec_deal.specs.Verifier.{secp256k1};
ghost use Rattle.deal_file.specs.Entries.{needed_in, told, IsTied};
ghost use Rattle.deal_file.specs.Gives.{at_line, Gives};

use crate::entries::Entries;
use crate::error::{DealError, LineError};
use crate::keying::{Need, need_key};
use crate::lines::take_line;
use crate::needs::needed;
use crate::network::file_network;
use crate::part::Part;
use crate::whole::whole_deal;
use bm_runfile::first_line;
use bm_wellformed::Checked;
use deal_index::Indexed;
use spec_data::{Name, OutOfMemory};
use spec_deal::{Deal, DealFault, Needed};
use std::alloc::Global;

/// The most bytes of a deal file.
const MOST_DEAL_BYTES: usize = 8_388_608;

// These needs, each found by its kind and text.
fn indexed(alloc: Global, all: &[Needed]) -> Result<Indexed<Need>, OutOfMemory>
    ensures { IfOk result (λ needs. map needed_in needs ≡ all.now) }
{
    let mut needs = Indexed::new(alloc);
    for needed in all {
        let key = need_key(alloc, needed)?;
        let needed = needed.copy(alloc)?;
        needs.push(Need { needed }, key)?;
    }
    Ok(needs)
}

// All that a contract needs, each found by its kind and text.
fn needs_of(alloc: Global, checked: &Checked) -> Result<Indexed<Need>, OutOfMemory>
    ensures { IfOk result (λ needs. map needed_in needs ≡ spec_needs.needed checked.now) }
{
    let all = needed(alloc, checked)?;
    indexed(alloc, &all)
}

fn at_line(error: LineError, line: u32) -> DealError
    ensures { result ≡ at_line error line }
{
    match error {
        LineError::Bad(reason) => DealError::Refused(DealFault::Line(line, reason)),
        LineError::Memory => DealError::Memory,
    }
}

// What the lines of a file of this network give.
fn network_entries(
    alloc: Global,
    checked: &Checked,
    needs: &Indexed<Need>,
    network: &Option<Name>,
    text: &[u8],
) -> Result<Entries, DealError>
    requires needs { map needed_in needs.now ≡ spec_needs.needed checked.now }
    requires size { length text.now ≤ most_deal_bytes }
    ensures gives { Gives told result (spec.read_entries secp256k1 network.now checked.now [] 1 (lines_of text.now)) }
{
    let mut entries = Entries::new(alloc);
    let mut rest = text;
    let mut line = 1u32;
    while !rest.is_empty() {
        let (prefix, more) = first_line(rest);
        if let Err(error) = take_line(alloc, checked, needs, network, &mut entries, line, prefix) {
            return Err(at_line(error, line));
        }
        rest = more;
        line += 1;
    }
    Ok(entries)
}

// What the lines of a text give.
fn read_lines(
    alloc: Global,
    checked: &Checked,
    needs: &Indexed<Need>,
    text: &[u8],
) -> Result<Entries, DealError>
    requires needs { map needed_in needs.now ≡ spec_needs.needed checked.now }
    requires size { length text.now ≤ most_deal_bytes }
    ensures gives { Gives told result (spec.read_lines secp256k1 checked.now (lines_of text.now)) }
{
    let network = file_network(alloc, text)?;
    network_entries(alloc, checked, needs, &network, text)
}

// The deal of a text that isn't too long.
fn deal_of(alloc: Global, checked: &Checked, text: &[u8]) -> Result<Deal, DealError>
    requires { length text.now ≤ most_deal_bytes }
    ensures { Gives (λ d. d) result (spec.deal_judged checked.now (spec.read_lines secp256k1 checked.now (lines_of text.now))) }
{
    let needs = needs_of(alloc, checked)?;
    let entries = read_lines(alloc, checked, &needs, text)?;
    whole_deal(alloc, checked, needs.as_slice(), &entries)
}

/// The deal that a text gives to a contract, or why it is refused before anything is compiled.
pub fn read_deal(alloc: Global, checked: &Checked, text: &[u8]) -> Result<Deal, DealError>
    ensures { Gives (λ d. d) result (spec.read_deal secp256k1 checked.now text.now) }
{
    if text.len() > MOST_DEAL_BYTES {
        return Err(DealError::Refused(DealFault::Size));
    }
    deal_of(alloc, checked, text)
}

// What the lines of a text give that isn't too long.
fn part_of(alloc: Global, checked: &Checked, text: &[u8]) -> Result<Part, DealError>
    requires { length text.now ≤ most_deal_bytes }
    ensures { Gives (λ p. p) result (spec.read_lines secp256k1 checked.now (lines_of text.now)) }
{
    let needs = needs_of(alloc, checked)?;
    let entries = read_lines(alloc, checked, &needs, text)?;
    Ok(Part::of(entries))
}

/// What the lines of a text give to a contract, which may lack some, or why it is refused.
pub fn read_part(alloc: Global, checked: &Checked, text: &[u8]) -> Result<Part, DealError>
    ensures { Gives (λ p. p) result (spec.read_part secp256k1 checked.now text.now) }
{
    if text.len() > MOST_DEAL_BYTES {
        return Err(DealError::Refused(DealFault::Size));
    }
    part_of(alloc, checked, text)
}
