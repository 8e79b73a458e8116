//! Texts one behind another, in lines.

ghost use Rattle.std.specs.Prelude.{◌≡◌, IfOk};
ghost use Rattle.spec_page.specs.SvgLayout as spec;
ghost use Rattle.draw_svg.specs.Endings.{spot_of};

use crate::sizes::size;
use draw_page::further;
use spec_data::OutOfMemory;
use spec_page::{GridRow, Item};

/// A line, and a character of it.
#[derive(Clone, Copy)]
pub(crate) struct Spot {
    pub line: usize,
    pub at: usize,
}

/// The spot of so many characters: the next one where they end before the limit, or else the beginning of the line below.
pub(crate) fn fitting(
    begin: usize,
    limit: usize,
    spot: Spot,
    count: usize,
) -> Result<Spot, OutOfMemory>
    ensures { IfOk result (λ s. spot_of s ≡ spec.fitting begin limit (spot_of spot) count) }
{
    let end = further(spot.at, count)?;
    if spot.at == begin || end <= limit {
        return Ok(spot);
    }
    let line = further(spot.line, 1)?;
    Ok(Spot { line, at: begin })
}

/// The spot behind so many characters.
pub(crate) fn behind(spot: Spot, count: usize) -> Result<Spot, OutOfMemory>
    ensures { IfOk result (λ s. spot_of s ≡ spec.behind (spot_of spot) count) }
{
    let at = further(spot.at, count)?;
    Ok(Spot {
        line: spot.line,
        at,
    })
}

/// The character behind the last of these texts.
pub(crate) fn reach(begin: usize, limit: usize, items: &[Item]) -> Result<usize, OutOfMemory>
    ensures { IfOk result (λ n. n ≡ spec.reach (spec.flowing begin limit (spec.spot 0 begin) items.now)) }
{
    let mut most = 0usize;
    let mut spot = Spot { line: 0, at: begin };
    for item in items {
        let own = size(item)?;
        let place = fitting(begin, limit, spot, own)?;
        spot = behind(place, own)?;
        most = most.max(spot.at);
    }
    Ok(most)
}

/// The line of the last of these texts.
pub(crate) fn last_line(begin: usize, limit: usize, items: &[Item]) -> Result<usize, OutOfMemory>
    ensures { IfOk result (λ n. n ≡ spec.last_line 0 (spec.flowing begin limit (spec.spot 0 begin) items.now)) }
{
    let mut spot = Spot { line: 0, at: begin };
    for item in items {
        let own = size(item)?;
        let place = fitting(begin, limit, spot, own)?;
        spot = behind(place, own)?;
    }
    Ok(spot.line)
}

/// How many lines a row has.
pub(crate) fn row_lines(row: &GridRow) -> Result<usize, OutOfMemory>
    ensures { IfOk result (λ n. n ≡ spec.row_lines row.now) }
{
    let last = last_line(row.indent as usize, 34, row.what.as_slice())?;
    further(last, 1)
}
