//! How wide columns are.

ghost use Rattle.std.specs.Prelude.{◌≡◌, ◌+◌, ◌++◌, [], sum_by, IfOk, OnOk};
ghost use Rattle.spec_page.specs.SvgLayout as spec;
ghost use Rattle.draw_svg.specs.Endings.{widths_of};
ghost use Rattle.draw_svg.specs.Columns.{first_or, others};

use crate::flow::{reach, row_lines};
use crate::sizes::items_size;
use draw_page::further;
use spec_data::{OutOfMemory, Seq};
use spec_page::{Cell, GridRow};
use std::alloc::Global;

/// The columns of paths, of what stands beside them, and of sums.
pub(crate) struct Widths {
    pub path: usize,
    pub what: usize,
    pub sums: Seq<usize>,
}

impl Drop for Widths {
    fn drop(self) {
        let Widths {
            path: _,
            what: _,
            sums: _,
        } = self;
    }
}

fn first_or(none: usize, widths: &[usize]) -> usize
    ensures { result ≡ first_or none widths.now }
{
    match widths.first() {
        None => none,
        Some(width) => *width,
    }
}

fn others<'a>(widths: &'a [usize]) -> &'a [usize]
    ensures { result.now ≡ others widths.now }
{
    match widths.split_first() {
        None => widths,
        Some((_, others)) => others,
    }
}

// Columns that the other row lacks.
#[tactic(auto, using(std::proofs::Common::append_assoc, crate::proofs::ColumnLemmas::wider_end))]
fn put_rest(all: &mut Seq<usize>, rest: &[usize]) -> Result<(), OutOfMemory>
    ensures { OnOk result (all.new ≡ all.old ++ spec.wider rest.now []) }
{
    for width in rest {
        all.push(*width)?;
    }
    Ok(())
}

// The columns of sums with those of another row.
#[tactic(auto, using(std::proofs::Common::append_assoc, crate::proofs::ColumnLemmas::wider_step, crate::proofs::ColumnLemmas::wider_end))]
fn wider(alloc: Global, widths: &[usize], cells: &[Cell]) -> Result<Seq<usize>, OutOfMemory>
    ensures { IfOk result (λ w. w ≡ spec.wider widths.now cells.now) }
{
    let mut all = Seq::new(alloc);
    let mut left = widths;
    for cell in cells {
        let own = items_size(cell.items.as_slice())?;
        let width = first_or(0, left).max(own);
        all.push(width)?;
        left = others(left);
    }
    put_rest(&mut all, left)?;
    Ok(all)
}

// The columns with another row.
fn with_row(alloc: Global, widths: &Widths, row: &GridRow) -> Result<Widths, OutOfMemory>
    ensures { IfOk result (λ w. widths_of w ≡ spec.with_row (widths_of widths.now) row.now) }
{
    let path = items_size(row.path.as_slice())?;
    let what = reach(row.indent as usize, 34, row.what.as_slice())?;
    let sums = wider(alloc, widths.sums.as_slice(), row.sums.as_slice())?;
    Ok(Widths {
        path: widths.path.max(path),
        what: widths.what.max(what),
        sums,
    })
}

/// The columns of these rows.
pub(crate) fn widths_for(alloc: Global, rows: &[GridRow]) -> Result<Widths, OutOfMemory>
    ensures { IfOk result (λ w. widths_of w ≡ spec.widths rows.now) }
{
    let mut widths = Widths {
        path: 0,
        what: 0,
        sums: Seq::new(alloc),
    };
    for row in rows {
        widths = with_row(alloc, &widths, row)?;
    }
    Ok(widths)
}

fn sum_of(widths: &[usize]) -> Result<usize, OutOfMemory>
    ensures { IfOk result (λ n. n ≡ sum_by (λ w. w) widths.now) }
{
    let mut sum = 0;
    for width in widths {
        sum = further(sum, *width)?;
    }
    Ok(sum)
}

pub(crate) fn table_width(widths: &Widths) -> Result<usize, OutOfMemory>
    ensures { IfOk result (λ n. n ≡ spec.table_width (widths_of widths.now)) }
{
    let beside = further(widths.path, widths.what)?;
    let sums = sum_of(widths.sums.as_slice())?;
    further(beside, sums)
}

/// How many lines these rows have.
pub(crate) fn lines_of(rows: &[GridRow]) -> Result<usize, OutOfMemory>
    ensures { IfOk result (λ n. n ≡ spec.lines_behind 0 rows.now) }
{
    let mut lines = 0;
    for row in rows {
        let own = row_lines(row)?;
        lines = further(lines, own)?;
    }
    Ok(lines)
}
