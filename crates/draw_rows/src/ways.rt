//! The rows of a contract, in the order of its text.

ghost use Rattle.std.specs.Prelude.{◌≡◌, ◌+◌, ◌++◌, ◌∷◌, [], IfOk, OnOk};
ghost use Rattle.spec_terms.specs.Core.{core as core_of};
ghost use Rattle.bm_syntax.specs.View.{guarded, contract, choice_view, parts_view};
ghost use Rattle.spec_page.specs.Ways as spec;

use crate::conditions::conditions_of;
use crate::figures::plus;
use crate::payments::{first_value, payments_of, sole_payee, value_after};
use bm_syntax::{Advert, Contract, Guarded, Part, Path, PathStep, core, longer};
use spec_data::{OutOfMemory, Seq};
use spec_page::WayRow;
use std::alloc::Global;

// The row of the branch at a path, of whose position this is the value.
fn way_row(
    alloc: Global,
    advert: &Advert,
    path: &Path,
    depth: u32,
    part: Option<u64>,
    value: u64,
    branch: &Guarded,
) -> Result<WayRow, OutOfMemory>
    ensures { IfOk result (λ row. row ≡ spec.way_row advert.now path.now depth part value (guarded branch.now)) }
{
    let conditions = conditions_of(alloc, advert, branch)?;
    let payments = payments_of(alloc, advert, path, value, core(branch))?;
    let path = path.copy(alloc)?;
    Ok(WayRow::Way {
        path,
        depth,
        part,
        conditions,
        payments,
    })
}

// Whether a position has several branches.
fn is_choice(branches: &[Guarded]) -> bool
    ensures { result ≡ spec.is_choice (choice_view branches.now) }
{
    match branches.split_first() {
        None => false,
        Some((_, others)) => match others.split_first() {
            None => false,
            Some(_) => true,
        },
    }
}

// The row before several branches.
fn put_choice(
    rows: &mut Seq<WayRow>,
    depth: u32,
    part: Option<u64>,
    choice: &Contract,
) -> Result<(), OutOfMemory>
    ensures { OnOk result (rows.new ≡ rows.old ++ spec.choice_rows depth part (contract choice.now)) }
{
    if is_choice(&choice.branches) {
        rows.push(WayRow::Choice { depth, part })?;
    }
    Ok(())
}

fn depth_below(depth: u32, choice: &Contract) -> Result<u32, OutOfMemory>
    ensures { IfOk result (λ below. below ≡ spec.depth_below depth (contract choice.now)) }
{
    if is_choice(&choice.branches) {
        plus(depth, 1)
    } else {
        Ok(depth)
    }
}

fn part_below(part: Option<u64>, choice: &Contract) -> Option<u64>
    ensures { result ≡ spec.part_below part (contract choice.now) }
{
    if is_choice(&choice.branches) {
        None
    } else {
        part
    }
}

// The branches of the position at a path, which holds this value, each with all that stands under it.
#[cycle(walk)]
#[tactic(auto, using(std::proofs::Common::append_assoc))]
fn put_branches(
    alloc: Global,
    advert: &Advert,
    rows: &mut Seq<WayRow>,
    position: &Path,
    depth: u32,
    part: Option<u64>,
    value: u64,
    branches: &[Guarded],
) -> Result<(), OutOfMemory>
    ensures { OnOk result (rows.new ≡ rows.old
        ++ spec.branches_rows advert.now position.now depth part value 0 (choice_view branches.now)) }
{
    let under = plus(depth, 1)?;
    let mut number = 0u32;
    for branch in branches {
        let path = longer(alloc, position, PathStep::Branch(number))?;
        let row = way_row(alloc, advert, &path, depth, part, value, branch)?;
        rows.push(row)?;
        put_under(alloc, advert, rows, &path, under, value, branch)?;
        number = plus(number, 1)?;
    }
    Ok(())
}

// What stands under the branch at a path, of whose position this is the value.
#[cycle(walk)]
#[tactic(auto, using(std::proofs::Common::append_assoc))]
fn put_under(
    alloc: Global,
    advert: &Advert,
    rows: &mut Seq<WayRow>,
    path: &Path,
    depth: u32,
    value: u64,
    branch: &Guarded,
) -> Result<(), OutOfMemory>
    ensures { OnOk result (rows.new ≡ rows.old ++ spec.rows_under advert.now path.now depth value (guarded branch.now)) }
{
    match branch {
        Guarded::Auth { body, .. } => put_under(alloc, advert, rows, path, depth, value, body),
        Guarded::After { body, .. } => put_under(alloc, advert, rows, path, depth, value, body),
        Guarded::PutReveal { puts, next, .. } => {
            let after = value_after(advert, value, puts)?;
            put_position(alloc, advert, rows, path, depth, None, after, next)
        }
        Guarded::Withdraw { .. } => Ok(()),
        Guarded::Split { parts } => put_parts(alloc, advert, rows, path, depth, parts),
    }
}

// The rows of a position, none where it pays alone.
#[cycle(walk)]
#[tactic(auto, using(std::proofs::Common::append_assoc))]
fn put_position(
    alloc: Global,
    advert: &Advert,
    rows: &mut Seq<WayRow>,
    position: &Path,
    depth: u32,
    part: Option<u64>,
    value: u64,
    choice: &Contract,
) -> Result<(), OutOfMemory>
    ensures { OnOk result (rows.new ≡ rows.old ++ spec.unless_paid (spec.sole_payee (contract choice.now))
        (spec.choice_rows depth part (contract choice.now)
        ++ spec.branches_rows advert.now position.now (spec.depth_below depth (contract choice.now))
        (spec.part_below part (contract choice.now)) value 0 (contract choice.now))) }
{
    match sole_payee(&choice.branches) {
        Some(_) => Ok(()),
        None => {
            put_choice(rows, depth, part, choice)?;
            let below = depth_below(depth, choice)?;
            let shown = part_below(part, choice);
            put_branches(
                alloc,
                advert,
                rows,
                position,
                below,
                shown,
                value,
                &choice.branches,
            )
        }
    }
}

// The parts of the split at a path.
#[cycle(walk)]
#[tactic(auto, using(std::proofs::Common::append_assoc))]
fn put_parts(
    alloc: Global,
    advert: &Advert,
    rows: &mut Seq<WayRow>,
    path: &Path,
    depth: u32,
    parts: &[Part],
) -> Result<(), OutOfMemory>
    ensures { OnOk result (rows.new ≡ rows.old ++ spec.parts_rows advert.now path.now depth 0 (parts_view parts.now)) }
{
    let mut number = 0u32;
    for part in parts {
        let position = longer(alloc, path, PathStep::Part(number))?;
        put_position(
            alloc,
            advert,
            rows,
            &position,
            depth,
            Some(part.value),
            part.value,
            &part.next,
        )?;
        number = plus(number, 1)?;
    }
    Ok(())
}

/// All rows of a contract.
#[tactic(auto, using(std::proofs::Common::append_assoc))]
pub(crate) fn way_rows(alloc: Global, advert: &Advert) -> Result<Seq<WayRow>, OutOfMemory>
    ensures { IfOk result (λ rows. rows ≡ spec.way_rows advert.now) }
{
    let mut rows = Seq::new(alloc);
    put_choice(&mut rows, 0, None, &advert.root)?;
    let depth = depth_below(0, &advert.root)?;
    let value = first_value(advert)?;
    let root = Path::of(Vec::new(alloc));
    put_branches(
        alloc,
        advert,
        &mut rows,
        &root,
        depth,
        None,
        value,
        &advert.root.branches,
    )?;
    Ok(rows)
}
