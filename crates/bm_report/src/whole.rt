//! The text of a run that isn't halted.

ghost use Rattle.std.specs.Prelude.{◌≡◌, ◌<◌, ◌^◌, ◌++◌, codes, flat_map, length, IfOk, OnOk};
ghost use Rattle.std.specs.Fmt.{decimal};
ghost use Rattle.spec_text.specs.RunText.{newline};
ghost use Rattle.spec_text.specs.PlayText as spec;
ghost use Rattle.bm_report.specs.Entries.{entries_by};
ghost use Rattle.spec_text.specs.PlayText.{whole};

use crate::entries::{put_entries, put_start};
use crate::last::{put_moment, put_offers, put_tip};
use crate::secrets::put_all_secrets;
use bm_calculus::Config;
use bm_rows::Rows;
use bm_runfile::{Event, Header};
use spec_calculus::Step;
use spec_data::OutOfMemory;
use spec_run::Record;
use std::alloc::Global;

/// The last configuration: the height, the deposits and contracts, and the lines of the secrets.
#[tactic(auto, using(std::proofs::Common::append_assoc))]
fn put_configuration(alloc: Global, out: &mut Vec<u8>, config: &Config) -> Result<(), OutOfMemory>
    requires { length config.now.contracts < 2 ^ 32 }
    ensures { OnOk result (out.new.items ≡ out.old.items ++ (codes "time " ++ (decimal config.now.time ++ (newline
        ++ (flat_map spec.deposit_line config.now.deposits ++ (flat_map spec.contract_line config.now.active
        ++ spec.secret_lines config.now 0 config.now.contracts)))))) }
{
    put_moment(
        alloc,
        out,
        config.time(),
        config.deposits(),
        config.active(),
    )?;
    put_all_secrets(alloc, out, config)
}

/// The end of a run.
#[tactic(auto, using(std::proofs::Common::append_assoc))]
fn put_end(
    alloc: Global,
    out: &mut Vec<u8>,
    tip: u32,
    live: &[(u32, u64)],
    config: &Config,
    offers: &[Event],
) -> Result<(), OutOfMemory>
    requires { length config.now.contracts < 2 ^ 32 }
    ensures { OnOk result (out.new.items ≡ out.old.items ++ spec.end_text tip live.now config.now offers.now) }
{
    put_tip(alloc, out, tip, live)?;
    put_configuration(alloc, out, config)?;
    put_offers(alloc, out, offers)
}

/// The text of a run of which all events were played.
#[tactic(auto, using(std::proofs::Common::append_assoc))]
pub(crate) fn whole_text(
    alloc: Global,
    header: &Header,
    records: &[Record],
    steps: &Rows<Step>,
    tip: u32,
    live: &[(u32, u64)],
    config: &Config,
    offers: &[Event],
) -> Result<Vec<u8>, OutOfMemory>
    requires each { length steps.now ≡ length records.now }
    requires numbered { length config.now.contracts < 2 ^ 32 }
    ensures { IfOk result (λ text. text.items ≡ spec.report_text header.now.deposits (entries_by records.now steps.now)
        (whole tip live.now config.now offers.now)) }
{
    let mut out = Vec::new(alloc);
    put_start(alloc, &mut out, header.deposits.as_slice())?;
    put_entries(alloc, &mut out, records, steps)?;
    put_end(alloc, &mut out, tip, live, config, offers)?;
    Ok(out)
}
