//! Outputs in texts.

ghost use Rattle.std.specs.Prelude.{◌≡◌, ◌++◌, OnOk};
ghost use Rattle.std.specs.Option.{option_map};
ghost use Rattle.deal_payees.specs.Shown as spec;

use bm_text::{put, put_hex};
use deal_address::address;
use spec_data::{Name, OutOfMemory};
use std::alloc::Global;

// The address of a script behind a space, where it has one.
fn put_address(
    alloc: Global,
    out: &mut Vec<u8>,
    hrp: &[u8],
    script: &[u8],
) -> Result<(), OutOfMemory>
    ensures { OnOk result (out.new.items ≡ out.old.items ++ spec.behind_space (spec.address_in hrp.now script.now)) }
{
    match address(alloc, hrp, script)? {
        Some(text) => {
            put(out, b" ")?;
            put(out, text.as_slice())
        }
        None => Ok(()),
    }
}

/// An output script as hexadecimal digits, and behind a space its address, where a network is named and the script has one.
pub fn put_output(
    alloc: Global,
    out: &mut Vec<u8>,
    network: Option<&Name>,
    script: &[u8],
) -> Result<(), OutOfMemory>
    ensures { OnOk result (out.new.items ≡ out.old.items ++ spec.output_text (option_map (λ n. n.now) network.entry) script.now) }
{
    put_hex(alloc, out, script)?;
    match network {
        Some(hrp) => put_address(alloc, out, hrp.bytes(), script),
        None => Ok(()),
    }
}
