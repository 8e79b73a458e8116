//! Witness programs (BIP 141).

ghost use Rattle.std.specs.Prelude.{◌≡◌};
ghost use Rattle.spec_compiler.specs.Keyed.OwnScripts as wallets;
ghost use Rattle.spec_deal.specs.Payable as spec;

// Whether a script is this operation, which pushes a version, and a push of so many bytes.
fn is_program(operation: u8, size: u8, script: &[u8]) -> bool
    ensures { result ≡ spec.is_program operation size script.now }
{
    match script {
        [first, second, program @ ..] => {
            *first == operation && *second == size && program.len() == size as usize
        }
        _ => false,
    }
}

/// Whether an output is for the key of this hash (P2WPKH).
pub fn pays_to_key_hash(script: &[u8]) -> bool
    ensures { result ≡ wallets.pays_to_key_hash script.now }
{
    is_program(0, 20, script)
}

/// Whether an output is for whoever shows the script of this hash (P2WSH).
pub(crate) fn pays_to_script_hash(script: &[u8]) -> bool
    ensures { result ≡ spec.pays_to_script_hash script.now }
{
    is_program(0, 32, script)
}

/// Whether an output is for a key of 32 bytes (P2TR, BIP 341).
pub fn has_taproot_form(script: &[u8]) -> bool
    ensures { result ≡ spec.has_taproot_form script.now }
{
    is_program(0x51, 32, script)
}
