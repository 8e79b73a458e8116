//! Scripts of witness outputs, by BIP 141.

ghost use Rattle.std.specs.Prelude.{◌≡◌, ◌<◌, ◌∷◌};
ghost use Rattle.spec_address.specs.Address as spec;

// Whether an operation pushes a version from 0 to 16.
fn pushes_version(operation: u8) -> bool
    ensures { result ≡ spec.pushes_version operation }
{
    operation == 0 || operation >= 0x51 && operation <= 0x60
}

/// The version that an operation pushes.
pub(crate) fn version_of(operation: u8) -> u8
    ensures { result ≡ spec.version_of operation }
{
    operation.saturating_sub(0x50)
}

/// The operation that pushes a version.
pub(crate) fn operation_of(version: u8) -> u8
    requires { version < 32 }
    ensures { result ≡ spec.operation_of version }
{
    if version == 0 { 0 } else { version + 0x50 }
}

// Whether a program of the version may have so many bytes.
fn is_program_size(version: u8, size: usize) -> bool
    ensures { result ≡ spec.is_program_size version size }
{
    if version == 0 {
        size == 20 || size == 32
    } else {
        size >= 2 && size <= 40
    }
}

// Whether an operation, a size and a program are such a script.
fn is_output(operation: u8, size: u8, program: &[u8]) -> bool
    ensures { result ≡ spec.is_witness_output (operation ∷ size ∷ program.now) }
{
    if !pushes_version(operation) {
        return false;
    }
    if size as usize != program.len() {
        return false;
    }
    is_program_size(version_of(operation), size as usize)
}

/// Whether a script is that of a witness output, by BIP 141: a version from 0 to 16, and a program of 2 to 40 bytes, for
/// version 0 of 20 or 32.
pub fn is_witness_output(script: &[u8]) -> bool
    ensures { result ≡ spec.is_witness_output script.now }
{
    match script {
        [operation, size, program @ ..] => is_output(*operation, *size, program),
        _ => false,
    }
}
