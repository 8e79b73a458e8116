//! The checksum of addresses.

ghost use Rattle.std.specs.Prelude.{◌≡◌, ◌/◌, ◌%◌, map};
ghost use Rattle.spec_address.specs.Checksum as spec;

/// What is folded in for the bits 0, 1, 2, 3 and 4 of what is shifted out.
const GENERATORS: [u32; 5] = [0x3b6a57b2, 0x26508e6d, 0x1ea119fa, 0x3d4233dd, 0x2a1462b3];

/// The checksum of an address of version 0, by BIP 173.
const FIRST_MARK: u32 = 1;

/// The checksum of an address of a later version, by BIP 350.
const LATER_MARK: u32 = 0x2bc830a3;

// The generator, if the lowest bit is 1.
fn chosen(bits: u32, generator: u32) -> u32
    ensures { result ≡ spec.chosen bits generator }
{
    if bits % 2 == 1 { generator } else { 0 }
}

// The state with the generators folded in whose bits are 1.
fn folded(bits: u32, state: u32) -> u32
    ensures { result ≡ spec.folded bits spec.generators state }
{
    let mut rest = bits;
    let mut next = state;
    for generator in &GENERATORS {
        next ^= chosen(rest, *generator);
        rest /= 2;
    }
    next
}

// The state behind one value more.
#[tactic(auto, unfolding(spec_address::specs::Checksum::next_state))]
fn next_state(state: u32, value: u8) -> u32
    ensures { result ≡ spec.next_state state value }
{
    folded(state >> 25, state % (1 << 25) * 32 ^ value as u32)
}

// The state behind these values.
fn state_behind(state: u32, values: &[u8]) -> u32
    ensures { result ≡ spec.state_from state values.now }
{
    let mut next = state;
    for value in values {
        next = next_state(next, *value);
    }
    next
}

// The state behind the high bits of each character.
fn behind_high_bits(state: u32, hrp: &[u8]) -> u32
    ensures { result ≡ spec.state_from state (map (λ b. b / 32) hrp.now) }
{
    let mut next = state;
    for character in hrp {
        next = next_state(next, *character / 32);
    }
    next
}

// The state behind the low bits of each character.
fn behind_low_bits(state: u32, hrp: &[u8]) -> u32
    ensures { result ≡ spec.state_from state (map (λ b. b % 32) hrp.now) }
{
    let mut next = state;
    for character in hrp {
        next = next_state(next, *character % 32);
    }
    next
}

// The state behind a human-readable part.
fn behind_hrp(hrp: &[u8]) -> u32
    ensures { result ≡ spec.checksum (spec.extended hrp.now) }
{
    let high = behind_high_bits(1, hrp);
    let between = next_state(high, 0);
    behind_low_bits(between, hrp)
}

fn mark(version: u8) -> u32
    ensures { result ≡ spec.mark version }
{
    if version == 0 { FIRST_MARK } else { LATER_MARK }
}

// A number of 30 bits as six values, the highest first.
fn six_values(number: u32) -> [u8; 6]
    ensures { result ≡ spec.six_values number }
{
    [
        ((number >> 25) % 32) as u8,
        ((number >> 20) % 32) as u8,
        ((number >> 15) % 32) as u8,
        ((number >> 10) % 32) as u8,
        ((number >> 5) % 32) as u8,
        (number % 32) as u8,
    ]
}

/// The last six values of an address, each below 32, by its version and all the values behind the human-readable part.
#[tactic(auto, unfolding(spec_address::specs::Checksum::check_values))]
pub(crate) fn check_values(hrp: &[u8], version: u8, values: &[u8]) -> [u8; 6]
    ensures { result ≡ spec.check_values hrp.now version values.now }
{
    let before = behind_hrp(hrp);
    let behind = state_behind(before, values);
    let last = state_behind(behind, &[0; 6]);
    six_values(last ^ mark(version))
}
