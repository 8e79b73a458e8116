//! The bad addresses of BIP 173 and BIP 350, each with the human-readable part of the network for which it is read.

use deal_address::read_address;
use std::test::Fail;

const BAD: &[(&str, &str, &str)] = &[
    // BIP 173, "Test vectors"
    (
        "of another network",
        "bc",
        "tc1qw508d6qejxtdg4y5r3zarvary0c5xw7kg3g4ty",
    ),
    (
        "a wrong checksum",
        "bc",
        "bc1qw508d6qejxtdg4y5r3zarvary0c5xw7kv8f3t5",
    ),
    (
        "version 17",
        "bc",
        "BC13W508D6QEJXTDG4Y5R3ZARVARY0C5XW7KN40WF2",
    ),
    ("a program of 1 byte", "bc", "bc1rw5uspcuh"),
    (
        "a program of 41 bytes",
        "bc",
        "bc10w508d6qejxtdg4y5r3zarvary0c5xw7kw508d6qejxtdg4y5r3zarvary0c5xw7kw5rljs90",
    ),
    (
        "version 0 with 16 bytes",
        "bc",
        "BC1QR508D6QEJXTDG4Y5R3ZARVARYV98GJ9P",
    ),
    (
        "both cases",
        "tb",
        "tb1qrp33g0q5c5txsp9arysrx4k6zdkfs4nce4xj0gdcccefvpysxf3q0sL5k7",
    ),
    (
        "more than 4 bits behind the program",
        "bc",
        "bc1zw508d6qejxtdg4y5r3zarvaryvqyzf3du",
    ),
    (
        "bits that are not 0 behind the program",
        "tb",
        "tb1qrp33g0q5c5txsp9arysrx4k6zdkfs4nce4xj0gdcccefvpysxf3pjxtptv",
    ),
    ("no version", "bc", "bc1gmk9yu"),
    // BIP 173, where they are good; BIP 350 gives these versions another constant
    (
        "version 1 with the constant of version 0",
        "bc",
        "bc1pw508d6qejxtdg4y5r3zarvary0c5xw7kw508d6qejxtdg4y5r3zarvary0c5xw7k7grplx",
    ),
    (
        "version 16 with the constant of version 0",
        "bc",
        "BC1SW50QA3JX3S",
    ),
    (
        "version 2 with the constant of version 0",
        "bc",
        "bc1zw508d6qejxtdg4y5r3zarvaryvg6kdaj",
    ),
    // BIP 350, "Test vectors for v0-v16 native segregated witness addresses"
    (
        "of another network",
        "bc",
        "tc1p0xlxvlhemja6c4dqv22uapctqupfhlxm9h8z3k2e72q4k9hcz7vq5zuyut",
    ),
    (
        "version 1 with the constant of version 0",
        "bc",
        "bc1p0xlxvlhemja6c4dqv22uapctqupfhlxm9h8z3k2e72q4k9hcz7vqh2y7hd",
    ),
    (
        "version 2 with the constant of version 0",
        "tb",
        "tb1z0xlxvlhemja6c4dqv22uapctqupfhlxm9h8z3k2e72q4k9hcz7vqglt7rf",
    ),
    (
        "version 16 with the constant of version 0",
        "bc",
        "BC1S0XLXVLHEMJA6C4DQV22UAPCTQUPFHLXM9H8Z3K2E72Q4K9HCZ7VQ54WELL",
    ),
    (
        "version 0 with the constant of later ones",
        "bc",
        "bc1qw508d6qejxtdg4y5r3zarvary0c5xw7kemeawh",
    ),
    (
        "version 0 with the constant of later ones",
        "tb",
        "tb1q0xlxvlhemja6c4dqv22uapctqupfhlxm9h8z3k2e72q4k9hcz7vq24jc47",
    ),
    (
        "a letter without a value",
        "bc",
        "bc1p38j9r5y49hruaue7wxjce0updqjuyyx0kh56v8s25huc6995vvpql3jow4",
    ),
    (
        "version 17",
        "bc",
        "BC130XLXVLHEMJA6C4DQV22UAPCTQUPFHLXM9H8Z3K2E72Q4K9HCZ7VQ7ZWS8R",
    ),
    ("a program of 1 byte", "bc", "bc1pw5dgrnzv"),
    (
        "a program of 41 bytes",
        "bc",
        "bc1p0xlxvlhemja6c4dqv22uapctqupfhlxm9h8z3k2e72q4k9hcz7v8n0nx0muaewav253zgeav",
    ),
    (
        "both cases",
        "tb",
        "tb1p0xlxvlhemja6c4dqv22uapctqupfhlxm9h8z3k2e72q4k9hcz7vq47Zagq",
    ),
    (
        "more than 4 bits behind the program",
        "bc",
        "bc1p0xlxvlhemja6c4dqv22uapctqupfhlxm9h8z3k2e72q4k9hcz7v07qwwzcrf",
    ),
    (
        "bits that are not 0 behind the program",
        "tb",
        "tb1p0xlxvlhemja6c4dqv22uapctqupfhlxm9h8z3k2e72q4k9hcz7vpggkg4j",
    ),
    // BIP 173 and BIP 350, texts with a good checksum that are no addresses
    ("no version", "a", "A12UEL5L"),
    ("no version", "a", "A1LQFN3A"),
    (
        "version 0 with 19 bytes",
        "abcdef",
        "abcdef1qpzry9x8gf2tvdw0s3jn54khce6mua7lmqqqxw",
    ),
    (
        "version 31",
        "abcdef",
        "abcdef1l7aum6echk45nj3s0wdvt2fg8x9yrzpqzd3ryx",
    ),
];

/// None of them is read.
#[test]
fn bad_addresses_are_not_read(rt: HostRuntime) -> Result<(), Fail> {
    for (why, hrp, word) in BAD {
        let read = read_address(rt.alloc(), hrp.as_bytes(), word.as_bytes())?;
        assert!(rt; read.is_none(), "{why}: {word}");
    }
    Ok(())
}
