//! The good addresses of BIP 173 and BIP 350, each with its human-readable part and its script in hexadecimal.

use deal_address::{address, is_hrp, is_witness_output, read_address};
use std::test::Fail;

const GOOD: &[(&str, &str, &str)] = &[
    // BIP 173, "Examples" and "Test vectors"
    (
        "bc",
        "BC1QW508D6QEJXTDG4Y5R3ZARVARY0C5XW7KV8F3T4",
        "0014751e76e8199196d454941c45d1b3a323f1433bd6",
    ),
    (
        "tb",
        "tb1qw508d6qejxtdg4y5r3zarvary0c5xw7kxpjzsx",
        "0014751e76e8199196d454941c45d1b3a323f1433bd6",
    ),
    (
        "bc",
        "bc1qrp33g0q5c5txsp9arysrx4k6zdkfs4nce4xj0gdcccefvpysxf3qccfmv3",
        "00201863143c14c5166804bd19203356da136c985678cd4d27a1b8c6329604903262",
    ),
    (
        "tb",
        "tb1qrp33g0q5c5txsp9arysrx4k6zdkfs4nce4xj0gdcccefvpysxf3q0sl5k7",
        "00201863143c14c5166804bd19203356da136c985678cd4d27a1b8c6329604903262",
    ),
    (
        "tb",
        "tb1qqqqqp399et2xygdj5xreqhjjvcmzhxw4aywxecjdzew6hylgvsesrxh6hy",
        "0020000000c4a5cad46221b2a187905e5266362b99d5e91c6ce24d165dab93e86433",
    ),
    // BIP 350, "Test vectors for v0-v16 native segregated witness addresses"
    (
        "bc",
        "bc1pw508d6qejxtdg4y5r3zarvary0c5xw7kw508d6qejxtdg4y5r3zarvary0c5xw7kt5nd6y",
        "5128751e76e8199196d454941c45d1b3a323f1433bd6751e76e8199196d454941c45d1b3a323f1433bd6",
    ),
    ("bc", "BC1SW50QGDZ25J", "6002751e"),
    (
        "bc",
        "bc1zw508d6qejxtdg4y5r3zarvaryvaxxpcs",
        "5210751e76e8199196d454941c45d1b3a323",
    ),
    (
        "tb",
        "tb1pqqqqp399et2xygdj5xreqhjjvcmzhxw4aywxecjdzew6hylgvsesf3hn0c",
        "5120000000c4a5cad46221b2a187905e5266362b99d5e91c6ce24d165dab93e86433",
    ),
    (
        "bc",
        "bc1p0xlxvlhemja6c4dqv22uapctqupfhlxm9h8z3k2e72q4k9hcz7vqzk5jj0",
        "512079be667ef9dcbbac55a06295ce870b07029bfcdb2dce28d959f2815b16f81798",
    ),
    // 90 characters, by a program of the two BIPs that was written apart from this one
    (
        "!0123456789:;<=>~_",
        "!0123456789:;<=>~_1sqqqsyqcyq5rqwzqfpg9scrgwpugpzysnzs23v9ccrydpk8qarc0jqgfzyvjz2f38s4xlsu",
        "6028000102030405060708090a0b0c0d0e0f101112131415161718191a1b1c1d1e1f2021222324252627",
    ),
];

/// Each is read as its script, which is written as the address in small letters.
#[test]
fn good_addresses_are_read_and_written(rt: HostRuntime) -> Result<(), Fail> {
    let alloc = rt.alloc();
    for (hrp, word, digits) in GOOD {
        let script = hex::decode(alloc, digits)?;
        let small = word.to_ascii_lowercase(alloc)?;
        assert!(rt;
            is_hrp(hrp.as_bytes()) && is_witness_output(&script),
            "{word}"
        );
        let read = read_address(alloc, hrp.as_bytes(), word.as_bytes())?.ok_or("not read")?;
        assert!(rt; read.as_slice() == script.as_slice(), "{word}");
        let written = address(alloc, hrp.as_bytes(), &script)?.ok_or("not written")?;
        assert!(rt; written.as_slice() == small.as_bytes(), "{word}");
    }
    Ok(())
}
