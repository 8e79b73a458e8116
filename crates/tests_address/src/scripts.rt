//! Scripts without an address, by BIP 141, and human-readable parts that none begins with, by BIP 173.

use deal_address::{address, is_hrp, is_witness_output};
use std::test::Fail;

const WITHOUT: &[(&str, &str)] = &[
    ("nothing", ""),
    ("a version alone", "51"),
    (
        "the hash of a key",
        "76a914751e76e8199196d454941c45d1b3a323f1433bd688ac",
    ),
    (
        "the hash of a script",
        "a914751e76e8199196d454941c45d1b3a323f1433bd687",
    ),
    ("a message", "6a02751e"),
    ("version 0 with 2 bytes", "0002751e"),
    (
        "version 0 with 21 bytes",
        "0015751e76e8199196d454941c45d1b3a323f1433bd600",
    ),
    ("a program of 1 byte", "510175"),
    (
        "a program of 41 bytes",
        "5129751e76e8199196d454941c45d1b3a323f1433bd6751e76e8199196d454941c45d1b3a323f1433bd600",
    ),
    ("an operation before those of versions", "5002751e"),
    ("an operation behind those of versions", "6102751e"),
    ("a byte less than its size", "5103751e"),
    ("a byte more than its size", "5102751e76"),
];

#[test]
fn other_scripts_have_no_address(rt: HostRuntime) -> Result<(), Fail> {
    let alloc = rt.alloc();
    for (what, digits) in WITHOUT {
        let script = hex::decode(alloc, digits)?;
        assert!(rt; !is_witness_output(&script), "{what}");
        assert!(rt; address(alloc, b"bc", &script)?.is_none(), "{what}");
    }
    Ok(())
}

#[test]
fn human_readable_parts_of_networks(rt: HostRuntime) {
    let words: [(&[u8], bool); 10] = [
        (b"bc", true),
        (b"tb", true),
        (b"bcrt", true),
        (b"!", true),
        (b"~~~~~~~~~~~~~~~~~~", true),
        (b"", false),
        (b"~~~~~~~~~~~~~~~~~~~", false),
        (b"bC", false),
        (b"b c", false),
        (b"b\x7f", false),
    ];
    for (word, is_good) in words {
        assert_eq!(rt; is_hrp(word), is_good, "{word:?}");
    }
}
