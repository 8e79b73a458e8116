//! The key of a label, and the book of what keys have signed.

use bm_book::Book;
use bm_hash::{Sha, Trail};
use bm_keys::{key, label_text, read_label};
use std::test::Fail;

// 02, and the SHA-256 of `B:12:r.0/1.2:B`.
const KEY: [u8; 33] = [
    0x02, 0x55, 0x46, 0x09, 0x36, 0xb8, 0xfa, 0xbe, 0x3f, 0x93, 0xeb, 0xe8, 0x25, 0xca, 0x12, 0xae,
    0x3c, 0xf0, 0xb4, 0x5f, 0x0a, 0x60, 0xb1, 0x27, 0x57, 0xd3, 0x65, 0xc3, 0xed, 0xb6, 0xbd, 0x13,
    0x4d,
];

#[test]
fn key_of_a_branch(rt: HostRuntime) -> Result<(), Fail> {
    let text = b"B:12:r.0/1.2:B";
    let label = read_label(rt.alloc(), text).map_err(|_| "no label")?;
    let written = label_text(rt.alloc(), &label)?;
    assert!(rt; written.as_slice() == text.as_slice());
    let mut trail = Trail::new(rt.alloc(), Sha);
    assert!(rt; key(rt.alloc(), &mut trail, &label) == Ok(KEY));
    Ok(())
}

/// A search from the prefix would compare some hundred thousand million pairs.
#[test]
fn half_a_million_pairs_take_no_search(rt: HostRuntime) -> Result<(), Fail> {
    let mut book = Book::new(rt.alloc());
    for number in 0u32..500_000 {
        let mut digest = [0; 32];
        digest[..4].copy_from_slice(&number.to_le_bytes());
        book.sign(KEY, digest)?;
    }
    assert_eq!(rt; book.count(), 500_000);
    Ok(())
}
