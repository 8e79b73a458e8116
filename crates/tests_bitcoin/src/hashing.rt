//! Published digests, and trails over each hash.

use bm_hash::{Bytes, Hash32, OutOfMemory, Sha, Toy, Trail, TrailError, Twin};
use std::alloc::Global;
use std::test::Fail;

/// The SHA-256 of the byte 1.
const OF_ONE: [u8; 32] = [
    0x4b, 0xf5, 0x12, 0x2f, 0x34, 0x45, 0x54, 0xc5, 0x3b, 0xde, 0x2e, 0xbb, 0x8c, 0xd2, 0xb7, 0xe3,
    0xd1, 0x60, 0x0a, 0xd6, 0x31, 0xc3, 0x85, 0xa5, 0xd7, 0xcc, 0xe2, 0x3c, 0x77, 0x85, 0x45, 0x9a,
];

// Messages of the standard, with their digests.
const CASES: [(&[u8], [u8; 32]); 3] = [
    (
        b"",
        [
            0xe3, 0xb0, 0xc4, 0x42, 0x98, 0xfc, 0x1c, 0x14, 0x9a, 0xfb, 0xf4, 0xc8, 0x99, 0x6f,
            0xb9, 0x24, 0x27, 0xae, 0x41, 0xe4, 0x64, 0x9b, 0x93, 0x4c, 0xa4, 0x95, 0x99, 0x1b,
            0x78, 0x52, 0xb8, 0x55,
        ],
    ),
    (
        b"abc",
        [
            0xba, 0x78, 0x16, 0xbf, 0x8f, 0x01, 0xcf, 0xea, 0x41, 0x41, 0x40, 0xde, 0x5d, 0xae,
            0x22, 0x23, 0xb0, 0x03, 0x61, 0xa3, 0x96, 0x17, 0x7a, 0x9c, 0xb4, 0x10, 0xff, 0x61,
            0xf2, 0x00, 0x15, 0xad,
        ],
    ),
    (
        b"abcdbcdecdefdefgefghfghighijhijkijkljklmklmnlmnomnopnopq",
        [
            0x24, 0x8d, 0x6a, 0x61, 0xd2, 0x06, 0x38, 0xb8, 0xe5, 0xc0, 0x26, 0x93, 0x0c, 0x3e,
            0x60, 0x39, 0xa3, 0x3c, 0xe4, 0x59, 0x64, 0xff, 0x21, 0x67, 0xf6, 0xec, 0xed, 0xd4,
            0x19, 0xdb, 0x06, 0xc1,
        ],
    ),
];

#[test]
fn sha_gives_the_digests_of_its_standard(rt: HostRuntime) -> Result<(), Fail> {
    for (message, digest) in CASES {
        assert!(rt; Sha.hash32(message) == digest);
    }
    Ok(())
}

fn twin(alloc: Global) -> Result<Twin, OutOfMemory> {
    Ok(Twin {
        first: Bytes::from_slice(alloc, &[1])?,
        second: Bytes::from_slice(alloc, &[2])?,
    })
}

#[test]
fn trails_hash_by_each_hash(rt: HostRuntime) -> Result<(), Fail> {
    let mut trail = Trail::new(rt.alloc(), Sha);
    assert!(rt; trail.hash(&[1]) == Ok(OF_ONE));
    assert!(rt; trail.double(b"abc")?.starts_with(&[0x4f, 0x8b, 0x42, 0xc2]));
    let mut trail = Trail::new(rt.alloc(), Toy);
    assert!(rt; trail.hash(&[1, 2])?.starts_with(&[3, 0]));
    Ok(())
}

#[test]
fn twins_collide(rt: HostRuntime) -> Result<(), Fail> {
    let twin = twin(rt.alloc())?.copy(rt.alloc())?;
    let mut trail = Trail::new(rt.alloc(), twin);
    assert!(rt; trail.hash(&[2]) == Ok(OF_ONE));
    assert!(rt; trail.hash(&[1]) == Err(TrailError::Collided));
    Ok(())
}

/// A search from the prefix would compare some hundred thousand million pairs.
#[test]
fn half_a_million_messages_take_no_search(rt: HostRuntime) -> Result<(), Fail> {
    let mut trail = Trail::new(rt.alloc(), Sha);
    for number in 0u32..500_000 {
        trail.hash(&number.to_le_bytes())?;
    }
    assert!(rt; trail.evidence().is_none());
    Ok(())
}
