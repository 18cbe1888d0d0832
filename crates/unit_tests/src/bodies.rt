// Bodies whose answers are known from the standard.

use code_decode::{BodyFault, decode_body};
use std::alloc::Global;

// What an answer is, in a word, where one block may be open.
fn word(alloc: Global, bytes: &[u8]) -> &'static str {
    if bytes.len() > 1_000_000 {
        return "long";
    }
    match decode_body(alloc, bytes, 1) {
        Ok(_) => "body",
        Err(BodyFault::Malformed) => "malformed",
        Err(BodyFault::Float) => "float",
        Err(BodyFault::Nesting { .. }) => "deep",
        Err(BodyFault::NoMemory) => "no memory",
    }
}

// The bytes, and what they are.
static BODIES: [(&[u8], &str); 4] = [
    // a branch table in a block
    (
        &[
            0x00, 0x02, 0x40, 0x41, 0x00, 0x0E, 0x02, 0x00, 0x01, 0x00, 0x0B, 0x0B,
        ],
        "body",
    ),
    // bytes behind the last `end`
    (&[0x00, 0x0B, 0x0B], "malformed"),
    (&[0x00, 0x43, 0x00, 0x00, 0x80, 0x3F, 0x1A, 0x0B], "float"),
    // two blocks, one in the other
    (&[0x00, 0x02, 0x40, 0x02, 0x40, 0x0B, 0x0B, 0x0B], "deep"),
];

#[test]
fn short_bodies(rt: HostRuntime) {
    for &(bytes, want) in &BODIES {
        assert_eq!(rt; word(rt.alloc(), bytes), want);
    }
}
