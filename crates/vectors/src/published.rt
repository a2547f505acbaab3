// The vectors of source document 000's appendix. The printed streams have no coded AD length, and the first is under the blank key,
// which the calls refuse: so they are runs of the machine.
use crate::report::Report;
use machine::edition::Edition;
use machine::engine::{self, Engine};
use std::io;

// The second vector's.
pub const KEY: [u8; 16] = [
    0x01, 0x23, 0x45, 0x67, 0x89, 0xab, 0xcd, 0xef, 0x12, 0x34, 0x56, 0x78, 0x9a, 0xbc, 0xde, 0xf0,
];

pub const NONCE: [u8; 12] = [
    0x01, 0x23, 0x45, 0x67, 0x89, 0xab, 0xcd, 0xef, 0x12, 0x34, 0x56, 0x78,
];

// Whether the first sixteen keystream bytes are those given: zeros are enciphered.
fn keystream_is(begun: Engine, expected: &[u8; 16]) -> bool {
    let mut now = begun;
    for byte in expected {
        let c = engine::crypt_byte(now, 0, true);
        if c.text != *byte {
            return false;
        }
        now = c.engine;
    }
    true
}

pub fn run(report: &mut Report<'_, impl Print>) -> io::Result<()> {
    let zeros = startup::start(Edition::First, &[0u8; 16], &[0u8; 12]);
    let stream1 = [
        0xc8, 0x00, 0xa5, 0x2f, 0x94, 0x8b, 0x89, 0xb8, 0x5c, 0xee, 0x6c, 0xfd, 0x85, 0x71, 0xf9,
        0x0f,
    ];
    let second = startup::start(Edition::First, &KEY, &NONCE);
    let stream2 = [
        0xc2, 0xb9, 0x18, 0xc6, 0xba, 0xf6, 0xde, 0xa0, 0x86, 0x52, 0x00, 0xd4, 0x68, 0x58, 0xa3,
        0x7b,
    ];
    report.lines(&[
        ("000, vector 1: keystream", keystream_is(zeros, &stream1)),
        (
            "000, vector 1: tag of the empty message",
            engine::finish(zeros) == 0xaab5_55c0_73e6_7664,
        ),
        ("000, vector 2: keystream", keystream_is(second, &stream2)),
        (
            "000, vector 2: tag of the message FF",
            engine::finish(engine::absorb_byte(second, 0xff)) == 0x782f_4c4a_8907_ba7f,
        ),
    ])
}
