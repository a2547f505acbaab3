// The designers' vectors of Grain v1, on the machine and through the call, and the call's refusals at their edges. The designers take the lowest bit of a byte
// first, the calls the top bit: so the bits of every byte of key, nonce and keystream are turned round.
use crate::examples::{front, front_mut};
use crate::report::Report;
use bits::turning::turn;
use grainv1::{keystream, starting};
use limits::MESSAGE_LIMIT;
use std::io;

// As printed: eight bytes of key, two more, the nonce, and ten bytes of keystream.
#[derive(Clone, Copy)]
struct Vector {
    key0: u64,
    key1: u64,
    nonce: u64,
    stream0: u64,
    stream1: u64,
}

const VECTORS: [Vector; 2] = [
    Vector {
        key0: 0,
        key1: 0,
        nonce: 0,
        stream0: 0xdee9_31cf_1662_a72f,
        stream1: 0x77d0,
    },
    Vector {
        key0: 0x0123_4567_89ab_cdef,
        key1: 0x1234,
        nonce: 0x0123_4567_89ab_cdef,
        stream0: 0x7f36_2bd3_f7ab_ae20,
        stream1: 0x3664,
    },
];

impl Vector {
    fn on_the_machine(&self) -> bool {
        let g = starting::start(turn(self.key0), turn(self.key1), turn(self.nonce));
        let first = keystream::word(g);
        let second = keystream::word(first.registers);
        turn(first.outputs) == self.stream0 && turn(second.outputs) >> 48 == self.stream1
    }

    // The call with the vector's key and nonce. The key's last bytes are spelled first, with zeros in front of them.
    fn crypt(&self, message: &[u8], out: &mut [u8]) -> i64 {
        let mut key = [0u8; 10];
        let mut nonce = [0u8; 8];
        bits::spell(turn(self.key1), &mut key);
        bits::spell(turn(self.key0), &mut key[..8]);
        bits::spell(turn(self.nonce), &mut nonce);
        capi::grain_v1::tikhoplav_grainv1_crypt(&key, &nonce, message, out)
    }

    // Ten zeros become the keystream, and that becomes ten zeros.
    fn through_the_call(&self) -> bool {
        let mut out = [0xeeu8; 10];
        let mut back = [0xeeu8; 10];
        let there = self.crypt(&[0; 10], &mut out);
        let again = self.crypt(&out, &mut back);
        let first = turn(bits::number(&out[..8]));
        let last = turn(bits::number(&out[8..]));
        let same = first == self.stream0 && last == self.stream1;
        there == 10 && same && again == 10 && back == [0; 10]
    }
}

pub fn published(report: &mut Report<'_, impl Print>) -> io::Result<()> {
    for (i, vector) in VECTORS.iter().enumerate() {
        let n = i + 1;
        report.line(
            format_args!("Grain v1, vector {n}: keystream on the machine"),
            vector.on_the_machine(),
        )?;
        report.line(
            format_args!("Grain v1, vector {n}: keystream through the call, there and back"),
            vector.through_the_call(),
        )?;
    }
    Ok(())
}

// The answer of the call for these sizes.
fn answer(key: &[u8], nonce: &[u8], message: usize, out: usize) -> i64 {
    let bytes = [0x5au8; MESSAGE_LIMIT + 1];
    let mut lent = [0xeeu8; MESSAGE_LIMIT + 1];
    capi::grain_v1::tikhoplav_grainv1_crypt(
        key,
        nonce,
        front(&bytes, message),
        front_mut(&mut lent, out),
    )
}

pub fn edges(report: &mut Report<'_, impl Print>) -> io::Result<()> {
    const MOST: usize = MESSAGE_LIMIT;
    report.lines(&[
        (
            "Grain v1: a 9-byte key with a 9-byte nonce gives 1",
            answer(&[0; 9], &[0; 9], 0, 0) == -1,
        ),
        (
            "Grain v1: a 9-byte nonce with a long message gives 2",
            answer(&[0; 10], &[0; 9], MOST + 1, 0) == -2,
        ),
    ])?;
    for (size, room, outcome, expected) in [
        (MOST + 1, 0, "with no room gives 4", -4),
        (MOST, MOST - 1, "with output one byte short gives 6", -6),
        (
            MOST,
            MOST,
            "passes, under a key of 10 zero bytes",
            MOST as i64,
        ),
    ] {
        let ok = answer(&[0; 10], &[0; 8], size, room) == expected;
        report.line(
            format_args!("Grain v1: message of {size} bytes {outcome}"),
            ok,
        )?;
    }
    Ok(())
}
