// The machine over whole byte strings, in the order of bits of its edition: the words of four bytes first, then the bytes that are left.
#![tactic(auto)]

ghost use Rattle.std.specs.Prelude.{◌≡◌, true, cond, ◌∷◌, [], ◌++◌, ◌+◌, ◌*◌, ◌/◌, ◌≤◌, length, take, drop};
ghost use Rattle.preoutput.specs.Words.{generator_of};
ghost use Rattle.strokes.specs.Streams.{spacing};
ghost use Rattle.machine.specs.Machine.{run, decipher};
ghost use Rattle.machine.specs.Engine.{state_of};
ghost use Rattle.startup.specs.Editions.{bits_in};
ghost use Rattle.strings.specs.Strings.{Room, pasted, CryptsAll, Continues, with_keystream, Adds};

use machine::edition::Edition;
use machine::engine::{self, Engine};
use preoutput::Registers;
use startup::editions;
use strokes::streams::{self, Taken};

// Writes the n lowest bytes of a word from place `at` on, or nothing.
fn put(edition: Edition, out: &mut [u8], at: usize, n: usize, w: u64, writes: bool)
    requires { (n ≤ 8) × Room writes (at + n) out.old }
    ensures { out.new ≡ cond writes (pasted edition out.old at n w) out.old }
{
    if writes {
        let end = at + n;
        bits::spell(editions::ordered(edition, w), &mut out[at..end]);
    }
}

// The whole words of a string, enciphered or deciphered; they are written to the front of the output, or not.
fn crypt_words(e: Engine, s: &[u8], out: &mut [u8], sealing: bool, writes: bool) -> Engine
    requires { Room writes (length s.now) out.old }
    ensures { CryptsAll e.edition writes sealing (state_of e) (take (length s.now / 4 * 4) s.now) out.old out.new result }
{
    let mut now = e;
    for (i, four) in s.chunks_exact(4).enumerate() {
        let c = engine::crypt_word(
            now,
            editions::ordered(e.edition, bits::number(four)),
            sealing,
        );
        put(e.edition, out, i * 4, 4, c.text, writes);
        now = c.engine;
    }
    now
}

// The bytes from place `from` on, behind those before it.
fn crypt_rest(
    e: Engine,
    s: &[u8],
    from: usize,
    out: &mut [u8],
    sealing: bool,
    writes: bool,
) -> Engine
    requires { (from ≤ length s.now) × Room writes (length s.now) out.old }
    ensures { Continues e.edition writes sealing e result (take from s.now) s.now out.old out.new }
{
    let mut now = e;
    for (i, &byte) in s[from..].iter().enumerate() {
        let c = engine::crypt_byte(now, editions::ordered_byte(e.edition, byte), sealing);
        put(e.edition, out, from + i, 1, bits::wide(c.text), writes);
        now = c.engine;
    }
    now
}

// A whole string. Where nothing is to be written, the output may be too short for it.
fn crypt(e: Engine, s: &[u8], out: &mut [u8], sealing: bool, writes: bool) -> Engine
    requires { Room writes (length s.now) out.old }
    ensures { CryptsAll e.edition writes sealing (state_of e) s.now out.old out.new result }
{
    let words = crypt_words(e, s, out, sealing, writes);
    crypt_rest(words, s, s.len() / 4 * 4, out, sealing, writes)
}

// A byte whose keystream is dropped.
pub fn absorb_byte(e: Engine, m: u8) -> Engine
    ensures { state_of result ≡ run (state_of e) (bits_in e.edition (m ∷ [])) }
{
    engine::absorb_byte(e, editions::ordered_byte(e.edition, m))
}

// Bytes whose keystream is dropped.
pub fn absorb_all(e: Engine, s: &[u8]) -> Engine
    ensures { state_of result ≡ run (state_of e) (bits_in e.edition s.now) }
{
    crypt(e, s, &mut [], true, false)
}

// The message that a ciphertext hides, which is handed to the machine alone.
pub fn decipher_all(e: Engine, s: &[u8]) -> Engine
    ensures { state_of result ≡ run (state_of e) (decipher (state_of e) (bits_in e.edition s.now)) }
{
    crypt(e, s, &mut [], false, false)
}

// A message enciphered to the front of the output. Only the bytes that it has room for are taken.
pub fn encipher_all(e: Engine, s: &[u8], out: &mut [u8]) -> Engine
    ensures { CryptsAll e.edition true true (state_of e) (take (length out.old) s.now) out.old out.new result }
{
    crypt(e, &s[..s.len().min(out.len())], out, true, true)
}

// The whole words of a string with the keystream added, to the front of an output that has room for the string.
fn add_words(edition: Edition, taken: Taken, g: Registers, s: &[u8], out: &mut [u8]) -> Registers
    requires { length s.now ≤ length out.old }
    ensures { Adds edition (spacing taken) (generator_of g) (take (length s.now / 4 * 4) s.now) out.old out.new result }
{
    let mut now = g;
    for (i, four) in s.chunks_exact(4).enumerate() {
        let k = streams::keystream_word(now, taken);
        let x = editions::ordered(edition, bits::number(four));
        put(edition, out, i * 4, 4, x ^ k.keystream, true);
        now = k.registers;
    }
    now
}

// A string with the keystream added byte by byte, to the front of an output that has room for it.
fn add_bytes(edition: Edition, taken: Taken, g: Registers, s: &[u8], out: &mut [u8]) -> Registers
    requires { length s.now ≤ length out.old }
    ensures { Adds edition (spacing taken) (generator_of g) s.now out.old out.new result }
{
    let mut now = g;
    for (i, &byte) in s.iter().enumerate() {
        let k = streams::keystream_byte(now, taken);
        let x = editions::ordered_byte(edition, byte);
        put(edition, out, i, 1, bits::wide(x) ^ k.keystream, true);
        now = k.registers;
    }
    now
}

// The same, whole words first.
fn add_fitting(edition: Edition, taken: Taken, g: Registers, s: &[u8], out: &mut [u8])
    requires { length s.now ≤ length out.old }
    ensures { out.new ≡ with_keystream edition (spacing taken) (generator_of g) s.now ++ drop (length s.now) out.old }
{
    let added = s.len() / 4 * 4;
    let words = add_words(edition, taken, g, s, out);
    add_bytes(edition, taken, words, &s[added..], &mut out[added..]);
}

// A string with a generator's keystream added, to the front of the output: only the bytes that it has room for are taken. Nothing is handed
// to an authenticator.
pub fn add_keystream(edition: Edition, taken: Taken, g: Registers, s: &[u8], out: &mut [u8])
    ensures { out.new ≡ with_keystream edition (spacing taken) (generator_of g) (take (length out.old) s.now) ++ drop (length (take (length out.old) s.now)) out.old }
{
    add_fitting(edition, taken, g, &s[..s.len().min(out.len())], out);
}
