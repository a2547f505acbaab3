// A word moved up by each of several numbers of places, and added up.
ghost use Rattle.std.specs.Prelude.{◌≡◌, ◌*◌, ◌^◌};
ghost use Rattle.bits.specs.Bytes.{word};
ghost use Rattle.authenticator.specs.ClosedForm.{registers_at};

// The sum of the word moved up by i places, for each place i of the 32 lowest bits of `m` that is 1, the highest of them place 0.
pub fn product(r: u64, m: u64) -> u64
    ensures { word 64 result ≡ registers_at 64 (λ i. word 64 (r * 2 ^ i)) 0 (word 32 m) }
{
    let r1 = r << 1;
    let r2 = r << 2;
    let r3 = r << 3;
    // Entry v is the sum of the words moved by i, for each place i of the four bits of v that is 1.
    let table = [
        0,
        r3,
        r2,
        r2 ^ r3,
        r1,
        r1 ^ r3,
        r1 ^ r2,
        r1 ^ r2 ^ r3,
        r,
        r ^ r3,
        r ^ r2,
        r ^ r2 ^ r3,
        r ^ r1,
        r ^ r1 ^ r3,
        r ^ r1 ^ r2,
        r ^ r1 ^ r2 ^ r3,
    ];
    // From the last four bits of `m` to the first.
    let mut z: u64 = 0;
    for q in 0..8u32 {
        z = (z << 4) ^ table[((m >> (4 * q)) % 16) as usize];
    }
    z
}
