// The raw number of a signal.
ghost use Rattle.std.specs.Prelude.{◌≡◌, false, ◌^◌, ◌≤◌, ◌<◌, length};
ghost use Rattle.bits.specs.Bytes.{value, word};
ghost use Rattle.signals.specs.Raw as raws;

// Whether a width is not 1 to 32, or a signal reaches past the end of its message.
pub fn misplaced(bytes: usize, start: u32, width: u32) -> bool
    ensures { result ≡ raws.misplaced bytes start width }
{
    let end = start as usize + width as usize;
    !(1..=32).contains(&width) | (bytes < end.div_ceil(8))
}

// The number that the bits of a signal are, the first bit highest.
fn unsigned(message: &[u8], start: u32, width: u32) -> u64
    requires { raws.misplaced (length message.now) start width ≡ false }
    ensures { result ≡ value (raws.field message.now start width) }
{
    let end = start as usize + width as usize;
    let first = start as usize / 8;
    let last = end.div_ceil(8);
    let n = bits::number(&message[first..last]);
    (n >> (8 * last - end)) % (1 << width)
}

// A number of `width` bits by two's complement: its top bit counts negative.
fn twos_complement(n: u64, width: u32) -> i64
    requires { (1 ≤ width) × (width ≤ 32) × (n < 2 ^ width) }
    ensures { result ≡ raws.twos_complement (word width n) }
{
    let rest = n % (1 << (width - 1));
    rest as i64 - (n - rest) as i64
}

// The raw number of a signal.
pub fn raw(message: &[u8], start: u32, width: u32, signed: bool) -> i64
    requires { raws.misplaced (length message.now) start width ≡ false }
    ensures { result ≡ raws.raw message.now start width signed }
{
    let n = unsigned(message, start, width);
    if signed {
        return twos_complement(n, width);
    }
    n as i64
}
