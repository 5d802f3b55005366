// Lent memory: bytes read at a place, and writer leaves that fill the rest of a lent buffer.
// A leaf answers how many bytes it filled. Where its text does not fit it fills none, answers 0 and changes nothing.
#![tactic(auto)]

ghost use Rattle.std.specs.Prelude.{◌≡◌, ◌+◌, ◌≤◌, ◌<◌, length, take, drop, get_or, replicate};
ghost use Rattle.lent.specs.Bytes.{le16, bytes16, Wrote, fitting};
ghost use Rattle.lent.specs.Numbers.{decimal, padded};
ghost use Rattle.lent.specs.Stored.{Stored};

// A byte as a number to reckon with.
pub fn wide(b: u8) -> usize
    ensures { (result ≡ b) × (result < 256) }
{
    b as usize
}

// The byte at a place, and 0 past the end.
pub fn peek(s: &[u8], at: usize) -> u8
    ensures { result ≡ get_or s.now at 0 }
{
    s.get(at).copied().unwrap_or(0)
}

// The number of two bytes at a place, the low one first; bytes past the end are 0.
pub fn get16(s: &[u8], at: usize) -> usize
    ensures { (result ≡ le16 s.now at) × (result < 65536) }
{
    if s.len() <= at {
        return 0;
    }
    wide(s[at]) + 256 * wide(peek(s, at + 1))
}

// The first n bytes of a slice, or all where there are fewer.
pub fn front(s: &[u8], n: usize) -> &[u8]
    ensures { result.now ≡ take n s.now }
{
    &s[..n.min(s.len())]
}

// What stands from a place on; nothing past the end.
pub fn rest(s: &[u8], at: usize) -> &[u8]
    ensures { result.now ≡ drop at s.now }
{
    &s[at.min(s.len())..]
}

// A text: a constant, a record's bytes, a part of another slice.   (the Rust's write_str)
pub fn put_bytes(out: &mut [u8], t: &[u8]) -> usize
    ensures { Wrote (fitting t.now out.old) out.old out.new result }
{
    if out.len() < t.len() {
        return 0;
    }
    out[..t.len()].copy_from_slice(t);
    t.len()
}

// One byte n times.
pub fn put_run(out: &mut [u8], b: u8, n: usize) -> usize
    ensures { Wrote (fitting (replicate n b) out.old) out.old out.new result }
{
    if out.len() < n {
        return 0;
    }
    out[..n].fill(b);
    n
}

// How many digits a number has.
pub fn decimal_len(v: u64) -> usize
    ensures { result ≡ length (decimal v) }
{
    let mut rest = v;
    let mut n = 1;
    // no range: the number says how many digits it has
    while 10 <= rest {
        rest /= 10;
        n += 1;
    }
    n
}

// The digits of a number, for which there is room: those before the last, then the last.
fn put_digits(out: &mut [u8], v: u64) -> usize
    requires { length (decimal v) ≤ length out.old }
    ensures { Wrote (decimal v) out.old out.new result }
{
    if v < 10 {
        out[0] = (48 + v) as u8;
        return 1;
    }
    let n = put_digits(out, v / 10);
    out[n] = (48 + v % 10) as u8;
    n + 1
}

// A number as `{}` prints it.
pub fn put_decimal(out: &mut [u8], v: u64) -> usize
    ensures { Wrote (fitting (decimal v) out.old) out.old out.new result }
{
    if out.len() < decimal_len(v) {
        return 0;
    }
    put_digits(out, v)
}

// A number with a byte before it to a width: `{:2}` and `{:4}` with b' ', `{:02}` with b'0'.
pub fn put_padded(out: &mut [u8], v: u64, width: usize, fill: u8) -> usize
    ensures { Wrote (fitting (padded width fill v) out.old) out.old out.new result }
{
    let digits = decimal_len(v);
    if width <= digits {
        return put_decimal(out, v);
    }
    if out.len() < width {
        return 0;
    }
    let n = put_run(out, fill, width - digits);
    n + put_digits(&mut out[n..], v)
}

// A text stored from a place on; answers the place past it, or the same place where it does not fit.
pub fn put_at(out: &mut [u8], at: usize, t: &[u8]) -> usize
    ensures { Stored (fitting t.now (drop at out.old)) out.old out.new at result }
{
    if out.len() < at {
        return at;
    }
    at + put_bytes(&mut out[at..], t)
}
