// UTF-8: how much of a text is well formed.
ghost use Rattle.std.specs.Prelude.{◌≡◌, true, ◌+◌, ◌≤◌, ◌<◌, length};
ghost use Rattle.text.specs.inner.Runs.{Run, Count};
ghost use Rattle.text.specs.Text.{past_all};
ghost use Rattle.text.specs.Utf8.{size_of, lowest_of, highest_of, second_of, is_next, char_width, well_formed_bytes};
ghost use Rattle.text.specs.inner.Runs.{Three};

// How many bytes a character that starts with b has; 0 where none does.
#[tactic(auto, unfolding(crate::specs::Utf8::size_of))]
fn size(b: u8) -> usize
    ensures { result ≡ size_of b }
{
    match b {
        0..128 => 1,
        194..224 => 2,
        224..240 => 3,
        240..245 => 4,
        _ => 0,
    }
}

#[tactic(auto, unfolding(crate::specs::Utf8::lowest_of))]
fn lowest(b: u8) -> u8
    ensures { result ≡ lowest_of b }
{
    match b {
        224 => 160,
        240 => 144,
        _ => 128,
    }
}

#[tactic(auto, unfolding(crate::specs::Utf8::highest_of))]
fn highest(b: u8) -> u8
    ensures { result ≡ highest_of b }
{
    match b {
        237 => 160,
        244 => 144,
        _ => 192,
    }
}

// Whether d may follow the first byte b.
#[tactic(auto, unfolding(crate::specs::Utf8::second_of))]
fn second(b: u8, d: u8) -> bool
    ensures { result ≡ second_of b d }
{
    (lowest(b)..highest(b)).contains(&d)
}

// Whether d may be a third or fourth byte.
#[tactic(auto, unfolding(crate::specs::Utf8::is_next))]
fn is_next(d: u8) -> bool
    ensures { result ≡ is_next d }
{
    (128..192).contains(&d)
}

// The width of the character at a place; 0 where there is none.
#[tactic(auto, unfolding(crate::specs::Utf8::char_width))]
pub(crate) fn char_width(s: &[u8], at: usize) -> usize
    ensures { result ≡ char_width s.now at }
{
    if s.len() <= at {
        return 0;
    }
    let b = s[at];
    let n = size(b);
    if n < 2 {
        return n;
    }
    if !second(b, lent::peek(s, at + 1)) {
        return 0;
    }
    if n == 2 {
        return 2;
    }
    if !is_next(lent::peek(s, at + 2)) {
        return 0;
    }
    if n == 3 {
        return 3;
    }
    if !is_next(lent::peek(s, at + 3)) {
        return 0;
    }
    4
}

// Past those of eight bytes that are ASCII, up to the first that is not; past none where fewer stand.
fn ascii_of_eight(s: &[u8], at: usize) -> usize
    ensures { Run (past_all char_width s.now) s.now at result }
{
    if s.len() < 8 || s.len() - 8 < at {
        return at;
    }
    for i in 0..8 {
        if 128 <= s[at + i] {
            return at + i;
        }
    }
    at + 8
}

// 1 for a byte of ASCII, 0 for any other.
fn ascii_one(b: u8) -> u8
    ensures { Count 1 result (b < 128) }
{
    if b < 128 { 1 } else { 0 }
}

// The count of such bytes among four.
fn ascii_four(s: &[u8], at: usize) -> u8
    requires { at + 4 ≤ length s.now }
    ensures { Count 4 result (Run (past_all char_width s.now) s.now at (at + 4)) }
{
    ascii_one(s[at]) + ascii_one(s[at + 1]) + ascii_one(s[at + 2]) + ascii_one(s[at + 3])
}

// Whether sixteen bytes of ASCII stand at a place: they are counted, which is one test of a vector.
fn is_ascii(s: &[u8], at: usize) -> bool
    ensures { result ≡ true → Run (past_all char_width s.now) s.now at (at + 16) }
{
    if s.len() < 16 || s.len() - 16 < at {
        return false;
    }
    ascii_four(s, at) + ascii_four(s, at + 4) + ascii_four(s, at + 8) + ascii_four(s, at + 12) == 16
}

// Past ASCII, sixteen bytes at a time.
fn ascii_sixteens(s: &[u8], from: usize) -> usize
    ensures { Run (past_all char_width s.now) s.now from result }
{
    let mut at = from;
    while is_ascii(s, at) {
        at += 16;
    }
    at
}

// Past ASCII: eight bytes, and where all are, sixteen at a time and then eight.
fn ascii(s: &[u8], from: usize) -> usize
    ensures { Run (past_all char_width s.now) s.now from result }
{
    if s.len() < from {
        return from;
    }
    let first = ascii_of_eight(s, from);
    if first < from + 8 {
        return first;
    }
    let mut at = ascii_sixteens(s, first);
    loop {
        let e = ascii_of_eight(s, at);
        if e < at + 8 {
            return e;
        }
        at = e;
    }
}

// 1 for three bytes that surely are a character, 0 for any other three: those after E0 and ED are left to char_width.
fn three_one(a: u8, b: u8, c: u8) -> u8
    ensures { Count 1 result (Three a b c) }
{
    if (225..240).contains(&a) && a != 237 && is_next(b) && is_next(c) {
        1
    } else {
        0
    }
}

// Whether such a character stands at a place.
fn is_three(s: &[u8], at: usize) -> bool
    ensures { result ≡ true → char_width s.now at ≡ 3 }
{
    if s.len() < 3 || s.len() - 3 < at {
        return false;
    }
    three_one(s[at], s[at + 1], s[at + 2]) == 1
}

// Whether sixteen of them stand there: they are counted, which is one test of vectors. The ninth is looked at first.
fn are_threes(s: &[u8], at: usize) -> bool
    ensures { result ≡ true → Run (past_all char_width s.now) s.now at (at + 48) }
{
    if s.len() < 48 || s.len() - 48 < at || s[at + 24] < 225 {
        return false;
    }
    let mut n = 0;
    for i in 0..16 {
        let k = at + 3 * i;
        n += three_one(s[k], s[k + 1], s[k + 2]);
    }
    n == 16
}

// Past characters of three bytes, sixteen at a time.
fn many_threes(s: &[u8], from: usize) -> usize
    ensures { Run (past_all char_width s.now) s.now from result }
{
    let mut at = from;
    while are_threes(s, at) {
        at += 48;
    }
    at
}

// Past characters of three bytes.
fn threes(s: &[u8], from: usize) -> usize
    ensures { Run (past_all char_width s.now) s.now from result }
{
    let mut at = many_threes(s, from);
    while is_three(s, at) {
        at += 3;
    }
    at
}

// Past some characters, if one stands here: ASCII and characters of three bytes many at a time.
fn characters(s: &[u8], at: usize) -> usize
    ensures { Run (past_all char_width s.now) s.now at result × (result ≡ at → char_width s.now at ≡ 0) }
{
    let e = threes(s, ascii(s, at));
    if e != at {
        return e;
    }
    at + char_width(s, at)
}

// How many bytes are well formed before the first fault.   (the Rust takes a &str)
pub fn well_formed(s: &[u8]) -> usize
    ensures { result ≡ well_formed_bytes s.now }
{
    let mut at = 0;
    loop {
        let e = characters(s, at);
        if e == at {
            return at;
        }
        at = e;
    }
}
