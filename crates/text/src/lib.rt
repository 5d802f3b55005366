// A place in a text that hands itself on by value, and the smallest things that are read there.
// The text goes beside the place as a slice. Past the end of the text the rest is empty.
#![tactic(auto)]

mod utf8;

ghost use Rattle.std.specs.Prelude.{◌≡◌, ◌+◌, ◌≤◌, length, true};
ghost use Rattle.text.specs.Utf8.{character_at};
ghost use Rattle.text.specs.inner.Runs.{Run, Count, Reading};
ghost use Rattle.text.specs.Text.{is_blank, is_text, is_digit, blanks_at, text_at, pad_width, padding_at, stands_at, tag_at, break_at, tail_at, line_end_at, digits_at};

pub use utf8::well_formed;

#[derive(Clone, Copy)]
pub struct Cursor {
    pub at: usize,
}

// Why no figure is read: none stands there, or its value is above the largest allowed.
#[derive(Clone, Copy)]
pub enum FigureError {
    Absent,
    TooLarge,
}

fn is_blank(b: u8) -> bool
    ensures { result ≡ is_blank b }
{
    matches!(b, b' ' | b'\t')
}

fn is_text(b: u8) -> bool
    ensures { result ≡ is_text b }
{
    !matches!(b, b'\n' | b'\r')
}

pub fn is_digit(b: u8) -> bool
    ensures { result ≡ is_digit b }
{
    b.is_ascii_digit()
}

// Whether the bytes t stand at a place.
pub fn stands(s: &[u8], at: usize, t: &[u8]) -> bool
    ensures { result ≡ stands_at t.now s.now at }
{
    if s.len() <= at {
        return t.is_empty();
    }
    if s.len() - at < t.len() {
        return false;
    }
    // a loop in place, since starts_with is a call, a slice takes longer to make than to compare, and most strings differ in the first bytes
    for (i, &b) in t.iter().enumerate() {
        if s[at + i] != b {
            return false;
        }
    }
    true
}

// How wide the padding character at a place is: a space, or U+3000; 0 where there is none.
#[tactic(auto, unfolding(crate::specs::Text::pad_width))]
fn pad_width(s: &[u8], at: usize) -> usize
    ensures { result ≡ pad_width s.now at }
{
    if lent::peek(s, at) == b' ' {
        1
    } else if stands(s, at, b"\xe3\x80\x80") {
        3
    } else {
        0
    }
}

// Past those of eight bytes that are surely text, up to the first below 14; past none where fewer stand.
fn text_of_eight(s: &[u8], at: usize) -> usize
    ensures { Run (text_at s.now) s.now at result }
{
    if s.len() < 8 || s.len() - 8 < at {
        return at;
    }
    for i in 0..8 {
        if s[at + i] < 14 {
            return at + i;
        }
    }
    at + 8
}

// 1 for a byte that is surely text, 0 for any other.
fn plain_one(b: u8) -> u8
    ensures { Count 1 result (14 ≤ b) }
{
    if b < 14 { 0 } else { 1 }
}

// The count of such bytes among four.
fn plain_four(s: &[u8], at: usize) -> u8
    requires { at + 4 ≤ length s.now }
    ensures { Count 4 result (Run (text_at s.now) s.now at (at + 4)) }
{
    plain_one(s[at]) + plain_one(s[at + 1]) + plain_one(s[at + 2]) + plain_one(s[at + 3])
}

// Whether sixteen bytes that are surely text stand at a place: they are counted, which is one test of a vector.
fn is_plain(s: &[u8], at: usize) -> bool
    ensures { result ≡ true → Run (text_at s.now) s.now at (at + 16) }
{
    if s.len() < 16 || s.len() - 16 < at {
        return false;
    }
    plain_four(s, at) + plain_four(s, at + 4) + plain_four(s, at + 8) + plain_four(s, at + 12) == 16
}

// Past text, sixteen bytes at a time.
fn plain_sixteens(s: &[u8], from: usize) -> usize
    ensures { Run (text_at s.now) s.now from result }
{
    let mut at = from;
    while is_plain(s, at) {
        at += 16;
    }
    at
}

// Past text, sixteen bytes at a time and then eight.
fn plain_text(s: &[u8], from: usize) -> usize
    ensures { Run (text_at s.now) s.now from result }
{
    if s.len() < from {
        return from;
    }
    let mut at = plain_sixteens(s, from);
    loop {
        let e = text_of_eight(s, at);
        if e < at + 8 {
            return e;
        }
        at = e;
    }
}

// On from a place, where the digits from the start to it make the number first.
fn digits_on(
    s: &[u8],
    largest: u64,
    start: usize,
    from: usize,
    first: u64,
) -> Result<(u64, Cursor), FigureError>
    requires { Reading largest s.now start from first }
    ensures { result ≡ digits_at largest s.now start }
{
    let tens = largest / 10;
    let mut at = from;
    let mut n = first;
    while is_digit(lent::peek(s, at)) {
        let d = (lent::peek(s, at) - b'0') as u64;
        if tens < n || largest - n * 10 < d {
            return Err(FigureError::TooLarge);
        }
        n = n * 10 + d;
        at += 1;
    }
    if at == start {
        return Err(FigureError::Absent);
    }
    Ok((n, Cursor { at }))
}

impl Cursor {
    // Past the spaces and tabs.   (nom's space0)
    pub fn blanks(self, s: &[u8]) -> Cursor
        ensures { result.at ≡ blanks_at s.now self.at }
    {
        let mut at = self.at;
        // no range: past the text's end it would end at that end and not here
        while at < s.len() && is_blank(s[at]) {
            at += 1;
        }
        Cursor { at }
    }

    // Past the spaces and U+3000 that may end an information line.   (the Rust's many0(one_of(" 　")))
    pub fn padding(self, s: &[u8]) -> Cursor
        ensures { result.at ≡ padding_at s.now self.at }
    {
        let mut at = self.at;
        loop {
            let n = pad_width(s, at);
            if n == 0 {
                return Cursor { at };
            }
            at += n;
        }
    }

    // Past what is neither a CR nor an LF.
    pub fn text(self, s: &[u8]) -> Cursor
        ensures { result.at ≡ text_at s.now self.at }
    {
        let mut at = plain_text(s, self.at);
        // no range, for the same reason
        while at < s.len() && is_text(s[at]) {
            at += 1;
        }
        Cursor { at }
    }

    // Past the text up to the first CR or LF, which must not be a CR without an LF.   (nom's not_line_ending)
    #[tactic(auto, unfolding(crate::specs::Text::tail_at))]
    pub fn tail(self, s: &[u8]) -> Option<Cursor>
        ensures { result ≡ tail_at s.now self.at }
    {
        let e = self.text(s);
        let at = e.at;
        if lent::peek(s, at) == b'\r' && lent::peek(s, at + 1) != b'\n' {
            return None;
        }
        Some(Cursor { at })
    }

    // Past an LF or a CR LF.   (nom's line_ending)
    #[tactic(auto, unfolding(crate::specs::Text::break_at))]
    pub fn line_ending(self, s: &[u8]) -> Option<Cursor>
        ensures { result ≡ break_at s.now self.at }
    {
        let at = self.at;
        let b = lent::peek(s, at);
        if b == b'\n' {
            return Some(Cursor { at: at + 1 });
        }
        if b == b'\r' && lent::peek(s, at + 1) == b'\n' {
            return Some(Cursor { at: at + 2 });
        }
        None
    }

    // Past a tail and its break, of which the tail is empty where an LF stands here.
    #[tactic(auto, using(crate::proofs::Laws::line_end_here), unfolding(crate::specs::Text::line_end_at))]
    pub fn line_end(self, s: &[u8]) -> Option<Cursor>
        ensures { result ≡ line_end_at s.now self.at }
    {
        let at = self.at;
        if lent::peek(s, at) == b'\n' {
            return Some(Cursor { at: at + 1 });
        }
        let end = self.tail(s)?;
        end.line_ending(s)
    }

    // Past a given byte string.   (nom's tag)
    #[tactic(auto, using(crate::proofs::Laws::stands_fits), unfolding(crate::specs::Text::tag_at))]
    pub fn tag(self, s: &[u8], t: &[u8]) -> Option<Cursor>
        ensures { result ≡ tag_at t.now s.now self.at }
    {
        let at = self.at;
        if stands(s, at, t) {
            return Some(Cursor { at: at + t.len() });
        }
        None
    }

    // Past one character.   (nom's anychar)
    pub fn character(self, s: &[u8]) -> Option<Cursor>
        ensures { result ≡ character_at s.now self.at }
    {
        let at = self.at;
        let n = utf8::char_width(s, at);
        if n == 0 {
            return None;
        }
        Some(Cursor { at: at + n })
    }

    // Past one or more digits, with the number that they make, if it is at most the largest allowed: one or two without a loop.
    // (nom's digit1, and str::parse)
    pub fn digits(self, s: &[u8], largest: u64) -> Result<(u64, Cursor), FigureError>
        ensures { result ≡ digits_at largest s.now self.at }
    {
        let start = self.at;
        if largest < 99 {
            return digits_on(s, largest, start, start, 0);
        }
        let a = lent::peek(s, start);
        if !is_digit(a) {
            return Err(FigureError::Absent);
        }
        let b = lent::peek(s, start + 1);
        if !is_digit(b) {
            return Ok(((a - b'0') as u64, Cursor { at: start + 1 }));
        }
        let n = ((a - b'0') * 10 + (b - b'0')) as u64;
        if is_digit(lent::peek(s, start + 2)) {
            return digits_on(s, largest, start, start + 2, n);
        }
        Ok((n, Cursor { at: start + 2 }))
    }
}
