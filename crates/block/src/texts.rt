// Texts of a block: whether one is valid, and which of two comes first.
ghost use Rattle.std.specs.Prelude.{◌≡◌, ◌+◌, ◌*◌, ◌≤◌, ◌<◌, length, take, drop, get_or};
ghost use Rattle.lists.specs.Test.{flag};
ghost use Rattle.lent.specs.Bytes.{le16};
ghost use Rattle.block.specs.Decode.{comment_of};
ghost use Rattle.text.specs.Text.{before, same};
ghost use Rattle.block.specs.Sound.{valid};

use crate::fields;

// The text whose offset and length stand at a place of the block: one test where all four bytes are there, and one where the text is.
// What would lie past the end is left out.
pub(crate) fn text_in<'a>(b: &[u8], texts: &'a [u8], at: usize) -> &'a [u8]
    requires { at < 1000000000000 }
    ensures { result.now ≡ take (le16 b.now (at + 2)) (drop (le16 b.now at) texts.now) }
{
    if at + 4 <= b.len() {
        let offset = fields::pair(b, at);
        let len = fields::pair(b, at + 2);
        if offset + len <= texts.len() {
            return &texts[offset..offset + len];
        }
    }
    lent::front(
        lent::rest(texts, lent::get16(b, at)),
        lent::get16(b, at + 2),
    )
}

// Comment k.
pub(crate) fn comment_of(b: &[u8], k: usize) -> &[u8]
    requires { k < 65536 }
    ensures { result.now ≡ comment_of b.now k }
{
    let rows = fields::comment_place(b, 0);
    let texts = lent::rest(b, rows + 4 * fields::comments(b));
    text_in(b, texts, rows + 4 * k)
}

pub(crate) fn is_valid(t: &[u8]) -> bool
    ensures { result ≡ flag (valid t.now) }
{
    text::well_formed(t) == t.len()
}

// Four bytes as one number, of which the first is the highest.
fn four(s: &[u8], at: usize) -> usize
    requires { at + 4 ≤ length s.now }
    ensures { result ≡ 16777216 * get_or s.now at 0 + 65536 * get_or s.now (at + 1) 0 + 256 * get_or s.now (at + 2) 0 + get_or s.now (at + 3) 0 }
{
    16777216 * lent::wide(s[at])
        + 65536 * lent::wide(s[at + 1])
        + 256 * lent::wide(s[at + 2])
        + lent::wide(s[at + 3])
}

// Whether what is left of one text from a place on comes before what is left of another, by bytes.
fn rest_before(a: &[u8], b: &[u8], from: usize) -> bool
    ensures { result ≡ before (drop from a.now) (drop from b.now) }
{
    for i in from..b.len() {
        if a.len() <= i {
            return true;
        }
        if a[i] < b[i] {
            return true;
        }
        if b[i] < a[i] {
            return false;
        }
    }
    false
}

// Whether one text comes before another by bytes: four at a time, while both have four. The library's order of slices goes one by one: with it
// header lines with Japanese keys are written 2.5 times as fast as by the Rust, and not 3.
pub(crate) fn is_before(a: &[u8], b: &[u8]) -> bool
    ensures { result ≡ before a.now b.now }
{
    let n = a.len().min(b.len());
    let mut i = 0;
    while i + 4 <= n {
        let x = four(a, i);
        let y = four(b, i);
        if x != y {
            return x < y;
        }
        i += 4;
    }
    rest_before(a, b, i)
}

// Whether two texts have the same bytes.
pub fn is_same(a: &[u8], b: &[u8]) -> bool
    ensures { result ≡ same a.now b.now }
{
    a == b
}
