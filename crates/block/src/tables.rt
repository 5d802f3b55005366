// The tests of a sound block, part by part.
ghost use Rattle.std.specs.Prelude.{◌≡◌, not, ◌+◌, ◌*◌, ◌≤◌, ◌<◌, length, get_or};
ghost use Rattle.lists.specs.Test.{◌and◌, each, flag};
ghost use Rattle.text.specs.Utf8.{is_next};
ghost use Rattle.jkf.specs.Trees.{is_version};
ghost use Rattle.block.specs.inner.Tests.{header_stands, comment_stands};
ghost use Rattle.block.specs.Decode.{version_in, headers_in, comments_in, comment_place, text_place};
ghost use Rattle.block.specs.Sound.{head_test, parts_test, totals_test, header_bytes, comment_bytes, ascends, header_test, comment_test};

use crate::{fields, texts};

// Whether the version is one that there is.
fn has_version(b: &[u8]) -> bool
    ensures { result ≡ is_version (version_in b.now) }
{
    let v = fields::version(b);
    v == 1 || v == 2
}

pub(crate) fn head_sound(b: &[u8]) -> bool
    ensures { result ≡ flag (head_test b.now) }
{
    (128..=65535).contains(&b.len())
        && lent::peek(b, 0) == b'K'
        && lent::peek(b, 1) == b'B'
        && has_version(b)
        && lent::get16(b, 4) == b.len()
        && lent::get16(b, 24) == 0
        && lent::get16(b, 26) == 0
}

// The five parts follow one another without gaps.
pub(crate) fn parts_sound(b: &[u8]) -> bool
    ensures { result ≡ flag (parts_test b.now) }
{
    lent::get16(b, 14) == 128
        && lent::get16(b, 16) == fields::line_place(b, 0)
        && lent::get16(b, 18) == fields::move_place(b, 0)
        && lent::get16(b, 20) == fields::comment_place(b, 0)
        && lent::get16(b, 22) == fields::text_place(b)
}

// The counts of the head are those of the tables, and the texts end where the block does.
pub(crate) fn totals_sound(b: &[u8], headers: usize) -> bool
    requires { (headers ≡ header_bytes b.now (headers_in b.now)) × (headers < 8600000000) }
    ensures { result ≡ flag (totals_test b.now) }
{
    1 <= fields::lines(b)
        && fields::entry_total(b) == fields::moves(b)
        && fields::comment_total(b) == fields::comments(b)
        && fields::text_place(b) + headers + fields::text_total(b) == b.len()
}

// Whether a character may begin at a place: past the end, or at a byte that continues none.
#[tactic(auto, unfolding(text::specs::Utf8::is_next))]
fn starts(b: &[u8], at: usize) -> bool
    ensures { result ≡ not (is_next (get_or b.now at 0)) }
{
    let c = lent::peek(b, at);
    !(128..192).contains(&c)
}

// Header entry k, whose texts begin at a place of the text part, which begins at t.
fn header_stands(b: &[u8], t: usize, k: usize, at: usize) -> bool
    requires { (128 + 8 * k + 8 ≤ length b.now) × (k < 65535) × (at ≡ header_bytes b.now k) × (at < 1000000000000) × (t < 4000000) }
    ensures { result ≡ flag (header_stands b.now t k) }
{
    let row = 128 + 8 * k;
    let value = at + fields::pair(b, row + 2);
    fields::pair(b, row) == at
        && fields::pair(b, row + 4) == value
        && starts(b, t + at)
        && starts(b, t + value)
}

// The header table: its texts stand one after the other, and each begins where a character may.
fn headers_stand(b: &[u8], t: usize) -> bool
    requires { (128 + 8 * headers_in b.now ≤ length b.now) × (t < 4000000) }
    ensures { result ≡ flag (each (headers_in b.now) (header_stands b.now t)) }
{
    let n = fields::headers(b);
    let mut at = 0;
    for k in 0..n {
        if !header_stands(b, t, k, at) {
            return false;
        }
        at += fields::pair(b, 128 + 8 * k + 2) + fields::pair(b, 128 + 8 * k + 6);
    }
    true
}

// Each key comes before the next one by bytes; where a key stands is read once.
fn keys_ascend(b: &[u8], t: usize) -> bool
    requires { (128 + 8 * headers_in b.now ≤ length b.now) × (t ≡ text_place b.now) × (t < 4000000) }
    ensures { result ≡ flag (each (headers_in b.now) (ascends b.now)) }
{
    let n = fields::headers(b);
    let texts = lent::rest(b, t);
    let mut key = texts::text_in(b, texts, 128);
    for k in 1..n {
        let next = texts::text_in(b, texts, 128 + 8 * k);
        if !texts::is_before(key, next) {
            return false;
        }
        key = next;
    }
    true
}

// Comment k of those whose rows begin at a place; its text begins at a place of the text part, which begins at t.
fn comment_stands(b: &[u8], t: usize, rows: usize, k: usize, at: usize) -> bool
    requires { (rows ≡ comment_place b.now 0) × (rows + 4 * k + 4 ≤ length b.now) × (at ≡ header_bytes b.now (headers_in b.now) + comment_bytes b.now k) × (at < 1000000000000) × (t < 4000000) }
    ensures { result ≡ flag (comment_stands b.now t k) }
{
    fields::pair(b, rows + 4 * k) == at && starts(b, t + at)
}

// The comments, whose texts begin after those of the header entries.
fn comments_stand(b: &[u8], t: usize, headers: usize) -> bool
    requires { (headers ≡ header_bytes b.now (headers_in b.now)) × (headers < 8600000000) × (t < 4000000) × (text_place b.now ≤ length b.now) }
    ensures { result ≡ flag (each (comments_in b.now) (comment_stands b.now t)) }
{
    let n = fields::comments(b);
    let rows = fields::comment_place(b, 0);
    let mut at = headers;
    for k in 0..n {
        if !comment_stands(b, t, rows, k, at) {
            return false;
        }
        at += fields::pair(b, rows + 4 * k + 2);
    }
    true
}

// The header table and the comments. Their texts fill the text part, so all of them are valid where it is and each begins where a character may.
pub(crate) fn texts_sound(b: &[u8], headers: usize) -> bool
    requires { (headers ≡ header_bytes b.now (headers_in b.now)) × (headers < 8600000000) × (text_place b.now + header_bytes b.now (headers_in b.now) + comment_bytes b.now (comments_in b.now) ≡ length b.now) }
    ensures { result ≡ flag (each (headers_in b.now) (header_test b.now) and each (comments_in b.now) (comment_test b.now)) }
{
    let t = fields::text_place(b);
    texts::is_valid(lent::rest(b, t))
        && headers_stand(b, t)
        && keys_ascend(b, t)
        && comments_stand(b, t, headers)
}
