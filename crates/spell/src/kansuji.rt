// The count of a piece in hand, in kanji: 一 to 九十九.
ghost use Rattle.std.specs.Prelude.{◌≡◌, ◌≤◌, length};
ghost use Rattle.lent.specs.Bytes.{Wrote, fitting};
ghost use Rattle.text.specs.Text.{on_place, tag_at};
ghost use Rattle.spell.specs.Count.{ten, tens_at, hand_count_at, tens_text, count_text};

use crate::{numeral, put_numeral};
use text::Cursor;

// A value past 十, or that 十 does not stand here.
fn past_ten(c: Cursor, s: &[u8], value: u8) -> Option<(u8, Cursor)>
    ensures { result ≡ on_place (tag_at ten s.now c.at) (λ e. Some (value, e)) None }
{
    let e = c.tag(s, b"\xe5\x8d\x81")?;
    Some((value, e))
}

// The tens: 十 after a numeral or alone.
fn tens(c: Cursor, s: &[u8]) -> Option<(u8, Cursor)>
    ensures { result ≡ tens_at s.now c.at }
{
    let Some((d, past)) = numeral(c, s) else {
        return past_ten(c, s, 10);
    };
    past_ten(past, s, d * 10)
}

// The count that stands at a place.   (the Rust's kansuji)
pub fn count(c: Cursor, s: &[u8]) -> Option<(u8, Cursor)>
    ensures { result ≡ hand_count_at s.now c.at }
{
    let Some((t, past)) = tens(c, s) else {
        return numeral(c, s);
    };
    let Some((d, end)) = numeral(past, s) else {
        return Some((t, past));
    };
    Some((t + d, end))
}

fn put_tens(out: &mut [u8], t: u8) -> usize
    requires { 6 ≤ length out.old }
    ensures { Wrote (tens_text t) out.old out.new result }
{
    if t < 1 {
        return 0;
    }
    let is_one = t < 2;
    if is_one {
        return lent::put_bytes(out, b"\xe5\x8d\x81");
    }
    let n = put_numeral(out, t);
    n + lent::put_bytes(&mut out[n..], b"\xe5\x8d\x81")
}

fn put_parts(out: &mut [u8], n: u8) -> usize
    requires { (n ≤ 99) × (9 ≤ length out.old) }
    ensures { Wrote (count_text n) out.old out.new result }
{
    let m = put_tens(out, n / 10);
    m + put_numeral(&mut out[m..], n % 10)
}

// A count.   (the Rust's write_kansuji)
pub fn put_count(out: &mut [u8], n: u8) -> usize
    ensures { Wrote (fitting (count_text n) out.old) out.old out.new result }
{
    if 99 < n {
        return 0;
    }
    let mut text = [0u8; 9];
    let m = put_parts(&mut text, n);
    lent::put_bytes(out, &text[..m])
}
