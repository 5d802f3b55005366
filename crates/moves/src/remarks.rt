// Comments, and the lines that are skipped.
ghost use Rattle.std.specs.Prelude.{◌≡◌};
ghost use Rattle.moves.specs.Moves.{begins_comment, remark_from, kept_at, comment_line_at, begins_no_skip, skip_line_at};

use crate::Remark;
use text::Cursor;

// Whether a comment begins at a place, so that most are not looked for.
pub fn begins_comment(s: &[u8], at: usize) -> bool
    ensures { result ≡ begins_comment s.now at }
{
    let b = lent::peek(s, at);
    if b == b'*' {
        return true;
    }
    b == b'&'
}

// A text that begins at one place and has its tail and break from another on.
fn remark_from(from: Cursor, c: Cursor, s: &[u8]) -> Option<Remark>
    ensures { result ≡ remark_from from s.now c.at }
{
    let to = c.tail(s)?;
    let next = to.line_ending(s)?;
    Some(Remark { from, to, next })
}

// A comment after &, which stays.
fn kept(c: Cursor, s: &[u8]) -> Option<Remark>
    ensures { result ≡ kept_at s.now c.at }
{
    let past = c.tag(s, b"&")?;
    remark_from(c, past, s)
}

// A comment after *, which is dropped, or after &.   (the Rust's move_comment_line)
pub fn comment_line(c: Cursor, s: &[u8]) -> Option<Remark>
    ensures { result ≡ comment_line_at s.now c.at }
{
    let Some(past) = c.tag(s, b"*") else {
        return kept(c, s);
    };
    remark_from(past, past, s)
}

// A space, a digit, *, ▲ or △: what begins no skip line.
pub(crate) fn begins_no_skip(s: &[u8], at: usize) -> bool
    ensures { result ≡ begins_no_skip s.now at }
{
    let b = lent::peek(s, at);
    if b == b' ' {
        return true;
    }
    if b == b'*' {
        return true;
    }
    if text::is_digit(b) {
        return true;
    }
    if text::stands(s, at, b"\xe2\x96\xb2") {
        return true;
    }
    text::stands(s, at, b"\xe2\x96\xb3")
}

// Another character, tail, break. The character may be an LF.   (the Rust's not_move_line)
pub fn skip_line(c: Cursor, s: &[u8]) -> Option<Cursor>
    ensures { result ≡ skip_line_at s.now c.at }
{
    if begins_no_skip(s, c.at) {
        return None;
    }
    let past = c.character(s)?;
    past.line_end(s)
}
