// Why a line cannot be read: the place of the part that was sought, and what is not there.   (02, request (ii))
ghost use Rattle.std.specs.Prelude.{◌≡◌};
ghost use Rattle.moves.specs.Failing.{further, or_fail, line_end_fail, square_fail, move_to_fail, origin_fail, move_from_fail, piece_fail, move_fail, what_fail, played_fail, numbered_fail, move_line_fail, skip_line_fail, comment_fail};

use crate::Reason;
use crate::played::{move_to, promote, what};
use crate::remarks::{begins_comment, begins_no_skip};
use text::{Cursor, FigureError};

// Of two failures the one that got further, else the first.
pub fn further_of(a: Option<(usize, Reason)>, b: Option<(usize, Reason)>) -> Option<(usize, Reason)>
    ensures { result ≡ further a b }
{
    let (Some((p, _)), Some((q, _))) = (a, b) else {
        return a.or(b);
    };
    if p < q { b } else { a }
}

// Of two ways, which fail only where both do.
fn or_fail(a: Option<(usize, Reason)>, b: Option<(usize, Reason)>) -> Option<(usize, Reason)>
    ensures { result ≡ or_fail a b }
{
    a?;
    b?;
    further_of(a, b)
}

// A tail and its break.
#[tactic(auto, unfolding(crate::specs::Failing::line_end_fail))]
fn line_end_fails(c: Cursor, s: &[u8]) -> Option<(usize, Reason)>
    ensures { result ≡ line_end_fail s.now c.at }
{
    if c.line_end(s).is_some() {
        return None;
    }
    Some((c.text(s).at, Reason::NoBreak))
}

// A file and a rank.
#[tactic(auto, unfolding(crate::specs::Failing::square_fail))]
fn square_fails(c: Cursor, s: &[u8]) -> Option<(usize, Reason)>
    ensures { result ≡ square_fail s.now c.at }
{
    let Some((_, past)) = spell::file(c, s) else {
        return Some((c.at, Reason::NoPlace));
    };
    if spell::numeral(past, s).is_none() {
        return Some((past.at, Reason::NoPlace));
    }
    None
}

// 同, or a square.
#[tactic(auto, unfolding(crate::specs::Failing::move_to_fail))]
fn move_to_fails(c: Cursor, s: &[u8]) -> Option<(usize, Reason)>
    ensures { result ≡ move_to_fail s.now c.at }
{
    if c.tag(s, b"\xe5\x90\x8c").is_some() {
        return None;
    }
    or_fail(Some((c.at, Reason::NoPlace)), square_fails(c, s))
}

// A number in brackets.
#[tactic(auto, unfolding(crate::specs::Failing::origin_fail))]
fn origin_fails(c: Cursor, s: &[u8]) -> Option<(usize, Reason)>
    ensures { result ≡ origin_fail s.now c.at }
{
    let Some(inside) = c.tag(s, b"(") else {
        return Some((c.at, Reason::NoOrigin));
    };
    match inside.digits(s, 255) {
        Err(FigureError::Absent) => Some((inside.at, Reason::NoOrigin)),
        Err(FigureError::TooLarge) => Some((inside.at, Reason::TooLarge)),
        Ok((_, past)) => {
            if past.tag(s, b")").is_some() {
                return None;
            }
            Some((past.at, Reason::NoOrigin))
        }
    }
}

// 打, or an origin.
#[tactic(auto, unfolding(crate::specs::Failing::move_from_fail))]
fn move_from_fails(c: Cursor, s: &[u8]) -> Option<(usize, Reason)>
    ensures { result ≡ move_from_fail s.now c.at }
{
    if c.tag(s, b"\xe6\x89\x93").is_some() {
        return None;
    }
    or_fail(Some((c.at, Reason::NoOrigin)), origin_fails(c, s))
}

// A kind, its mark if any, and where it comes from.
fn piece_fails(c: Cursor, s: &[u8]) -> Option<(usize, Reason)>
    ensures { result ≡ piece_fail s.now c.at }
{
    let Some((_, past)) = spell::kind(c, s) else {
        return Some((c.at, Reason::NoKind));
    };
    move_from_fails(promote(past, s).next, s)
}

// A target and a piece.
fn move_fails(c: Cursor, s: &[u8]) -> Option<(usize, Reason)>
    ensures { result ≡ move_fail s.now c.at }
{
    let Some((_, past)) = move_to(c, s) else {
        return move_to_fails(c, s);
    };
    piece_fails(past, s)
}

// A special, or a move.
#[tactic(auto, unfolding(crate::specs::Failing::what_fail))]
fn what_fails(c: Cursor, s: &[u8]) -> Option<(usize, Reason)>
    ensures { result ≡ what_fail s.now c.at }
{
    if spell::special(c, s).is_none() {
        return or_fail(Some((c.at, Reason::NoPlace)), move_fails(c, s));
    }
    None
}

// A move line after its number.
fn played_fails(c: Cursor, s: &[u8]) -> Option<(usize, Reason)>
    ensures { result ≡ played_fail s.now c.at }
{
    let Some((_, past)) = what(c, s) else {
        return what_fails(c, s);
    };
    line_end_fails(past, s)
}

// A move line that is not past the end and no comment.
fn numbered_fails(c: Cursor, s: &[u8]) -> Option<(usize, Reason)>
    ensures { result ≡ numbered_fail s.now c.at }
{
    let from = c.blanks(s);
    match from.digits(s, u64::MAX) {
        Err(FigureError::Absent) => Some((from.at, Reason::NoNumber)),
        Err(FigureError::TooLarge) => Some((from.at, Reason::TooLarge)),
        Ok((_, past)) => played_fails(past.blanks(s), s),
    }
}

// A move line.
pub fn move_line_fails(c: Cursor, s: &[u8]) -> Option<(usize, Reason)>
    ensures { result ≡ move_line_fail s.now c.at }
{
    if s.len() <= c.at {
        return Some((c.at, Reason::EndOfText));
    }
    if lent::peek(s, c.at) == b'*' {
        return Some((c.at, Reason::CommentHere));
    }
    numbered_fails(c, s)
}

// A skip line; a line that begins none is left to move lines.
pub fn skip_line_fails(c: Cursor, s: &[u8]) -> Option<(usize, Reason)>
    ensures { result ≡ skip_line_fail s.now c.at }
{
    if s.len() <= c.at {
        return Some((c.at, Reason::EndOfText));
    }
    if lent::peek(s, c.at) == b'*' {
        return Some((c.at, Reason::CommentHere));
    }
    if begins_no_skip(s, c.at) {
        return None;
    }
    let past = c.character(s)?;
    line_end_fails(past, s)
}

// A comment; a line that begins none is left to the others.
pub fn comment_fails(c: Cursor, s: &[u8]) -> Option<(usize, Reason)>
    ensures { result ≡ comment_fail s.now c.at }
{
    if s.len() <= c.at {
        return Some((c.at, Reason::EndOfText));
    }
    if !begins_comment(s, c.at) {
        return None;
    }
    line_end_fails(Cursor { at: c.at + 1 }, s)
}
