// What the leaves of reading and writing answer to a request. A kind is a letter of crates/replay/data/answers.txt.
use crate::request::{is, number};
use moves::Remark;
use text::{Cursor, FigureError};

// Found and the place after.
fn of_place(place: Option<Cursor>) -> [u64; 2] {
    match place {
        Some(c) => [1, c.at as u64],
        None => [0, 0],
    }
}

// Found, the number and the place after.
fn of_spelled(found: Option<(u8, Cursor)>) -> [u64; 3] {
    match found {
        Some((n, c)) => [1, n as u64, c.at as u64],
        None => [0, 0, 0],
    }
}

fn of_digits(found: Result<(u64, Cursor), FigureError>) -> [u64; 3] {
    match found {
        Ok((n, past)) => [1, n, past.at as u64],
        Err(FigureError::Absent) => [0, 0, 0],
        Err(FigureError::TooLarge) => [2, 0, 0],
    }
}

// Found, where the comment begins and ends, and the place after its line.
fn of_remark(found: Option<Remark>) -> [u64; 4] {
    match found {
        Some(x) => [1, x.from.at as u64, x.to.at as u64, x.next.at as u64],
        None => [0, 0, 0, 0],
    }
}

// Blanks, padding, a tail or a break.
fn step(which: u64, c: Cursor, s: &[u8]) -> Option<Cursor> {
    match which {
        0 => Some(c.blanks(s)),
        1 => Some(c.padding(s)),
        2 => c.tail(s),
        _ => c.line_ending(s),
    }
}

// A kind, an ending, a preset or a side.
fn name(which: u64, c: Cursor, s: &[u8]) -> Option<(u8, Cursor)> {
    match which {
        0 => spell::kind(c, s),
        1 => spell::special(c, s),
        2 => spell::preset(c, s),
        _ => spell::side(c, s),
    }
}

// A numeral or a file.
fn numeral(which: u64, c: Cursor, s: &[u8]) -> Option<(u8, Cursor)> {
    if which == 0 {
        return spell::numeral(c, s);
    }
    spell::file(c, s)
}

// Whether what is read at a place of a text is so: a count, a comment or a skip line.
fn read_at(kind: u8, request: &[u8], answer: &[u8]) -> bool {
    let c = Cursor {
        at: number(request, 0) as usize,
    };
    let s = lent::rest(request, 8);
    match kind {
        b'h' => is(answer, &of_spelled(spell::count(c, s)), b""),
        b'k' => is(answer, &of_remark(moves::comment_line(c, s)), b""),
        b'x' => is(answer, &of_place(moves::skip_line(c, s)), b""),
        _ => answer.is_empty(),
    }
}

// Whether what is read of one of several sorts is so.
pub(crate) fn read(kind: u8, request: &[u8], answer: &[u8]) -> bool {
    let which = number(request, 0);
    let c = Cursor {
        at: number(request, 8) as usize,
    };
    let s = lent::rest(request, 16);
    match kind {
        b't' => is(answer, &of_place(step(which, c, s)), b""),
        b'd' => is(answer, &of_digits(c.digits(s, which)), b""),
        b'n' => is(answer, &of_spelled(name(which, c, s)), b""),
        b'z' => is(answer, &of_spelled(numeral(which, c, s)), b""),
        _ => read_at(kind, request, answer),
    }
}

// A kind in a move, an ending, a preset or a kind in a diagram.
fn put_name(out: &mut [u8], which: u64, n: u8) -> usize {
    match which {
        0 => spell::put_kind(out, n),
        1 => spell::put_special(out, n),
        2 => spell::put_preset(out, n),
        _ => spell::put_board_kind(out, n),
    }
}

// The four forms of a number.
fn put_form(out: &mut [u8], form: u64, v: u64) -> usize {
    match form {
        0 => lent::put_decimal(out, v),
        1 => lent::put_padded(out, v, 2, b' '),
        2 => lent::put_padded(out, v, 2, b'0'),
        _ => lent::put_padded(out, v, 4, b' '),
    }
}

// The number at a place, where it is one byte.
fn byte(request: &[u8], at: usize) -> u8 {
    u8::try_from(number(request, at)).unwrap_or(u8::MAX)
}

// What is written of a number: a name, a count, or a form of it into a buffer of the length asked for.
pub(crate) fn put(out: &mut [u8], kind: u8, request: &[u8]) -> usize {
    match kind {
        b'w' => put_name(out, number(request, 0), byte(request, 8)),
        b'c' => spell::put_count(out, byte(request, 0)),
        _ => put_form(out, number(request, 0), number(request, 8)),
    }
}
