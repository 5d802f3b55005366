// The words of each reason why a line cannot be read.   (02, request (ii))
use crate::notes;
use crate::notes::{Stream, Streams, put};
use moves::Reason;
use std::io;
use text::Cursor;

// A line without a number, and what it may be.
fn no_number(s: &[u8], at: usize) -> &'static [u8] {
    if text::stands(s, at, b"\xe2\x96\xb2") || text::stands(s, at, b"\xe2\x96\xb3") {
        return b"no number: a move line begins with its number; this may be KI2";
    }
    if text::stands(s, at, b"\xef\xbc\x99 \xef\xbc\x98") {
        return b"no number: a move line begins with its number; this may be a diagram that cannot be read, and \xe5\xb9\xb3\xe6\x89\x8b is taken";
    }
    b"no number: a move line begins with its number"
}

// The byte before a place.
fn before(s: &[u8], at: usize) -> u8 {
    if at == 0 {
        return 0;
    }
    lent::peek(s, at - 1)
}

// A number above the most that there is room for, which is less in brackets.
fn too_large(s: &[u8], at: usize) -> &'static [u8] {
    if before(s, at) == b'(' {
        b"number too large: in brackets 255 is the most"
    } else {
        b"number too large: 18446744073709551615 is the most"
    }
}

// Whether a file stands just before a place.
fn is_past_file(s: &[u8], at: usize) -> bool {
    3 <= at && spell::file(Cursor { at: at - 3 }, s).is_some()
}

// A move without its place, or without the rank of it.
fn no_place(s: &[u8], at: usize) -> &'static [u8] {
    if is_past_file(s, at) {
        b"no place: a rank, \xe4\xb8\x80 to \xe4\xb9\x9d, must stand here"
    } else {
        b"no place: neither a known ending nor a square nor \xe5\x90\x8c stands here"
    }
}

// A move without its origin, or without the digits or the end of it.
fn no_origin(s: &[u8], at: usize) -> &'static [u8] {
    match before(s, at) {
        b'(' => b"no origin: half-width digits must stand here",
        b'0'..=b'9' => b"no origin: a ) must stand here",
        _ => b"no origin: (77) or \xe6\x89\x93 must stand here",
    }
}

// A line without a break: the last one, or one that a CR alone ends.
fn no_break(s: &[u8], at: usize) -> &'static [u8] {
    if s.len() <= at {
        b"no break: the last line of the file must end in a line break"
    } else {
        b"no break: a CR stands without LF"
    }
}

// The end, with no move from the first byte not taken on.
fn at_end(s: &[u8], taken: usize) -> &'static [u8] {
    if s.len() <= taken {
        b"end of text: no move stands here"
    } else if lines_from(s, taken) == 1 {
        b"end of text: % line from line % on is no move and was passed over"
    } else {
        b"end of text: % lines from line % on are no moves and were passed over"
    }
}

// How many lines there are from a place on.
fn lines_from(s: &[u8], at: usize) -> u64 {
    let last = stops::line_column(s, s.len()).line;
    last.saturating_sub(stops::line_column(s, at).line)
}

// The words of a reason, with the first byte not taken and the place that was reached.
fn words_of(s: &[u8], taken: usize, reason: Reason, at: usize) -> &'static [u8] {
    match reason {
        Reason::NoNumber => no_number(s, at),
        Reason::TooLarge => too_large(s, at),
        Reason::NoPlace => no_place(s, at),
        Reason::NoKind => b"no kind: a piece's name must stand here",
        Reason::NoOrigin => no_origin(s, at),
        Reason::NoBreak => no_break(s, at),
        Reason::CommentHere =>
            b"a comment out of place: behind \xe5\xa4\x89\xe5\x8c\x96 or another line that is no move, a move must come first",
        Reason::EndOfText => at_end(s, taken),
    }
}

// Whether something more was to stand in the line.
fn is_within_line(reason: Reason) -> bool {
    match reason {
        Reason::NoBreak | Reason::CommentHere | Reason::EndOfText => false,
        _ => true,
    }
}

// The words of a reason; those of the end have a number of lines and the first of them.
pub(crate) fn say(
    rt: &impl Streams,
    to: Stream,
    s: &[u8],
    taken: usize,
    reason: Reason,
    at: usize,
) -> io::Result<()> {
    notes::say(
        rt,
        to,
        words_of(s, taken, reason, at),
        &[lines_from(s, taken), stops::line_column(s, taken).line],
    )?;
    if s.len() <= at && is_within_line(reason) {
        return put(rt, to, b"; the text ends here");
    }
    Ok(())
}
