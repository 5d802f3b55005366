// Edits of a block, into a buffer that is as long as a block can be.
use crate::notes::{Kind, Streams, put_error, say_error};
use crate::times::Times;
use crate::words::Word;
use crate::{files, notes, refusals, times, wheres, words};
use jkf::Figures;
use moves::Reason;
use std::rt::{Env, Files};
use text::Cursor;

// How long the edited block is, the second figure of the edit, and the times that were lost of what was put in.
#[derive(Drop)]
pub struct Edited {
    pub len: usize,
    pub second: u64,
    pub times: Option<Times>,
}

// The moves of a line, on which a variation can be put: the first and the last.
fn say_moves(rt: &impl Streams, b: &[u8], line: u16) {
    let start = block::start_of(b, line) as u64;
    let past = start + block::entry_count(b, line) as u64;
    say_error(
        rt,
        b"; its moves are % to %",
        &[start.max(1), past.saturating_sub(1)],
    );
}

// What an edit of a block came to; where it is refused, says why.
fn made(
    rt: &impl Streams,
    name: &[u8],
    b: &[u8],
    f: Figures,
    times: Option<Times>,
) -> Option<Edited> {
    if f.number == 0 {
        return Some(Edited {
            len: f.first as usize,
            second: f.second,
            times,
        });
    }
    if f.number != 12 {
        refusals::tell(rt, name, f);
        return None;
    }
    notes::head(rt, Kind::Refused, name);
    say_error(
        rt,
        b"line of play % has no move % to put a variation at",
        &[f.first, f.second],
    );
    if let Ok(line) = u16::try_from(f.first) {
        say_moves(rt, b, line);
    }
    refusals::end(rt, 12);
    None
}

// Without a line, and without all that hangs from it.
fn cut(rt: &impl Streams, name: &[u8], b: &[u8], line: u64, out: &mut [u8]) -> Option<Edited> {
    if line == 0 {
        notes::head(rt, Kind::Refused, name);
        put_error(
            rt,
            b"line of play 0 is the main line, which stays; a variation has a number from 1 on",
        );
        refusals::end(rt, 10);
        return None;
    }
    made(
        rt,
        name,
        b,
        jkf::Figures::from(edit::cut(b, line, out)),
        None,
    )
}

// As version 2; where it is that already, it is said so.
fn restate(rt: &impl Streams, name: &[u8], b: &[u8], out: &mut [u8]) -> Option<Edited> {
    let f = jkf::Figures::from(edit::restate(b, out));
    if f.number == 7 && block::sound(b) {
        notes::head(rt, Kind::Refused, name);
        put_error(rt, b"the block is of version 2 already");
        refusals::end(rt, 7);
        return None;
    }
    made(rt, name, b, f, None)
}

// The number that was expected where so many entries follow a first one; the last number of 64 bits has none after it.
fn say_expected(rt: &impl Streams, first: u64, count: u64) {
    match first.checked_add(count) {
        Some(expected) => say_error(rt, b", where % is expected", &[expected]),
        None => put_error(rt, b", and no number is above the one before it"),
    }
}

// Says at which line of a text its numbers do not go up by one; and whether they do not.
fn tell_stray(rt: &impl Streams, name: &[u8], text: &[u8]) -> bool {
    let start = Cursor { at: 0 };
    let first = plays::ply(start, text);
    let x = plays::count_sequence(start, text, first);
    let Some(stray) = moves::move_line(x.next, text) else {
        return false;
    };
    notes::head(rt, Kind::Refused, name);
    let line = stops::line_column(text, x.next.at).line;
    say_error(rt, b"line %: the move is numbered %", &[line, stray.number]);
    say_expected(rt, first, x.entries as u64);
    refusals::end(rt, 11);
    true
}

// Why a line of play goes no further than a place; at the start of a text only a move is sought, and at its end nothing.
fn fails(end: Cursor, text: &[u8]) -> Option<(usize, Reason)> {
    if end.at == 0 {
        return moves::move_line_fails(end, text);
    }
    if text.len() <= end.at {
        return None;
    }
    moves::further_of(
        moves::comment_fails(end, text),
        moves::move_line_fails(end, text),
    )
}

// Says where a text is no line of play any more, and why; and whether there is such a place.
fn tell_reason(rt: &impl Streams, name: &[u8], text: &[u8]) -> bool {
    let end = plays::count_moves(Cursor { at: 0 }, text).next;
    let Some((at, reason)) = fails(end, text) else {
        return false;
    };
    let to = notes::head(rt, Kind::Refused, name);
    let _ = wheres::say_reached(rt, to, text, end.at, reason, at);
    if end.at == 0 {
        put_error(
            rt,
            b"; the file of a variation begins with its first move, and neither \xe5\xa4\x89\xe5\x8c\x96, \xe6\x89\x8b\xe6\x95\xb0 nor a header line stands in it",
        );
    } else {
        put_error(
            rt,
            b"; behind the first move of a variation stand only moves and comments, and neither an empty line nor \xe3\x81\xbe\xe3\x81\xa7",
        );
    }
    refusals::end(rt, 11);
    true
}

// Says that a text is empty, too long or not UTF-8; and whether it is.
fn tell_unread(rt: &impl Streams, name: &[u8], text: &[u8]) -> bool {
    if text.is_empty() {
        notes::head(rt, Kind::Refused, name);
        put_error(rt, b"the file is empty, and has no variation");
        refusals::end(rt, 11);
        return true;
    }
    if 65535 < text.len() {
        refusals::tell_at(rt, name, text, 1, text.len() as u64, 11);
        return true;
    }
    let n = text::well_formed(text);
    if text.len() <= n {
        return false;
    }
    refusals::tell_at(rt, name, text, 2, n as u64, 11);
    true
}

// Why a text is not one variation.
fn tell_text(rt: &impl Streams, name: &[u8], text: &[u8], f: Figures) {
    if !tell_unread(rt, name, text) && !tell_stray(rt, name, text) && !tell_reason(rt, name, text) {
        refusals::tell(rt, name, f);
    }
}

// With the variation of a text. Refusal 11 is about that text's file, all others about the block's.
fn put_text(
    rt: &impl Streams,
    name: &[u8],
    b: &[u8],
    line: u64,
    variation: &[u8],
    text: &[u8],
    out: &mut [u8],
) -> Option<Edited> {
    let f = jkf::Figures::from(edit::put_in(b, line, text, out));
    if f.number == 11 {
        tell_text(rt, variation, text, f);
        return None;
    }
    made(rt, name, b, f, times::of_variation(text))
}

// With that of the file that the third name is of, read into a buffer with room for more than a text may have, so that a longer one is refused
// and not cut.
fn put(
    rt: &(impl Streams + Env + Files + Input),
    name: &[u8],
    b: &[u8],
    line: u64,
    room: &mut [u8],
    out: &mut [u8],
) -> Option<Edited> {
    let mut variation = [0u8; 4096];
    let variation = words::name(rt, 3, &mut variation);
    let text = files::fill(rt, variation, true, room)?;
    put_text(rt, name, b, line, variation, text, out)
}

// The edit that is asked for; a variation's text is read into the room.
pub(crate) fn make(
    rt: &(impl Streams + Env + Files + Input),
    word: Word,
    line: u64,
    name: &[u8],
    b: &[u8],
    room: &mut [u8],
    out: &mut [u8],
) -> Option<Edited> {
    match word {
        Word::Put | Word::BlockPut => put(rt, name, b, line, room, out),
        Word::Cut | Word::BlockCut => cut(rt, name, b, line, out),
        _ => restate(rt, name, b, out),
    }
}

// Says how many times of that file were lost, where some were.
pub(crate) fn tell_variation(rt: &(impl Streams + Env), t: Option<Times>) {
    if t.is_none() {
        return;
    }
    let mut variation = [0u8; 4096];
    times::tell(rt, Kind::Note, words::name(rt, 3, &mut variation), t);
}
