// The lines that reading passes over, and what stands before the moves.
use crate::notes;
use crate::notes::{Kind, Streams};
use reader::TextLine;
use text::Cursor;

// Where the moves begin, and how many header lines stand before them.
#[derive(Drop)]
pub struct Head {
    pub next: usize,
    pub headers: usize,
}

// A walk over the lines of a text: its place, how many lines it passed over that are none of the usual ones, where the first of these
// begins, how many of them are moves, where it came past a move or a comment last, whether it came past 変化 since, and whether a line that can be
// passed over is, as behind another one: a move too, if a TAB stands before it.
#[derive(Clone, Copy)]
pub struct Walk {
    pub at: usize,
    pub odd: u64,
    pub first: Option<usize>,
    pub hidden: u64,
    pub run: usize,
    pub is_led: bool,
    is_sought: bool,
}

// The places of the header lines are not asked for, so there is room for one only.
pub(crate) fn before_moves(s: &[u8]) -> Head {
    let mut places = [0u16; 1];
    let start = kakinoki::parse_without_moves(s, &mut places);
    Head {
        next: start.next.at,
        headers: start.headers,
    }
}

// Where the words of a skip line begin: an LF takes the line behind it along.
fn words_at(s: &[u8], at: usize) -> usize {
    let Some(next) = (Cursor { at }).tag(s, b"\n") else {
        return at;
    };
    next.at
}

// Whether 手数 or まで stands at a place.
pub(crate) fn is_plain(s: &[u8], at: usize) -> bool {
    text::stands(s, at, b"\xe6\x89\x8b\xe6\x95\xb0")
        || text::stands(s, at, b"\xe3\x81\xbe\xe3\x81\xa7")
}

// Whether a line is empty, a # line, 手数 or まで.
fn is_usual(s: &[u8], at: usize) -> bool {
    if s.len() <= at {
        return true;
    }
    if (Cursor { at }).blanks(s).line_ending(s).is_some() {
        return true;
    }
    if lent::peek(s, at) == b'#' {
        return true;
    }
    is_plain(s, at)
}

// Whether a move stands at a place.
pub(crate) fn is_move(s: &[u8], at: usize) -> bool {
    moves::move_line_end(Cursor { at }, s).is_some()
}

// Past a skip line.
fn past_skip(s: &[u8], w: Walk, next: usize) -> Walk {
    let at = words_at(s, w.at);
    let is_led = text::stands(s, at, b"\xe5\xa4\x89\xe5\x8c\x96");
    if is_led || is_usual(s, at) {
        return Walk {
            at: next,
            is_led: is_led || w.is_led,
            is_sought: true,
            ..w
        };
    }
    Walk {
        at: next,
        odd: w.odd.wrapping_add(1),
        first: w.first.or(Some(at)),
        hidden: w.hidden.wrapping_add(u64::from(is_move(s, at))),
        is_sought: true,
        ..w
    }
}

// Past a move or a comment; and to the end, where none of these lines stands.
fn past_line(w: Walk, next: usize) -> Walk {
    Walk {
        at: next,
        run: next,
        is_led: false,
        is_sought: false,
        ..w
    }
}

// Past one line more that is a move or a comment, if it can be, and else is passed over.
fn past_any(s: &[u8], w: Walk) -> Walk {
    match reader::line_standing(s, w.at) {
        TextLine::Played(_, _, next) => past_line(w, next.at),
        TextLine::Remarked(_, _, next) => past_line(w, next.at),
        TextLine::Skipped(next) => past_skip(s, w, next.at),
        TextLine::Nothing => past_line(w, s.len()),
    }
}

// Past one line more.
fn step(s: &[u8], w: Walk) -> Walk {
    if !w.is_sought {
        return past_any(s, w);
    }
    let Some(next) = moves::skip_line(Cursor { at: w.at }, s) else {
        return past_any(s, w);
    };
    past_skip(s, w, next.at)
}

// At a place, past one line that can be passed over, as 手数 can: behind it moves are sought.
fn started(s: &[u8], from: usize) -> Walk {
    let w = Walk {
        at: from,
        odd: 0,
        first: None,
        hidden: 0,
        run: from,
        is_led: false,
        is_sought: false,
    };
    let Some(next) = moves::skip_line(Cursor { at: from }, s) else {
        return w;
    };
    let v = past_skip(s, w, next.at);
    Walk {
        is_sought: false,
        ..v
    }
}

// From the first place to the second: there are no more lines than bytes.
pub(crate) fn walked(s: &[u8], from: usize, to: usize) -> Walk {
    let mut w = started(s, from);
    for _ in 0..s.len() {
        if to <= w.at {
            return w;
        }
        w = step(s, w);
    }
    w
}

// Says how many lines from a place on were passed over that are none of the usual ones, and what the first of them is; and whether moves are among them.
pub(crate) fn tell(rt: &impl Streams, kind: Kind, name: &[u8], s: &[u8], from: usize) -> bool {
    let w = walked(s, from, s.len());
    let Some(first) = w.first else {
        return false;
    };
    let words: &[u8] = if !is_move(s, first) {
        b"lines passed over: %, the first is line %, which is no move, no comment and no header line; a move is read only with its number"
    } else if lent::peek(s, first) == b'\t' {
        b"lines passed over: %, the first is line %, a move, but the TAB before it hides it here"
    } else {
        b"lines passed over: %, the first is line %, a move, but the empty line before it takes it along"
    };
    notes::tell(
        rt,
        kind,
        name,
        words,
        &[w.odd, stops::line_column(s, first).line],
    );
    0 < w.hidden
}
