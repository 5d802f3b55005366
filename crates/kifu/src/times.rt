// Times too large to read: how many, and the line of the text in which the first stands.   (02, request (iv))
use crate::notes;
use crate::notes::{Kind, Streams};
use text::Cursor;

// How many move lines lost a time, and the number of the line of the first.
#[derive(Drop)]
pub struct Times {
    pub lost: u64,
    pub line: u64,
}

// How many a line of play lost, the place where the first begins, and the place past the line of play.
#[derive(Drop)]
struct Run {
    lost: u64,
    first: Option<usize>,
    next: Cursor,
}

// A line of play from a place on: it has no more move lines than the text has bytes.
fn run_from(c: Cursor, s: &[u8]) -> Run {
    let mut lost = 0;
    let mut first = None;
    let mut next = c;
    for _k in 0..s.len() {
        let taken = moves::taken_line(next, s);
        let Some(played) = taken.line else {
            return Run { lost, first, next };
        };
        if taken.lost {
            first = first.or(Some(next.at));
            lost += 1;
        }
        next = plays::count_comments(played.next, s).next;
    }
    Run { lost, first, next }
}

// Those of a text that is one line of play, where some were lost.
pub(crate) fn of_variation(text: &[u8]) -> Option<Times> {
    let r = run_from(Cursor { at: 0 }, text);
    let first = r.first?;
    Some(Times {
        lost: r.lost,
        line: stops::line_column(text, first).line,
    })
}

// Where the first stands of a text that lost some: line of play after line of play, past the skip lines before each.
fn first_in(s: &[u8]) -> usize {
    let mut places = [0u16; 1];
    let start = kakinoki::parse_without_moves(s, &mut places);
    let mut next = plays::count_comments(plays::skipped(start.next, s), s).next;
    for _ in 0..s.len() {
        let r = run_from(next, s);
        if let Some(first) = r.first {
            return first;
        }
        next = plays::skips(r.next, s);
    }
    next.at
}

// Those of a text that lost so many, where some were lost.
pub(crate) fn of_text(text: &[u8], lost: u64) -> Option<Times> {
    if lost == 0 {
        return None;
    }
    Some(Times {
        lost,
        line: stops::line_column(text, first_in(text)).line,
    })
}

// Says so where some were lost.
pub(crate) fn tell(rt: &impl Streams, kind: Kind, name: &[u8], times: Option<Times>) {
    if let Some(t) = times {
        notes::tell(
            rt,
            kind,
            name,
            b"times too large to read: %, the first in line %",
            &[t.lost, t.line],
        );
    }
}
