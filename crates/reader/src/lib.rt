// A reader that keeps the text beside its place.   (01, The forms we expect)
// What has a local of the struct is proved by hand, so that is little: it takes the struct apart, and plain functions do the work.
#![tactic(auto)]

ghost use Rattle.std.specs.Prelude.{◌≡◌};
ghost use Rattle.reader.specs.TextLines.{skip_at, text_line_at, place_past, reader_at};
ghost use Rattle.reader.specs.LinesPassed.{first_at, passed_over};
ghost use Rattle.reader.specs.inner.Steps.{WithinPlace, with_line};

use jkf::Entry;
use text::Cursor;

// A move line: its number, its entry and the place past it. A comment: where its text begins and ends, and the place past its line.
// A skip line: the place past it. Or nothing of these.
#[derive(Clone, Copy)]
pub enum TextLine {
    Played(u64, Entry, Cursor),
    Remarked(Cursor, Cursor, Cursor),
    Skipped(Cursor),
    Nothing,
}

#[derive(Clone, Copy)]
pub struct Reader<'a> {
    pub text: &'a [u8],
    pub at: usize,
}

// How many move lines, comments and skip lines were passed, and the place past them all.
#[derive(Clone, Copy)]
pub struct PassedLines {
    pub moves: usize,
    pub comments: usize,
    pub skips: usize,
    // Where the first skip line begins that begins with neither an LF nor a CR.
    pub first: Option<usize>,
    pub end: usize,
}

// What stands at a place that is neither a move line nor a comment.
fn skip_at(s: &[u8], at: usize) -> TextLine
    ensures { result ≡ skip_at s.now at }
{
    let Some(next) = moves::skip_line(Cursor { at }, s) else {
        return TextLine::Nothing;
    };
    TextLine::Skipped(next)
}

// What stands at a place, tried in the order that holds within a line of play.
fn text_line(s: &[u8], at: usize) -> TextLine
    ensures { result ≡ text_line_at s.now at }
{
    if let Some(line) = moves::move_line(Cursor { at }, s) {
        return TextLine::Played(line.number, line.entry, line.next);
    }
    if let Some(remark) = moves::comment_line(Cursor { at }, s) {
        return TextLine::Remarked(remark.from, remark.to, remark.next);
    }
    skip_at(s, at)
}

// Past a line that stands at a place, which is the same place where it is no line.
fn place_past(line: TextLine, at: usize) -> usize
    ensures { result ≡ place_past line at }
{
    match line {
        TextLine::Played(_, _, next) => next.at,
        TextLine::Remarked(_, _, next) => next.at,
        TextLine::Skipped(next) => next.at,
        TextLine::Nothing => at,
    }
}

impl<'a> Reader<'a> {
    // A reader of a text, at a place.
    pub fn over(text: &'a [u8], at: usize) -> Reader<'a>
        ensures { result ≡ reader_at text.entry at }
    {
        Reader { text, at }
    }

    // What stands at its place.
    pub fn next(self) -> TextLine
        ensures { result ≡ text_line_at self.entry.text.now self.entry.at }
    {
        text_line(self.text, self.at)
    }

    // The reader past a line that stands at its place, which is given, so that nothing is read twice.
    pub fn past(self, line: TextLine) -> Reader<'a>
        ensures { result ≡ reader_at self.entry.text (place_past line self.entry.at) }
    {
        let at = place_past(line, self.at);
        Reader {
            text: self.text,
            at,
        }
    }
}

// What a reader answers at a place, for callers that hold none: above this no proof is by hand.
pub fn line_standing(text: &[u8], at: usize) -> TextLine
    ensures { result ≡ text_line_at text.now at }
{
    Reader::over(text, at).next()
}

// Where the first skip line of all begins, with one more that stands at a place.
#[tactic(auto, unfolding(crate::specs::LinesPassed::first_at))]
fn first_at(first: Option<usize>, s: &[u8], at: usize) -> Option<usize>
    ensures { result ≡ first_at first s.now at }
{
    if first.is_some() || matches!(lent::peek(s, at), b'\n' | b'\r') {
        return first;
    }
    Some(at)
}

// One line more, whatever it is.
#[tactic(auto, unfolding(crate::specs::inner::Steps::with_line))]
fn with_line(s: &[u8], p: PassedLines) -> Option<PassedLines>
    requires { WithinPlace p }
    ensures { result ≡ with_line s.now p }
{
    match line_standing(s, p.end) {
        TextLine::Played(_, _, next) => Some(PassedLines {
            moves: p.moves + 1,
            end: next.at,
            ..p
        }),
        TextLine::Remarked(_, _, next) => Some(PassedLines {
            comments: p.comments + 1,
            end: next.at,
            ..p
        }),
        TextLine::Skipped(next) => Some(PassedLines {
            skips: p.skips + 1,
            first: first_at(p.first, s, p.end),
            end: next.at,
            ..p
        }),
        TextLine::Nothing => None,
    }
}

// The lines of a text from a place on, as far as they stand one after the other.
pub fn passed_over(text: &[u8], at: usize) -> PassedLines
    ensures { result ≡ passed_over text.now at }
{
    let mut p = PassedLines {
        moves: 0,
        comments: 0,
        skips: 0,
        first: None,
        end: at,
    };
    while let Some(q) = with_line(text, p) {
        p = q;
    }
    p
}
