// Reading move lines, comments and skip lines.   (the Rust's src/parser/kif.rs)
#![tactic(auto)]

mod clocks;
mod lost;
mod played;
mod reasons;
mod remarks;

ghost use Rattle.std.specs.Prelude.{◌≡◌, false, ◌+◌, None};
ghost use Rattle.text.specs.Text.{blanks_at};
ghost use Rattle.moves.specs.Moves.{move_line_end_at, color_of, finished, move_line_at, played_line};
ghost use Rattle.moves.specs.Lost.{taken_line, played_lost, line_lost};
ghost use Rattle.moves.specs.inner.Usuals.{Usual, UsualMove};

use clocks::time;
use jkf::{Entry, Move, Time};
use played::what;
pub use reasons::{comment_fails, further_of, move_line_fails, skip_line_fails};
pub use remarks::{begins_comment, comment_line, skip_line};
use text::Cursor;

// 2 for 成, 1 for 不成, 0 for neither, and the place past it.
#[derive(Clone, Copy)]
pub struct Mark {
    pub promote: u8,
    pub next: Cursor,
}

// A time, or that there is none, and the place past it.
#[derive(Clone, Copy)]
pub struct Timing {
    pub time: Time,
    pub next: Cursor,
}

// A comment: where its text begins and ends, and the place past its line.
#[derive(Clone, Copy)]
pub struct Remark {
    pub from: Cursor,
    pub to: Cursor,
    pub next: Cursor,
}

// A move line: its number, its entry and the place past it.
#[derive(Clone, Copy)]
pub struct MoveLine {
    pub number: u64,
    pub entry: Entry,
    pub next: Cursor,
}

// A move line, and whether it has no time because a figure was too large.
#[derive(Clone, Copy)]
pub struct TakenLine {
    pub line: Option<MoveLine>,
    pub lost: bool,
}

// Why a rule fails.   (02, request (ii))
// An `Option<(usize, Reason)>` is the place where it fails and why; None where it reads, or where the line begins as none of its own.
#[derive(Clone, Copy)]
pub enum Reason {
    NoNumber,
    TooLarge,
    NoPlace,
    NoKind,
    NoOrigin,
    NoBreak,
    CommentHere,
    EndOfText,
}

// An entry with its colour and its time.
#[tactic(auto, unfolding(crate::specs::Moves::finished))]
fn finish(color: u8, time: Time, entry: Entry) -> Entry
    ensures { result ≡ finished color time entry }
{
    match entry {
        Entry::Slot => Entry::Slot,
        Entry::Moved(m) => Entry::Moved(Move { color, time, ..m }),
        Entry::End(special, _) => Entry::End(special, time),
    }
}

// Odd numbers are Black's.
fn color(ply: u64) -> u8
    ensures { result ≡ color_of ply }
{
    (1 - ply % 2) as u8
}

// No move line, which so has no time to lose.
fn no_line() -> TakenLine
    ensures { result ≡ taken_line None false }
{
    TakenLine {
        line: None,
        lost: false,
    }
}

// A move line after its number, in any form.
fn any_line(ply: u64, from: Cursor, s: &[u8]) -> TakenLine
    ensures { result ≡ taken_line (played_line ply s.now from.at) (played_lost s.now from.at) }
{
    let Some((entry, played)) = what(from, s) else {
        return no_line();
    };
    let start = played.blanks(s);
    let timing = time(start, s);
    let Some(end) = timing.next.line_end(s) else {
        return no_line();
    };
    let taken = timing.time;
    TakenLine {
        line: Some(MoveLine {
            number: ply,
            entry: finish(color(ply), taken, entry),
            next: end,
        }),
        lost: lost::is_lost(taken, start, s),
    }
}

// A move line past its number, where the move has the usual form, and so has the time, which stands at t and so is not lost.
fn usual_line(ply: u64, at: usize, width: usize, t: usize, s: &[u8]) -> TakenLine
    requires { UsualMove s.now at width × Usual s.now t × (t ≡ blanks_at s.now (at + width)) }
    ensures { result ≡ taken_line (played_line ply s.now at) (played_lost s.now at) }
{
    let Some(end) = Cursor { at: t + 16 }.line_end(s) else {
        return no_line();
    };
    let taken = clocks::usual(s, t).time;
    TakenLine {
        line: Some(MoveLine {
            number: ply,
            entry: played::usual(s, at, width, color(ply), taken),
            next: end,
        }),
        lost: false,
    }
}

// A move line, and whether its time is lost.   (the Rust's move_line; 02, request (iv))
pub fn taken_line(c: Cursor, s: &[u8]) -> TakenLine
    ensures { result ≡ taken_line (move_line_at s.now c.at) (line_lost s.now c.at) }
{
    let Ok((ply, numbered)) = c.blanks(s).digits(s, u64::MAX) else {
        return no_line();
    };
    let from = numbered.blanks(s);
    let at = from.at;
    let width = played::usual_width(s, at);
    if 0 < width {
        let t = Cursor { at: at + width }.blanks(s).at;
        if clocks::is_usual(s, t) {
            return usual_line(ply, at, width, t, s);
        }
    }
    any_line(ply, from, s)
}

// A move line.   (the Rust's move_line)
pub fn move_line(c: Cursor, s: &[u8]) -> Option<MoveLine>
    ensures { result ≡ move_line_at s.now c.at }
{
    taken_line(c, s).line
}

// Past a move line. Its time, if it has one, is text, so that the tail may begin before it.
pub fn move_line_end(c: Cursor, s: &[u8]) -> Option<Cursor>
    ensures { result ≡ move_line_end_at s.now c.at }
{
    let (_, numbered) = c.blanks(s).digits(s, u64::MAX).ok()?;
    let from = numbered.blanks(s);
    let at = from.at;
    let width = played::usual_width(s, at);
    if 0 < width {
        return Cursor { at: at + width }.line_end(s);
    }
    let (_, played) = what(from, s)?;
    played.line_end(s)
}
