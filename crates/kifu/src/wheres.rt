// Where reading stopped: in lines of the answer, in notes, or in a refusal.   (02, request (ii))
use crate::notes::{Kind, Stream, Streams, put};
use crate::{notes, reasons};
use moves::Reason;
use std::io;
use stops::StopAnswer;

// How many bytes of a text were not taken.
fn left(s: &[u8], taken: usize) -> u64 {
    s.len().saturating_sub(taken) as u64
}

// The place that was reached, and why no further one was.
pub(crate) fn say_reached(
    rt: &impl Streams,
    to: Stream,
    s: &[u8],
    taken: usize,
    reason: Reason,
    at: usize,
) -> io::Result<()> {
    let x = stops::line_column(s, at);
    notes::say(rt, to, b"line %, column %: ", &[x.line, x.column])?;
    reasons::say(rt, to, s, taken, reason, at)
}

// The first byte not taken and how many were not; and the place that was reached.
fn tell_rest(
    rt: &impl Streams,
    kind: Kind,
    name: &[u8],
    s: &[u8],
    taken: usize,
    reason: Reason,
    at: usize,
) -> io::Result<()> {
    let n = left(s, taken);
    let line = stops::line_column(s, taken).line;
    let words: &[u8] = if n == 1 {
        b"stopped before byte %, line %; % byte was not taken\n"
    } else {
        b"stopped before byte %, line %; % bytes were not taken\n"
    };
    let to = notes::head(rt, kind, name);
    notes::say(rt, to, words, &[taken as u64, line, n])?;
    notes::head(rt, kind, name);
    say_reached(rt, to, s, taken, reason, at)?;
    put(rt, to, b"\n")
}

// A blank or a byte of a break.
fn is_white(b: u8) -> bool {
    matches!(b, b' ' | b'\t' | b'\r' | b'\n')
}

// Whether a text has only these.
fn is_empty(t: &[u8]) -> bool {
    t.iter().all(|b| is_white(*b))
}

// Whether something is missed by a rest: it is not where only lines that are no moves are left, or only blanks and breaks.
fn is_missed(s: &[u8], taken: usize, reason: Reason) -> bool {
    if let Reason::EndOfText = reason {
        return false;
    }
    !is_empty(lent::rest(s, taken))
}

// Says what comes of it that something is missed from a line on: the answer to `check` is not the whole, and of a refusal how to go on.
fn tell_missed(rt: &impl Streams, kind: Kind, name: &[u8], line: u64) {
    match kind {
        Kind::Answer => notes::tell(
            rt,
            Kind::Unread,
            name,
            b"from line % on the file was not read",
            &[line],
        ),
        Kind::Refused => notes::tell(
            rt,
            Kind::Note,
            name,
            b"nothing was done, since what stands from line % on would be lost; --partial goes on with what was read",
            &[line],
        ),
        _ => (),
    }
}

// Says what was left of a text, in lines of a kind; and whether something is missed by it. Else a note tells how long it is.
pub(crate) fn tell_left(rt: &impl Streams, kind: Kind, name: &[u8], s: &[u8]) -> bool {
    let StopAnswer::Stopped(to, reason, at) = stops::stop(s) else {
        return false;
    };
    let taken = to as usize;
    let line = stops::line_column(s, taken).line;
    if is_missed(s, taken, reason) {
        let _ = tell_rest(rt, kind, name, s, taken, reason, at as usize);
        tell_missed(rt, kind, name, line);
        return true;
    }
    let n = left(s, taken);
    if kind == Kind::Note && n != 0 {
        notes::tell(
            rt,
            kind,
            name,
            b"bytes at the end that were not read: %, from line % on",
            &[n, line],
        );
    }
    false
}

// Where reading stopped, in full.
pub(crate) fn print(
    rt: &impl Streams,
    name: &[u8],
    s: &[u8],
    taken: usize,
    reason: Reason,
    at: usize,
) -> io::Result<()> {
    if s.len() <= taken {
        return notes::say(
            rt,
            Stream::Output,
            b"all % bytes were taken\n",
            &[s.len() as u64],
        );
    }
    if is_empty(lent::rest(s, taken)) {
        return notes::say(
            rt,
            Stream::Output,
            b"nothing is missing: only blanks and breaks are left, from byte %, line % on\n",
            &[taken as u64, stops::line_column(s, taken).line],
        );
    }
    tell_rest(rt, Kind::Answer, name, s, taken, reason, at)
}
