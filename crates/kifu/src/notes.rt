// Lines that a person reads: how they begin, and words with figures in them.
use crate::quotes;
use std::io;
use std::io::{Cursor, Write};

// A line of the answer, on standard output; or one on standard error, which begins with the mark of its kind, that the launcher goes by.
#[derive(Clone, Copy, PartialEq, Eq)]
pub enum Kind {
    Answer,
    Note,
    Refused,
    Unread,
}

// Both streams, by bytes: std's `Eprint` takes text alone, and a name may be any bytes.
pub trait Streams: Print + Eprint {
    fn write_error(&self, bytes: &[u8]) -> io::Result<()>;
}

impl Streams for HostRuntime {
    fn write_error(&self, bytes: &[u8]) -> io::Result<()> {
        self.stderr().write_all(bytes)
    }
}

// Where words go.
#[derive(Clone, Copy)]
pub enum Stream {
    Output,
    Errors,
}

// Writes bytes, all of them.
pub(crate) fn put(rt: &impl Streams, to: Stream, t: &[u8]) -> io::Result<()> {
    match to {
        Stream::Output => rt.write_all(t),
        Stream::Errors => rt.write_error(t),
    }
}

// Writes a figure.
fn put_figure(rt: &impl Streams, to: Stream, x: u64) -> io::Result<()> {
    match to {
        Stream::Output => rt.print(x),
        Stream::Errors => rt.eprint(x),
    }
}

// Words with a figure in the place of each mark.
pub(crate) fn say(rt: &impl Streams, to: Stream, t: &[u8], figures: &[u64]) -> io::Result<()> {
    let mut rest = t;
    for figure in figures {
        let Some(at) = rest.iter().position(|b| *b == b'%') else {
            return put(rt, to, rest);
        };
        put(rt, to, &rest[..at])?;
        put_figure(rt, to, *figure)?;
        rest = &rest[at + 1..];
    }
    put(rt, to, rest)
}

// Writes bytes on standard error: where that fails, nobody is left to be told.
pub(crate) fn put_error(rt: &impl Streams, t: &[u8]) {
    let _ = put(rt, Stream::Errors, t);
}

// Words with figures there.
pub(crate) fn say_error(rt: &impl Streams, t: &[u8], figures: &[u64]) {
    let _ = say(rt, Stream::Errors, t, figures);
}

// The system's words for a failure, without the number that the library puts behind them.
fn without_number(t: &[u8]) -> &[u8] {
    let number: &[u8] = b" (os error ";
    match t.windows(number.len()).position(|w| w == number) {
        Some(at) => lent::front(t, at),
        None => t,
    }
}

// The end of a line about a call that failed: why it did.
pub(crate) fn end_failed(rt: &impl Streams, why: io::Error) {
    let mut out = [0u8; 128];
    let mut cursor = Cursor::new(&mut out[..]);
    let _ = write!(cursor, "{why}");
    let n = cursor.position() as usize;
    put_error(rt, b": ");
    put_error(rt, without_number(lent::front(&out, n)));
    put_error(rt, b"\n");
}

// The head of a line of a kind on a file; and where the line goes.
pub(crate) fn head(rt: &impl Streams, kind: Kind, name: &[u8]) -> Stream {
    let mark: &[u8] = match kind {
        Kind::Answer => return Stream::Output,
        Kind::Note => b"kifu: note: ",
        Kind::Refused => b"kifu: refused: ",
        Kind::Unread => b"kifu: unread: ",
    };
    put_error(rt, mark);
    quotes::say_name(rt, name);
    put_error(rt, b": ");
    Stream::Errors
}

// A line of a kind on a file.
pub(crate) fn tell(rt: &impl Streams, kind: Kind, name: &[u8], t: &[u8], figures: &[u64]) {
    let to = head(rt, kind, name);
    let _ = say(rt, to, t, figures);
    let _ = put(rt, to, b"\n");
}

// Such a line where there are some of what it tells of.
pub(crate) fn tell_some(rt: &impl Streams, kind: Kind, name: &[u8], t: &[u8], n: u64) {
    if n != 0 {
        tell(rt, kind, name, t, &[n]);
    }
}
