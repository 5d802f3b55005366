// The command-line tool: reads the file that it is given, and prints or writes what its words ask for.
// A program has no exit status of its own. So each line on standard error begins with `kifu: refused`, `kifu: unread`, `kifu: usage` or `kifu: note`,
// and the launcher turns them into the status.
#![tactic(auto)]

mod blocks;
mod edits;
mod files;
mod losses;
mod notes;
mod passes;
mod paths;
mod quotes;
mod reasons;
mod refusals;
mod shows;
mod texts;
mod times;
mod trees;
mod wheres;
mod words;

use crate::notes::Streams;
use crate::words::{Flag, Word};
use std::io;
use std::rt::{Env, Files};

// Why not all was printed: who reads has closed the pipe, so that nothing more is said; or another reason, which was told.
#[derive(Clone, Copy, PartialEq, Eq, Drop)]
pub enum Unprinted {
    Closed,
    Failed,
}

// Says so where standard output did not take all, and hands that on. Who has closed a pipe is not told: `| head -1` is no mistake.
pub(crate) fn told(rt: &impl Streams, written: io::Result<()>) -> Result<(), Unprinted> {
    let Err(why) = written else {
        return Ok(());
    };
    if why.kind() == io::ErrorKind::BrokenPipe {
        return Err(Unprinted::Closed);
    }
    notes::put_error(rt, b"kifu: refused: standard output");
    notes::end_failed(rt, why);
    Err(Unprinted::Failed)
}

// Prints a block as a text, and says what is lost by that, if it may lose something.
pub(crate) fn print_text(
    rt: &(impl Streams + Env),
    name: &[u8],
    b: &[u8],
    out: &mut [u8],
) -> Result<(), Unprinted> {
    let f = jkf::Figures::from(converter::write_as(b, words::mode(rt), out));
    if f.number != 0 {
        refusals::tell(rt, name, f);
        return Err(Unprinted::Failed);
    }
    told(rt, rt.write_all(lent::front(&out[0..], f.first as usize)))?;
    if words::has(rt, Flag::Plain) {
        losses::tell(rt, name, b, f.second);
    }
    blocks::tell_nested(rt, name, b, f.second);
    Ok(())
}

// What is asked of the bytes of a file.
fn answer(
    rt: &(impl Streams + Env + Files + Input),
    word: Word,
    line: u64,
    entry: u64,
    name: &[u8],
    bytes: &[u8],
    out: &mut [u8],
    made: &mut [u8],
) {
    if word.is_of_block() {
        blocks::answer(rt, word, line, name, bytes, out, made);
    } else if word == Word::Where {
        texts::print_where(rt, name, bytes);
    } else {
        texts::read(rt, word, line, entry, name, bytes, out, made);
    }
}

// What is asked of the file with a name: of one byte more than a text or a block may have, so that a longer one is refused and not cut. What is
// printed has room: of a block's bytes 20 of an entry come to at most 55 of text, and all others to less at that rate, but for the position, at most
// 2,048; the longest listing has 112,133. A block that is made has room too, as long as a block can be. Wrong words pay for none of this.
#[inline(never)]
fn obey(rt: &(impl Streams + Env + Files + Input), word: Word, line: u64, entry: u64, name: &[u8]) {
    let mut input = [0u8; 65536];
    let Some(bytes) = files::fill(rt, name, !word.is_of_block(), &mut input) else {
        return;
    };
    let mut out = [0u8; 182000];
    let mut made = [0u8; 65535];
    answer(rt, word, line, entry, name, bytes, &mut out, &mut made);
}

// The line that the second name numbers and the entry that the third does, where a word takes them, and else 0; or says what is no number.
fn line_and_entry(rt: &(impl Streams + Env), word: Word) -> Option<(u64, u64)> {
    if !word.takes_line() {
        return Some((0, 0));
    }
    let line = words::number(rt, 2, b"LINE")?;
    if word != Word::Show {
        return Some((line, 0));
    }
    let entry = words::number(rt, 3, b"ENTRY")?;
    Some((line, entry))
}

// What the first word asks for, where the others are such as it takes.
fn start(rt: &(impl Streams + Env + Files + Input), first: &[u8]) {
    let Some(word) = words::word_of(rt, first) else {
        return;
    };
    if !words::is_used(rt, word) {
        return;
    }
    let Some((line, entry)) = line_and_entry(rt, word) else {
        return;
    };
    let mut name = [0u8; 4096];
    obey(rt, word, line, entry, words::name(rt, 1, &mut name));
}

// The first word says what is asked for.
fn main(rt: HostRuntime) {
    let mut first = [0u8; 4096];
    start(&rt, words::arg(&rt, 1, &mut first));
}
