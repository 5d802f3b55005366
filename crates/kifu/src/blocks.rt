// What is asked of a block's file: its text, its lines, an edit of it, or that it be restated.
use crate::edits::Edited;
use crate::notes::{Kind, Stream, Streams};
use crate::words::Word;
use crate::{Unprinted, edits, files, notes, print_text, refusals, told, trees};
use jkf::Figures;
use std::io;
use std::rt::{Env, Files};

// Whether a line before line k hangs on its entry.
fn has_equal(b: &[u8], k: u16) -> bool {
    (1..k).any(|i| {
        block::parent_of(b, i) == block::parent_of(b, k)
            && block::start_of(b, i) == block::start_of(b, k)
    })
}

// How many of the first lines have an equal before them.
fn count_equals(b: &[u8], lines: u16) -> usize {
    (1..lines).filter(|k| has_equal(b, *k)).count()
}

// Says how many lines of a text will nest when it is read again, of all but those that were left out: in version 1 none.
pub(crate) fn tell_nested(rt: &impl Streams, name: &[u8], b: &[u8], left_out: u64) {
    if block::version_in(b) == 1 {
        return;
    }
    let lines = block::lines_in(b) as u64;
    if lines < left_out {
        return;
    }
    notes::tell_some(
        rt,
        Kind::Note,
        name,
        b"variations of a move that has another one before them; read again from this text, they hang inside it: %",
        count_equals(b, (lines - left_out) as u16) as u64,
    );
}

// Whether a block is sound; or says that it is not.
fn is_sound(rt: &impl Streams, name: &[u8], b: &[u8]) -> bool {
    if block::sound(b) {
        return true;
    }
    refusals::tell(
        rt,
        name,
        Figures {
            number: 7,
            first: 0,
            second: 0,
        },
    );
    false
}

// Prints the length, the version and the lines of a block: its listing with another first line.
fn print_lines(rt: &impl Streams, b: &[u8], out: &mut [u8]) -> io::Result<()> {
    let mut head = [0u8; 128];
    let first = shown::put_read(&mut head, 0, b.len() as u64);
    let n = shown::put_listing(out, 0, b);
    notes::say(
        rt,
        Stream::Output,
        b"block % version %\n",
        &[b.len() as u64, block::version_in(b) as u64],
    )?;
    rt.write_all(lent::rest(lent::front(&out[0..], n), first))
}

// Which name is that of the new file.
fn place_of_out(word: Word) -> usize {
    match word {
        Word::BlockPut => 4,
        Word::BlockCut => 3,
        _ => 2,
    }
}

// Prints how long the new block is, and the number of the new line or how many lines were cut.
fn print_done(rt: &impl Streams, word: Word, n: u64, second: u64) -> io::Result<()> {
    match word {
        Word::BlockPut => notes::say(rt, Stream::Output, b"block % line %\n", &[n, second]),
        Word::BlockCut => notes::say(rt, Stream::Output, b"block % removed %\n", &[n, second]),
        _ => notes::say(rt, Stream::Output, b"block %\n", &[n]),
    }
}

// Writes an edited block into a new file, which goes again where that cannot be told.
fn keep_edited(
    rt: &(impl Streams + Env + Files + Input),
    word: Word,
    line: u64,
    name: &[u8],
    b: &[u8],
    room: &mut [u8],
    made: &mut [u8],
) {
    let Some(e) = edits::make(rt, word, line, name, b, room, made) else {
        return;
    };
    if !files::keep(rt, place_of_out(word), lent::front(&made[0..], e.len)) {
        return;
    }
    match told(rt, print_done(rt, word, e.len as u64, e.second)) {
        Ok(()) => edits::tell_variation(rt, e.times),
        Err(Unprinted::Closed) => (),
        Err(Unprinted::Failed) => files::remove(rt, place_of_out(word)),
    }
}

// The text that is put in is read before anything is printed, so both use one buffer.
pub(crate) fn answer(
    rt: &(impl Streams + Env + Files + Input),
    word: Word,
    line: u64,
    name: &[u8],
    b: &[u8],
    out: &mut [u8],
    made: &mut [u8],
) {
    match word {
        Word::Text => {
            let _ = print_text(rt, name, b, out);
        }
        Word::BlockList => {
            if is_sound(rt, name, b) {
                let _ = told(rt, print_lines(rt, b, out));
            }
        }
        Word::BlockTree => {
            if is_sound(rt, name, b) {
                let _ = told(rt, trees::print(rt, b));
            }
        }
        _ => keep_edited(rt, word, line, name, b, out, made),
    }
}
