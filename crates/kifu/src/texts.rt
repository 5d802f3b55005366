// What is asked of a KIF text.
use crate::notes::{Kind, Stream, Streams};
use crate::words::Word;
use crate::{
    Unprinted, edits, files, notes, passes, print_text, refusals, shows, times, told, trees,
    wheres, words,
};
use std::io;
use std::rt::{Env, Files};
use stops::StopAnswer;

// How many lines of a text the first bytes have.
fn lines_of(s: &[u8], n: usize) -> u64 {
    if n == 0 {
        return 0;
    }
    stops::line_column(s, n - 1).line
}

// Whether a line begins at a place with a byte.
fn is_led(s: &[u8], at: usize, b: u8) -> bool {
    lent::peek(s, at) == b && (at == 0 || lent::peek(s, at - 1) == b'\n')
}

// Where the first line begins that begins with a byte.
fn first_led(s: &[u8], b: u8) -> Option<usize> {
    (0..s.len()).find(|at| is_led(s, *at, b))
}

// How many lines begin with a byte.
fn count_led(s: &[u8], b: u8) -> usize {
    (0..s.len()).filter(|at| is_led(s, *at, b)).count()
}

// Says what a person may not expect of a text that was read: it has no moves, or a diagram that was not understood.
fn tell_doubts(rt: &impl Streams, kind: Kind, name: &[u8], s: &[u8], b: &[u8]) {
    if s.is_empty() {
        notes::tell(rt, kind, name, b"the file is empty", &[]);
    }
    if block::moves_in(b) == 1 {
        notes::tell(rt, kind, name, b"no move was read", &[]);
    }
    let Some(at) = first_led(s, b'|') else {
        return;
    };
    if block::position_of(b).board == 0 {
        notes::tell(
            rt,
            kind,
            name,
            b"line %: this looks like a diagram that cannot be read; the game starts from \xe5\xb9\xb3\xe6\x89\x8b or a handicap",
            &[stops::line_column(s, at).line],
        );
    }
}

// Says what was left of a text that was read, and what was passed over in it; and whether moves were passed over.
fn tell_read(rt: &impl Streams, kind: Kind, name: &[u8], s: &[u8], b: &[u8]) -> bool {
    wheres::tell_left(rt, kind, name, s);
    let is_hiding = passes::tell(rt, kind, name, s, passes::before_moves(s).next);
    tell_doubts(rt, kind, name, s, b);
    is_hiding
}

// Prints how much of a text was taken, and what it holds.
fn print_counts(rt: &impl Streams, s: &[u8], taken: usize, b: &[u8]) -> io::Result<()> {
    notes::say(
        rt,
        Stream::Output,
        b"lines read: % of %",
        &[lines_of(s, taken), lines_of(s, s.len())],
    )?;
    notes::say(
        rt,
        Stream::Output,
        b" (% of % bytes)\n",
        &[taken as u64, s.len() as u64],
    )?;
    notes::say(
        rt,
        Stream::Output,
        b"lines of play: %, moves and endings: %\n",
        &[
            block::lines_in(b) as u64,
            block::moves_in(b).saturating_sub(1) as u64,
        ],
    )
}

// Prints the answer to `check`: that, and what no text keeps.
fn print_check(
    rt: &impl Streams,
    name: &[u8],
    s: &[u8],
    taken: usize,
    b: &[u8],
    lost: u64,
) -> io::Result<()> {
    print_counts(rt, s, taken, b)?;
    let headers = passes::before_moves(s).headers;
    notes::tell_some(
        rt,
        Kind::Answer,
        name,
        b"lines that begin with #, which are not kept: %",
        count_led(s, b'#') as u64,
    );
    notes::tell_some(
        rt,
        Kind::Answer,
        name,
        b"header lines whose key stands again below, which are not kept: %",
        headers.saturating_sub(block::headers_in(b)) as u64,
    );
    if tell_read(rt, Kind::Answer, name, s, b) {
        notes::tell(rt, Kind::Unread, name, b"moves were passed over", &[]);
    }
    times::tell(rt, Kind::Answer, name, times::of_text(s, lost));
    Ok(())
}

// Prints bytes taken and block length.
fn print_read(rt: &impl Print, taken: u64, len: u64) -> io::Result<()> {
    let mut out = [0u8; 128];
    let n = shown::put_read(&mut out, taken, len);
    rt.write_all(lent::front(&out, n))
}

// Prints the listing of a block.
fn print_listing(rt: &impl Print, taken: u64, b: &[u8], out: &mut [u8]) -> io::Result<()> {
    let n = shown::put_listing(out, taken, b);
    rt.write_all(lent::front(&out[0..], n))
}

// Writes a block into the new file that the second name is of, and prints how long it is; without that the file goes again.
fn keep(rt: &(impl Streams + Env + Files), taken: u64, b: &[u8]) -> Result<(), Unprinted> {
    if !files::keep(rt, 2, b) {
        return Err(Unprinted::Failed);
    }
    let printed = told(rt, print_read(rt, taken, b.len() as u64));
    if let Err(Unprinted::Failed) = printed {
        files::remove(rt, 2);
    }
    printed
}

// Prints a block as a text once it is edited. The edit is done before anything is printed, so both use one buffer. What an edit needs of the
// stack no other word pays.
#[inline(never)]
fn print_edited(
    rt: &(impl Streams + Env + Files + Input),
    word: Word,
    line: u64,
    name: &[u8],
    b: &[u8],
    out: &mut [u8],
) -> Result<(), Unprinted> {
    let mut edited = [0u8; 65535];
    let Some(e) = edits::make(rt, word, line, name, b, out, &mut edited) else {
        return Err(Unprinted::Failed);
    };
    print_text(rt, name, lent::front(&edited, e.len), out)?;
    edits::tell_variation(rt, e.times);
    if word == Word::Cut {
        notes::tell(
            rt,
            Kind::Note,
            name,
            b"lines of play cut out: %",
            &[e.second],
        );
    }
    Ok(())
}

// Prints the position after an entry, or says why there is none.
fn print_position(
    rt: &impl Streams,
    name: &[u8],
    b: &[u8],
    line: u64,
    entry: u64,
) -> Result<(), Unprinted> {
    let after = positions::position_after(b, line, entry);
    if shows::tell(rt, name, b, after) {
        return Err(Unprinted::Failed);
    }
    told(rt, shows::print(rt, b, after))
}

// What is asked of a text that was read into a block, but for `check`.
fn give(
    rt: &(impl Streams + Env + Files + Input),
    word: Word,
    line: u64,
    entry: u64,
    name: &[u8],
    taken: u64,
    b: &[u8],
    out: &mut [u8],
) -> Result<(), Unprinted> {
    match word {
        Word::List => told(rt, print_listing(rt, taken, b, out)),
        Word::Block => keep(rt, taken, b),
        Word::Put | Word::Cut => print_edited(rt, word, line, name, b, out),
        Word::Show => print_position(rt, name, b, line, entry),
        Word::Tree => told(rt, trees::print(rt, b)),
        _ => print_text(rt, name, b, out),
    }
}

// Says that lines were passed over that are moves, or that may be, since no other move was read; and whether it is so.
fn tell_passed(rt: &impl Streams, name: &[u8], s: &[u8], b: &[u8]) -> bool {
    let from = passes::before_moves(s).next;
    let w = passes::walked(s, from, s.len());
    if w.hidden == 0 && (w.odd == 0 || block::moves_in(b) != 1) {
        return false;
    }
    passes::tell(rt, Kind::Refused, name, s, from);
    notes::tell(
        rt,
        Kind::Note,
        name,
        b"nothing was done, since moves would be lost; --partial goes on without them",
        &[],
    );
    true
}

// Says what a word that writes would lose of a text; and whether there is such a thing.
fn tell_loss(rt: &impl Streams, name: &[u8], s: &[u8], b: &[u8]) -> bool {
    wheres::tell_left(rt, Kind::Refused, name, s) || tell_passed(rt, name, s, b)
}

// Reads a text into a block, does what is asked of it and tells the rest; of times that were lost a listing has none to show.
pub(crate) fn read(
    rt: &(impl Streams + Env + Files + Input),
    word: Word,
    line: u64,
    entry: u64,
    name: &[u8],
    text: &[u8],
    out: &mut [u8],
    made: &mut [u8],
) {
    let r = parser::fill(text, made);
    let f = jkf::Figures::from(r.answer);
    if f.number != 0 {
        refusals::tell_text(rt, name, text, f);
        return;
    }
    let b = lent::front(&made[0..], f.second as usize);
    if word == Word::Check {
        let _ = told(rt, print_check(rt, name, text, f.first as usize, b, r.lost));
        return;
    }
    if words::wants_all(rt, word) && tell_loss(rt, name, text, b) {
        return;
    }
    if let Err(Unprinted::Closed) = give(rt, word, line, entry, name, f.first, b, out) {
        return;
    }
    tell_read(rt, Kind::Note, name, text, b);
    if word != Word::List {
        times::tell(rt, Kind::Note, name, times::of_text(text, r.lost));
    }
}

// Prints where reading of a text stopped, or says why the text is refused.
pub(crate) fn print_where(rt: &impl Streams, name: &[u8], text: &[u8]) {
    let stop = stops::stop(text);
    let StopAnswer::Stopped(taken, reason, at) = stop else {
        refusals::tell_stop(rt, name, text, stop);
        return;
    };
    let printed = wheres::print(rt, name, text, taken as usize, reason, at as usize);
    if told(rt, printed).is_ok() {
        passes::tell(
            rt,
            Kind::Answer,
            name,
            text,
            passes::before_moves(text).next,
        );
    }
}
