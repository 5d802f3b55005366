// The words that the tool is told by, and how it is used.
ghost use Rattle.std.specs.Prelude.{◌≤◌, length};

use crate::notes::{Streams, put_error};
use crate::quotes;
use converter::Mode;
use std::env::{Env, FillError};
use text::Cursor;

// What is asked for.
#[derive(Clone, Copy, PartialEq, Eq)]
pub enum Word {
    List,
    Tidy,
    Block,
    Check,
    Where,
    Put,
    Cut,
    Show,
    Tree,
    Text,
    Restate,
    BlockList,
    BlockPut,
    BlockCut,
    BlockTree,
}

// All of them, in the order of their uses.
const WORDS: [Word; 15] = [
    Word::List,
    Word::Tidy,
    Word::Block,
    Word::Check,
    Word::Where,
    Word::Put,
    Word::Cut,
    Word::Show,
    Word::Tree,
    Word::Text,
    Word::Restate,
    Word::BlockList,
    Word::BlockPut,
    Word::BlockCut,
    Word::BlockTree,
];

const USES: &[u8] = b"list FILE [--skip-bom]\n\
                      tidy FILE [--plain] [--partial] [--skip-bom]\n\
                      block FILE OUT [--partial] [--skip-bom]\n\
                      check FILE [--skip-bom]\n\
                      where FILE [--skip-bom]\n\
                      put FILE LINE VARIATION [--plain] [--partial] [--skip-bom]\n\
                      cut FILE LINE [--plain] [--partial] [--skip-bom]\n\
                      show FILE LINE ENTRY [--skip-bom]\n\
                      tree FILE [--skip-bom]\n\
                      text BLOCK [--plain]\n\
                      restate BLOCK OUT\n\
                      block-list BLOCK\n\
                      block-put BLOCK LINE VARIATION OUT [--skip-bom]\n\
                      block-cut BLOCK LINE OUT\n\
                      block-tree BLOCK\n";

// The flags, and what begins as one does.
#[derive(Clone, Copy, PartialEq, Eq)]
pub enum Flag {
    Plain,
    Partial,
    SkipBom,
    Unknown,
}

impl Word {
    // Whether the file that is named first is a block's, and no text's.
    pub(crate) fn is_of_block(self) -> bool {
        matches!(
            self,
            Word::Text
                | Word::Restate
                | Word::BlockList
                | Word::BlockPut
                | Word::BlockCut
                | Word::BlockTree
        )
    }

    // How many names it takes.
    fn names(self) -> usize
        ensures { result ≤ 4 }
    {
        match self {
            Word::BlockPut => 4,
            Word::Put | Word::Show | Word::BlockCut => 3,
            Word::Block | Word::Cut | Word::Restate => 2,
            _ => 1,
        }
    }

    // Whether the number of a line is its second name.
    pub(crate) fn takes_line(self) -> bool {
        matches!(
            self,
            Word::Put | Word::Cut | Word::Show | Word::BlockPut | Word::BlockCut
        )
    }

    // Whether a flag may stand behind it.
    fn takes(self, flag: Flag) -> bool {
        match flag {
            Flag::Plain => matches!(self, Word::Tidy | Word::Put | Word::Cut | Word::Text),
            Flag::Partial => matches!(self, Word::Tidy | Word::Block | Word::Put | Word::Cut),
            Flag::SkipBom => !self.is_of_block() || self == Word::BlockPut,
            Flag::Unknown => false,
        }
    }
}

// Word i of the command line, put into a buffer; nothing where there is none, or no room for it.
pub(crate) fn arg<'a>(rt: &impl Env, i: usize, w: &'a mut [u8]) -> &'a [u8]
    ensures { length result.now ≤ length w.old }
{
    match rt.arg(i, w) {
        Ok(n) => &w[..n],
        Err(_) => &[],
    }
}

// How many words the command line has, the program's name among them.
fn arg_count(rt: &impl Env) -> usize {
    for i in 0..usize::MAX {
        if let Err(FillError::NotPresent) = rt.arg(i, &mut []) {
            return i;
        }
    }
    usize::MAX
}

// Which flag a word is, if it is no name.
fn flag_of(w: &[u8]) -> Option<Flag> {
    match w {
        b"--plain" => Some(Flag::Plain),
        b"--partial" => Some(Flag::Partial),
        b"--skip-bom" => Some(Flag::SkipBom),
        [b'-', b'-', ..] => Some(Flag::Unknown),
        _ => None,
    }
}

// Which flag the word at a place is, if it is no name.
fn flag_at(rt: &impl Env, i: usize) -> Option<Flag> {
    let mut w = [0u8; 4096];
    flag_of(arg(rt, i, &mut w))
}

// Whether a flag stands behind the first word.
pub(crate) fn has(rt: &impl Env, flag: Flag) -> bool {
    (2..arg_count(rt)).any(|i| flag_at(rt, i) == Some(flag))
}

// The place of name k behind the first word, counted from 1, if there are so many.
fn place_of(rt: &impl Env, k: usize) -> Option<usize> {
    (2..arg_count(rt))
        .filter(|i| flag_at(rt, *i).is_none())
        .nth(k.saturating_sub(1))
}

// Name k, put into a buffer; nothing where there is none, or no room for it.
pub(crate) fn name<'a>(rt: &impl Env, k: usize, w: &'a mut [u8]) -> &'a [u8]
    ensures { length result.now ≤ length w.old }
{
    match place_of(rt, k) {
        Some(i) => arg(rt, i, w),
        None => &[],
    }
}

// Whether name k is that of standard input.
fn is_input(rt: &impl Env, k: usize) -> bool {
    let mut w = [0u8; 4096];
    matches!(name(rt, k, &mut w), b"-")
}

// The mode that is asked for: without --plain the one that loses nothing and that other programs read.
pub(crate) fn mode(rt: &impl Env) -> Mode {
    if has(rt, Flag::Plain) {
        return Mode::Plain;
    }
    Mode::Shared
}

// Whether a word refuses what was not read to its end: each that writes, if --partial is not there.
pub(crate) fn wants_all(rt: &impl Env, word: Word) -> bool {
    word.takes(Flag::Partial) && !has(rt, Flag::Partial)
}

// Whether the flags are such as a word takes.
fn are_flags(rt: &impl Env, word: Word) -> bool {
    (2..arg_count(rt)).all(|i| flag_at(rt, i).is_none_or(|flag| word.takes(flag)))
}

// Whether the names are as many as a word takes, and standard input is one of them at most.
fn are_names(rt: &impl Env, word: Word) -> bool {
    let n = word.names();
    if place_of(rt, n).is_none() || place_of(rt, n + 1).is_some() {
        return false;
    }
    !is_input(rt, 1) || !is_input(rt, 3)
}

// Digits to the end, and no more than there is room for in a number.
fn number_in(w: &[u8]) -> Option<u64> {
    let Ok((n, past)) = Cursor { at: 0 }.digits(w, u64::MAX) else {
        return None;
    };
    if past.at != w.len() {
        return None;
    }
    Some(n)
}

// The number that name k is; or says what is none, by the word that stands for it.
pub(crate) fn number(rt: &(impl Streams + Env), k: usize, stands: &[u8]) -> Option<u64> {
    let mut w = [0u8; 4096];
    let w = name(rt, k, &mut w);
    let n = number_in(w);
    if n.is_none() {
        put_error(rt, b"kifu: usage: ");
        put_error(rt, stands);
        put_error(rt, b" must be a number, and this is none: ");
        quotes::say_word(rt, w);
        put_error(rt, b"\n");
    }
    n
}

// Where the line behind the one at a place begins.
fn next_row(table: &[u8], at: usize) -> usize {
    let Some(next) = (Cursor { at }).line_end(table) else {
        return table.len();
    };
    next.at
}

// Whether the row at a place is that of a word.
fn is_row_of(table: &[u8], at: usize, w: &[u8]) -> bool {
    let Some(past) = (Cursor { at }).tag(table, w) else {
        return false;
    };
    lent::peek(table, past.at) == b' '
}

// What a word of the command line asks for; or says that there is no such word.
pub(crate) fn word_of(rt: &impl Streams, w: &[u8]) -> Option<Word> {
    let mut at = 0;
    for word in WORDS {
        if is_row_of(USES, at, w) {
            return Some(word);
        }
        at = next_row(USES, at);
    }
    tell_unknown(rt, w);
    None
}

// Says that there is no such word.
fn tell_unknown(rt: &impl Streams, w: &[u8]) {
    put_error(rt, b"kifu: usage: ");
    if w.is_empty() {
        put_error(rt, b"a word is missing");
    } else {
        put_error(rt, b"no such word: ");
        quotes::say_word(rt, w);
    }
    put_error(rt, b"; kifu help tells the words\n");
}

// How a word is used.
fn use_of(word: Word) -> &'static [u8] {
    USES.split(|b| *b == b'\n')
        .nth(word as usize)
        .unwrap_or(b"")
}

// Whether names and flags are such as a word takes; or says how it is used.
pub(crate) fn is_used(rt: &(impl Streams + Env), word: Word) -> bool {
    if are_names(rt, word) && are_flags(rt, word) {
        return true;
    }
    put_error(rt, b"kifu: usage: kifu ");
    put_error(rt, use_of(word));
    put_error(rt, b"; kifu help tells more\n");
    false
}
