// A block being filled: how long it is, its front, and the ends at which its parts grow. Each part is put whole or, where it has no
// room, not at all.
#![tactic(auto)]

mod hangs;
mod opens;
mod puts;

pub use hangs::hang_line;
pub use opens::{admit, open};
pub use puts::{put_comment, put_entry, put_header, put_line};

// How many header entries, lines, entries and comments a block has, and how many bytes of text.
#[derive(Clone, Copy)]
pub struct Sizes {
    pub headers: usize,
    pub lines: usize,
    pub entries: usize,
    pub comments: usize,
    pub bytes: usize,
}

// Where the header rows, the line rows, the entries, the comment rows and the texts of a block end by now, and how many entries,
// comments and bytes of text it has by now.
#[derive(Clone, Copy)]
pub struct Walk {
    pub headers: usize,
    pub lines: usize,
    pub moves: usize,
    pub comments: usize,
    pub text: usize,
    pub entries: usize,
    pub noted: usize,
    pub bytes: usize,
}
