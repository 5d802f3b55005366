// A line of play of a text: move lines, each with its comments. Counted, and filled into a block.
#![tactic(auto)]

mod counts;
mod fills;

pub use counts::{count_comments, count_moves, count_sequence, past, ply, skipped, skips};
use filling::Walk;
pub use fills::{fill_comments, fill_moves};
use text::Cursor;

// Comments: how many, how many bytes they have, and the place past them.
#[derive(Clone, Copy)]
pub struct Remarks {
    pub count: usize,
    pub bytes: usize,
    pub next: Cursor,
}

// A line of play: its entries, their comments and the bytes of these, and the place past it.
#[derive(Clone, Copy)]
pub struct Extent {
    pub entries: usize,
    pub comments: usize,
    pub bytes: usize,
    pub next: Cursor,
}

// The block that is being filled, and the place in the text past what was filled into it.
#[derive(Clone, Copy)]
pub struct Reached {
    pub walk: Walk,
    pub next: Cursor,
}

// The same with a line of play, and how many of its move lines lost a time to a figure too large.
#[derive(Clone, Copy)]
pub struct FilledPlay {
    pub walk: Walk,
    pub next: Cursor,
    pub lost: usize,
}
