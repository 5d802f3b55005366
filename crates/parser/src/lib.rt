// Reading a text into a block.   (the Rust's parse)
#![tactic(auto)]

mod counts;
mod fills;
mod headers;
mod reads;
mod stores;
mod surveys;

use filling::Sizes;
use jkf::{Answer, Position};
pub use reads::{fill, measure};
use text::Cursor;

// All lines of play: how many, their entries, their comments and the bytes of these, and the place past them.
#[derive(Clone, Copy)]
pub struct Extents {
    pub lines: usize,
    pub entries: usize,
    pub comments: usize,
    pub bytes: usize,
    pub next: Cursor,
}

// A text before anything of it is stored: the refusal, if any; else its position, where its lines of play begin, the sizes of its block, and
// how many bytes are taken.
#[derive(Clone, Copy)]
pub struct Survey {
    pub early: Option<Answer>,
    pub position: Position,
    pub moves: Cursor,
    pub sizes: Sizes,
    pub taken: usize,
}

// What filling answers, and how many move lines lost a time to a figure too large: none where it refuses.
#[derive(Clone, Copy)]
pub struct FillAnswer {
    pub answer: Answer,
    pub lost: u64,
}
