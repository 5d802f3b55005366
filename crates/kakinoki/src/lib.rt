// Reading what stands before the moves: information lines, hands, the board.   (the Rust's src/parser/kakinoki.rs)
#![tactic(auto)]

mod boards;
mod hands;
mod infos;
mod starts;

pub use infos::key_value;
use jkf::Position;
pub use starts::parse_without_moves;
use text::Cursor;

// A piece in a hand: its kind, how many, and the place past it.
#[derive(Clone, Copy)]
pub struct Piece {
    pub kind: u8,
    pub count: u8,
    pub next: Cursor,
}

// The counts of a hand, 歩 to 飛, and the place past it.   (the Rust's Hand)
#[derive(Clone, Copy)]
pub struct Hand {
    pub counts: [u8; 7],
    pub next: Cursor,
}

// Whose hand a line says, and the place past it; that it cannot be read; or that it is no hand line.
#[derive(Clone, Copy)]
pub enum Held {
    By(u8, Cursor),
    Unreadable,
    NoHand,
}

#[derive(Clone, Copy)]
pub struct HandSaid {
    pub held: Held,
    pub counts: [u8; 7],
}

// A key and its value: where the value begins and ends, and the place past the line.
#[derive(Clone, Copy)]
pub struct KeyValue {
    pub from: Cursor,
    pub to: Cursor,
    pub next: Cursor,
}

// What an information line is; that it is a hand line that cannot be read; or no information line.   (the Rust's Information)
#[derive(Clone, Copy)]
pub enum Info {
    Preset(u8),
    Turn(u8),
    Hands(u8),
    Keyed,
    Refused,
    Nothing,
}

// What it is, the counts of its hand, and the place past it.
#[derive(Clone, Copy)]
pub struct Information {
    pub info: Info,
    pub counts: [u8; 7],
    pub next: Cursor,
}

// What an information block says, but for its header entries.   (the Rust's InformationData)
#[derive(Clone, Copy)]
pub struct Told {
    pub preset: Option<u8>,
    pub turn: Option<u8>,
    pub black: [u8; 7],
    pub white: [u8; 7],
}

// An information block: what it says, how many header entries it has, the hand line in it that cannot be read, if any, and the place past it.
#[derive(Clone, Copy)]
pub struct InformationBlock {
    pub told: Told,
    pub headers: usize,
    pub fault: Option<usize>,
    pub next: Cursor,
}

// A diagram, if it is there: its cells by file and rank, and the place past it.
#[derive(Clone, Copy)]
pub struct Board {
    // a flag beside the cells and no Option: in this repository no enum carries an array
    pub there: bool,
    pub cells: [u8; 81],
    pub next: Cursor,
}

// What stands before the moves: a hand line that cannot be read, if any, the position, how many header lines there are, and the place past them.
#[derive(Clone, Copy)]
pub struct Start {
    pub fault: Option<usize>,
    pub position: Position,
    pub headers: usize,
    pub next: Cursor,
}
