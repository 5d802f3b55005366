// The types of a record, the answers of the calls, and the attaching rule.   (the Rust's src/jkf.rs)
#![tactic(auto)]

mod attaching;
mod entries;

ghost use Rattle.std.specs.Prelude.{◌≡◌};
ghost use Rattle.jkf.specs.Answers.{figures, figured};

pub use attaching::{hang_of, nearest, nearest_in_turn};
pub use entries::time_of;

// What a call of 01 answers: done, with two figures, or one of the 17 refusals.
#[derive(Clone, Copy)]
pub enum Answer {
    Done(u64, u64),
    TextTooLong(u64),
    NotUtf8(u64),
    HandLine(u64),
    BlockTooLong(u64),
    BufferShort(u64),
    NoEntry(u64, u64),
    NotSound,
    HandCount(u64, u64),
    CannotWrite(u64, u64),
    NoSuchPart(u64),
    NotOneVariation,
    OutsideLine(u64, u64),
    EntryTaken(u64, u64),
    NoStart(u64),
    NoSuchEntry(u64, u64),
    PlayStopped(u64, u64),
    StartsAtZero(u64),
}

// The number of an answer, 0 for done, and its two figures.
#[derive(Clone, Copy)]
pub struct Figures {
    pub number: u64,
    pub first: u64,
    pub second: u64,
}

// The number and figures of an answer.
impl From<Answer> for Figures {
    ghost from_gives = { λ a f. f ≡ figures a };

    #[tactic(auto, unfolding(crate::specs::Answers::figures))]
    fn from(a: Answer) -> Figures {
        match a {
            Answer::Done(x, y) => figured(0, x, y),
            Answer::TextTooLong(n) => figured(1, n, 0),
            Answer::NotUtf8(n) => figured(2, n, 0),
            Answer::HandLine(n) => figured(3, n, 0),
            Answer::BlockTooLong(n) => figured(4, n, 0),
            Answer::BufferShort(n) => figured(5, n, 0),
            Answer::NoEntry(x, y) => figured(6, x, y),
            Answer::NotSound => figured(7, 0, 0),
            Answer::HandCount(x, y) => figured(8, x, y),
            Answer::CannotWrite(x, y) => figured(9, x, y),
            Answer::NoSuchPart(n) => figured(10, n, 0),
            Answer::NotOneVariation => figured(11, 0, 0),
            Answer::OutsideLine(x, y) => figured(12, x, y),
            Answer::EntryTaken(x, y) => figured(13, x, y),
            Answer::NoStart(n) => figured(15, n, 0),
            Answer::NoSuchEntry(x, y) => figured(16, x, y),
            Answer::PlayStopped(x, y) => figured(17, x, y),
            Answer::StartsAtZero(n) => figured(20, n, 0),
        }
    }
}

fn figured(number: u64, first: u64, second: u64) -> Figures
    ensures { result ≡ figured number first second }
{
    Figures {
        number,
        first,
        second,
    }
}

// An ending, in the Rust's order.   (the Rust's MoveSpecial)
#[derive(Clone, Copy)]
pub enum Special {
    Toryo,
    Chudan,
    Sennichite,
    TimeUp,
    IllegalMove,
    IllegalActionBlack,
    IllegalActionWhite,
    Jishogi,
    Kachi,
    Hikiwake,
    Matta,
    Tsumi,
    Fuzumi,
    Error,
}

// A time of the clock, with its hour or without.   (the Rust's TimeFormat)
#[derive(Clone, Copy)]
pub enum Clock {
    Hms(u8, u8, u8),
    Ms(u8, u8),
}

// The time of an entry: what it took and the total, or none. An enum of its own, as 01 names its form.   (the Rust's Option<Time>)
#[derive(Clone, Copy)]
pub enum Time {
    Untimed,
    Timed(Clock, Clock),
}

// Where a move goes: the square of the move before it, or a file and a rank.
#[derive(Clone, Copy)]
pub enum Target {
    Same,
    Square(u8, u8),
}

// A move: its colour (0 Black, 1 White), the kind from 1, and 0 for no mark, 1 for 不成, 2 for 成.   (the Rust's MoveMoveFormat)
#[derive(Clone, Copy)]
pub struct Move {
    // numbers and no enums, as in a position: a block may have any bytes here, and the calls promise what they answer for each
    pub color: u8,
    pub piece: u8,
    pub promote: u8,
    pub to: Target,
    // None where it is not known
    pub from: Option<(u8, u8)>,
    pub time: Time,
}

// An entry of a line: the initial slot, a move, or a special.   (the Rust's MoveFormat)
#[derive(Clone, Copy)]
pub enum Entry {
    Slot,
    Moved(Move),
    End(Special, Time),
}

// The position that a record starts from: a preset alone, or a diagram with hands and the side to move.   (the Rust's Initial)
#[derive(Clone, Copy)]
pub struct Position {
    pub preset: u8,
    pub board: u8,
    pub turn: u8,
    pub cells: [u8; 81],
    pub hands: [u8; 14],
}
