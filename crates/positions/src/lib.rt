// The position after an entry: play from the start of a record along the path to the entry.   (02, request (i))
#![tactic(auto)]

mod paths;
mod starts;
mod steps;

use jkf::{Answer, Position};
pub use paths::{position_after, store_position};
pub use steps::play_step;

// Why a move stops the play.   (02, request (i): "stops the play")
#[derive(Clone, Copy)]
pub enum Hindrance {
    NoneBefore,
    OffBoard,
    NotThere,
    NoPromotion,
    OwnPiece,
    King,
    HandFull,
    NotInHand,
    OntoPiece,
}

// A position after a step: what stopped it, if anything; the place of the last landing (81 for none); the position.
#[derive(Clone, Copy)]
pub struct Stepping {
    pub how: Option<Hindrance>,
    pub last: usize,
    pub position: Position,
}

// A course of play: what stopped it, if anything; the line and entry of its last move or of the one that stopped it; the place of the last landing; the position.
#[derive(Clone, Copy)]
pub struct Course {
    pub how: Option<Hindrance>,
    pub line: usize,
    pub entry: usize,
    pub last: usize,
    pub position: Position,
}

// All of a course but the position.
#[derive(Clone, Copy)]
pub struct Trail {
    pub how: Option<Hindrance>,
    pub line: usize,
    pub entry: usize,
    pub last: usize,
}

// The answer; how the play went, which is as before any move where none was played; and the position, which is all zero if refused.
#[derive(Clone, Copy)]
pub struct After {
    pub answer: Answer,
    pub trail: Trail,
    pub position: Position,
}
