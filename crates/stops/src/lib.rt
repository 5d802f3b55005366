// Where reading stopped, and why.   (02, request (ii))
#![tactic(auto)]

mod spots;
mod tries;
mod walks;

ghost use Rattle.std.specs.Prelude.{◌≡◌, ◌≤◌, length};
ghost use Rattle.kakinoki.specs.Starts.{on_fault, start_read};
ghost use Rattle.stops.specs.Stopping.{played_stop, stop_of};

use moves::Reason;
pub use spots::line_column;
use text::Cursor;
pub use tries::stop_figures;
use walks::walk;

// A variation that hangs nowhere: its number and ply, the line that it would hang on with its first and its last ply, and where its first move
// line begins.
#[derive(Clone, Copy)]
pub struct Astray {
    pub variation: u64,
    pub ply: u64,
    pub parent: u64,
    pub first: u64,
    pub last: u64,
    pub at: u64,
}

// Why a text is refused; or the first byte not taken, the reason, and the place that the failing rule reached.
#[derive(Clone, Copy)]
pub enum StopAnswer {
    TextTooLong(u64),
    NotUtf8(u64),
    HandLine(u64),
    NoEntry(Astray),
    Stopped(u64, Reason, u64),
}

// What ends at the place where reading ends: the blocks, a line of play or the slot with its comments, or a skip line.
#[derive(Clone, Copy)]
pub enum Seeking {
    AtHead,
    AfterComments,
    AfterSkips,
}

// Where a line of play ends, and the place past the skip line that may stand behind it.
#[derive(Clone, Copy)]
pub struct Gone {
    pub next: Cursor,
    pub end: Cursor,
}

// A place for a reader: its line, and its character in that line, both counted from 1.
#[derive(Clone, Copy)]
pub struct Spot {
    pub line: u64,
    pub column: u64,
}

// A text that is not too long and is UTF-8.
fn stop_text(s: &[u8]) -> StopAnswer
    requires { length s.now ≤ 65535 }
    ensures { result ≡ on_fault (start_read s.now).fault StopAnswer.HandLine (played_stop s.now (start_read s.now).next.at) }
{
    let mut places = [0u16; 13107];
    let start = kakinoki::parse_without_moves(s, &mut places);
    match start.fault {
        Some(at) => StopAnswer::HandLine(at as u64),
        None => {
            let mut rows = [0u8; 65536];
            walk(start.next, s, &mut rows)
        }
    }
}

// Where reading stops, and why; refusals 1, 2, 3 and 6 come before.
pub fn stop(text: &[u8]) -> StopAnswer
    ensures { result ≡ stop_of text.now }
{
    if 65535 < text.len() {
        return StopAnswer::TextTooLong(text.len() as u64);
    }
    let n = text::well_formed(text);
    if n < text.len() {
        return StopAnswer::NotUtf8(n as u64);
    }
    stop_text(text)
}
