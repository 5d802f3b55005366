// The position after an entry: the move that led to it and the diagram, or why there is none.   (02, request (i))
use crate::notes::{Kind, Stream, Streams, put, put_error, say_error};
use crate::{notes, refusals};
use converter::Mode;
use jkf::{Entry, Figures, Move, Position, Time};
use positions::{After, Hindrance, Trail};
use std::io;
use text::Cursor;

// A number as a block has it, where none is above 65535.
pub(crate) fn short(n: usize) -> u16 {
    u16::try_from(n).unwrap_or(u16::MAX)
}

// An entry of a line.
fn entry_at(b: &[u8], line: u16, entry: u16) -> Entry {
    block::entry_of(b, short(block::first_entry(b, line) + entry as usize))
}

// The line that the text has of it, with its number; or of what is said in its place.
fn put_line(out: &mut [u8], b: &[u8], line: u16, entry: u16, e: Entry) -> usize {
    let ply = short(block::start_of(b, line) + entry as usize);
    converter::put_entry_text(out, Mode::Shared, ply, e)
}

// The move that led to a position; nothing has landed where none did.
fn print_led(rt: &impl Streams, b: &[u8], trail: Trail) -> io::Result<()> {
    if trail.last == 81 {
        return rt.write_all(b"the start\n");
    }
    let line = short(trail.line);
    let entry = short(trail.entry);
    let mut out = [0u8; 128];
    let n = put_line(&mut out, b, line, entry, entry_at(b, line, entry));
    notes::say(
        rt,
        Stream::Output,
        b"line %, entry %: ",
        &[line as u64, entry as u64],
    )?;
    rt.write_all(lent::front(&out, n))
}

// A position, as a text has it.
fn print_diagram(rt: &impl Print, p: Position) -> io::Result<()> {
    let mut out = [0u8; 2048];
    let n = converter::put_position_text(&mut out, p);
    rt.write_all(lent::front(&out, n))
}

// The move that led to a position, and the position.
pub(crate) fn print(rt: &impl Streams, b: &[u8], after: After) -> io::Result<()> {
    print_led(rt, b, after.trail)?;
    print_diagram(rt, after.position)
}

// Why a move stops the play.
fn words_of(h: Hindrance) -> &'static [u8] {
    match h {
        Hindrance::NoneBefore => b"\xe5\x90\x8c stands with no move before it",
        Hindrance::OffBoard => b"its place is off the board",
        Hindrance::NotThere => b"the side to move has no such piece where it comes from",
        Hindrance::NoPromotion => b"a drop, or a piece of this kind, cannot promote",
        Hindrance::OwnPiece => b"a piece of its own side stands where it lands",
        Hindrance::King => b"it would take a king",
        Hindrance::HandFull => b"the hand has no room for what it takes: 255 is the most",
        Hindrance::NotInHand => b"the side to move has no such piece in hand",
        Hindrance::OntoPiece => b"a piece stands where it is dropped",
    }
}

// An entry without its time.
fn untimed(e: Entry) -> Entry {
    let Entry::Moved(m) = e else {
        return e;
    };
    Entry::Moved(Move {
        time: Time::Untimed,
        ..m
    })
}

// A line without the blanks before it and the break behind it.
fn say_bare(rt: &impl Streams, to: Stream, t: &[u8]) -> io::Result<()> {
    let at = Cursor { at: 0 }.blanks(t).at;
    if t.len() <= at {
        return Ok(());
    }
    put(rt, to, &t[at..t.len() - 1])
}

// The number and the move of an entry.
pub(crate) fn say_move(
    rt: &impl Streams,
    to: Stream,
    b: &[u8],
    line: u16,
    entry: u16,
) -> io::Result<()> {
    let mut out = [0u8; 128];
    let n = put_line(&mut out, b, line, entry, untimed(entry_at(b, line, entry)));
    say_bare(rt, to, lent::front(&out, n))
}

// What stands on a cell: rows of the kinds, with 16 added for White.
fn say_cell(rt: &impl Streams, cell: u8) {
    if cell == 0 {
        put_error(rt, b"; nothing stands there");
        return;
    }
    let mut out = [0u8; 8];
    let n = spell::put_kind(&mut out, cell % 16);
    put_error(rt, b"; there stands ");
    put_error(rt, lent::front(&out, n));
    put_error(
        rt,
        if cell < 16 {
            b" of Black"
        } else {
            b" of White"
        },
    );
}

// What stands on a square after an entry, which is one that play comes past.
fn say_square(rt: &impl Streams, b: &[u8], line: u64, entry: u64, x: u8, y: u8) {
    let after = positions::position_after(b, line, entry);
    let cells = after.position.cells;
    let at = 9 * (x as usize) + y as usize;
    if 10 <= at && at <= 90 {
        say_cell(rt, cells[at - 10]);
    }
}

// What stands where a move comes from, if it is not the first of its line.
fn say_there(rt: &impl Streams, b: &[u8], line: u16, entry: u16) {
    let Entry::Moved(m) = entry_at(b, line, entry) else {
        return;
    };
    let Some((x, y)) = m.from else {
        return;
    };
    if entry == 0 {
        let parent = block::parent_of(b, line);
        let start = block::start_of(b, line);
        let hung = start.saturating_sub(block::start_of(b, short(parent)));
        if hung != 0 {
            say_square(rt, b, parent as u64, hung as u64 - 1, x, y);
        }
        return;
    }
    say_square(rt, b, line as u64, entry as u64 - 1, x, y);
}

// Says in a line at which move play stops, and why.
fn tell_stop(rt: &impl Streams, name: &[u8], b: &[u8], trail: Trail, h: Hindrance) {
    notes::head(rt, Kind::Refused, name);
    say_error(
        rt,
        b"play stops at line of play %, entry % (",
        &[trail.line as u64, trail.entry as u64],
    );
    let _ = say_move(rt, Stream::Errors, b, short(trail.line), short(trail.entry));
    put_error(rt, b"): ");
    put_error(rt, words_of(h));
    if let Hindrance::NotThere = h {
        say_there(rt, b, short(trail.line), short(trail.entry));
    }
    refusals::end(rt, 17);
}

// Says that the handicap with a number has no diagram to play from.
fn tell_start(rt: &impl Streams, name: &[u8], preset: u64) {
    let mut out = [0u8; 16];
    let n = spell::put_preset(&mut out, if preset < 17 { preset as u8 } else { 0 });
    notes::head(rt, Kind::Refused, name);
    put_error(rt, b"the handicap is ");
    put_error(rt, lent::front(&out, n));
    put_error(
        rt,
        b", and the file has no diagram; a game is played only from \xe5\xb9\xb3\xe6\x89\x8b or from a diagram",
    );
    refusals::end(rt, 15);
}

// Says that a line has no such entry, and which is its last.
fn tell_entry(rt: &impl Streams, name: &[u8], b: &[u8], line: u64, entry: u64) {
    let k = u16::try_from(line).unwrap_or(0);
    let last = block::entry_count(b, k).saturating_sub(1);
    notes::head(rt, Kind::Refused, name);
    say_error(
        rt,
        b"line of play % has no entry %; its entries are 0 to %",
        &[line, entry, last as u64],
    );
    refusals::end(rt, 16);
}

// The refusal of a position whose hands cannot be written, and else that of the answer.
fn figures_of(after: After) -> Figures {
    if let Some((side, kind)) = converter::hands_obstacle(after.position) {
        return Figures {
            number: 8,
            first: side,
            second: kind,
        };
    }
    jkf::Figures::from(after.answer)
}

// Says in a line why there is no position to print; and whether there is none.
pub(crate) fn tell(rt: &impl Streams, name: &[u8], b: &[u8], after: After) -> bool {
    let trail = after.trail;
    let how = trail.how;
    if let Some(h) = how {
        tell_stop(rt, name, b, trail, h);
        return true;
    }
    let f = figures_of(after);
    match f.number {
        0 => return false,
        15 => tell_start(rt, name, f.first),
        16 => tell_entry(rt, name, b, f.first, f.second),
        _ => refusals::tell(rt, name, f),
    }
    true
}
