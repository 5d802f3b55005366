// Writing a block as a text.   (the Rust's src/converter/)
#![tactic(auto)]

mod checks;
mod keys;
mod kif;
mod lengths;
mod said;
mod starts;
mod usuals;

ghost use Rattle.std.specs.Prelude.{◌≡◌, ◌≤◌, length};
ghost use Rattle.lent.specs.Bytes.{Wrote, fitting};
ghost use Rattle.block.specs.Decode.{decode};
ghost use Rattle.converter.specs.Diagrams.{position_text};
ghost use Rattle.converter.specs.Entries.{entry_line};
ghost use Rattle.converter.specs.Said.{left_out, said_entry, said_record};
ghost use Rattle.converter.specs.Show.{record_text, show_lines, show_hands, show};
ghost use Rattle.converter.specs.Writing.{text_stored, shown_of, write_as_of, write_of, mode_of};

use block::SoundBlock;
pub use checks::hands_obstacle;
use checks::{ShownBlock, lines_obstacle, shown_lines, start_obstacle};
use jkf::{Answer, Entry, Position};
use kif::{put_entry_line, put_moves};
use lengths::{entry_length, position_length, text_length};
use said::said_entry;
use starts::{put_headers, put_position};

// How a record is written: as to_kif does, losing nothing, or so that other programs read it too.   (02, xi)
#[derive(Clone, Copy)]
pub enum Mode {
    Plain,
    Whole,
    Shared,
}

// The whole text.   (the Rust's to_kif)
fn put_record(out: &mut [u8], s: ShownBlock, mode: Mode) -> usize
    requires { length (record_text (said_record mode (decode s.block.bytes.now))) ≤ length out.old }
    ensures { Wrote (record_text (said_record mode (decode s.entry.block.bytes.now))) out.old out.new result }
{
    let n = put_headers(out, s.block);
    let m = n + put_position(&mut out[n..], block::position_of(s.block.bytes));
    m + put_moves(&mut out[m..], s, mode)
}

// A block of which all can be written.
fn write_all(s: ShownBlock, mode: Mode, out: &mut [u8]) -> Answer
    ensures value { result ≡ (text_stored (record_text (said_record mode (decode s.entry.block.bytes.now))) (left_out (decode s.entry.block.bytes.now).lines) out.old).answer }
    ensures out_after { out.new ≡ (text_stored (record_text (said_record mode (decode s.entry.block.bytes.now))) (left_out (decode s.entry.block.bytes.now).lines) out.old).buffer }
{
    let needed = text_length(s, mode);
    if out.len() < needed {
        return Answer::BufferShort(needed as u64);
    }
    put_record(out, s, mode);
    Answer::Done(
        needed as u64,
        (block::lines_in(s.block.bytes) - s.lines) as u64,
    )
}

// A sound block whose hands can be written.
fn write_lines(s: ShownBlock, mode: Mode, out: &mut [u8]) -> Answer
    ensures value { result ≡ (shown_of (show_lines mode (decode s.entry.block.bytes.now)) out.old).answer }
    ensures out_after { out.new ≡ (shown_of (show_lines mode (decode s.entry.block.bytes.now)) out.old).buffer }
{
    match lines_obstacle(s, mode) {
        Some((line, entry)) => Answer::CannotWrite(line, entry),
        None => write_all(s, mode, out),
    }
}

// A sound block of which no line is in the way.
fn write_hands(s: ShownBlock, mode: Mode, out: &mut [u8]) -> Answer
    ensures value { result ≡ (shown_of (show_hands mode (decode s.entry.block.bytes.now)) out.old).answer }
    ensures out_after { out.new ≡ (shown_of (show_hands mode (decode s.entry.block.bytes.now)) out.old).buffer }
{
    match hands_obstacle(block::position_of(s.block.bytes)) {
        Some((side, kind)) => Answer::HandCount(side, kind),
        None => write_lines(s, mode, out),
    }
}

// A sound block.
fn write_sound(b: SoundBlock, mode: Mode, out: &mut [u8]) -> Answer
    ensures value { result ≡ (shown_of (show mode (decode b.entry.bytes.now)) out.old).answer }
    ensures out_after { out.new ≡ (shown_of (show mode (decode b.entry.bytes.now)) out.old).buffer }
{
    let s = shown_lines(b);
    match start_obstacle(s, mode) {
        Some((line, _)) => Answer::StartsAtZero(line),
        None => write_hands(s, mode, out),
    }
}

// Writes a block's text in a mode into the front of a lent buffer.
pub fn write_as(block: &[u8], mode: Mode, out: &mut [u8]) -> Answer
    ensures value { result ≡ (write_as_of mode block.now out.old).answer }
    ensures out_after { out.new ≡ (write_as_of mode block.now out.old).buffer }
{
    let Some(b) = SoundBlock::of(block) else {
        return Answer::NotSound;
    };
    write_sound(b, mode, out)
}

// Writes a block's text as to_kif does.
pub fn write(block: &[u8], out: &mut [u8]) -> Answer
    ensures value { result ≡ (write_of block.now out.old).answer }
    ensures out_after { out.new ≡ (write_of block.now out.old).buffer }
{
    write_as(block, Mode::Plain, out)
}

// The mode with a number; one that none has is that of to_kif.
impl From<u64> for Mode {
    ghost from_gives = { λ n m. m ≡ mode_of n };

    fn from(n: u64) -> Mode {
        match n {
            1 => Mode::Whole,
            2 => Mode::Shared,
            _ => Mode::Plain,
        }
    }
}

// A position's text at the front of a lent buffer, as it stands in a block's text; nothing where it does not fit.
pub fn put_position_text(out: &mut [u8], p: Position) -> usize
    ensures { Wrote (fitting (position_text p) out.old) out.old out.new result }
{
    if out.len() < position_length(p) {
        return 0;
    }
    put_position(out, p)
}

// The line of what a mode says of an entry, likewise.
pub fn put_entry_text(out: &mut [u8], mode: Mode, ply: u16, e: Entry) -> usize
    ensures { Wrote (fitting (entry_line ply (said_entry mode e)) out.old) out.old out.new result }
{
    let said = said_entry(mode, e);
    if out.len() < entry_length(ply as usize, said) {
        return 0;
    }
    put_entry_line(out, ply as usize, said)
}
