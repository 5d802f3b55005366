// Lines of play as they are written.   (the Rust's src/converter/kif.rs)
ghost use Rattle.std.specs.Prelude.{◌≡◌, [], ◌∷◌, ◌++◌, ◌+◌, ◌-◌, ◌≤◌, ◌<◌, length, drop};
ghost use Rattle.lent.specs.Bytes.{Wrote};
ghost use Rattle.lent.specs.Numbers.{decimal, padded};
ghost use Rattle.block.specs.EntryBytes.{entry_in};
ghost use Rattle.jkf.specs.Entries.{special_of};
ghost use Rattle.block.specs.Encode.{concat};
ghost use Rattle.jkf.specs.Trees.{not_before};
ghost use Rattle.block.specs.Decode.{run, moves_in, lines_in, move_place, parent_of, comment_of, line_in, decode};
ghost use Rattle.converter.specs.Entries.{target_text, promote_text, origin_text, move_text, kind_width, promote_width, origin_width, move_width, special_width, figure_text, clock_text, time_padding, time_text, play_text, width_of, entry_line, star_text, remark_text, remarks_text, noted_text, entries_text};
ghost use Rattle.converter.specs.Said.{said_entry, said_lines};
ghost use Rattle.converter.specs.Show.{main_text, variation_head, variation_text, lines_text};
ghost use Rattle.converter.specs.inner.Lines.{noted_said, line_said};

use crate::Mode;
use crate::checks::ShownBlock;
use crate::said::said_entry;
use crate::usuals::{UsualEntry, put_usual};
use block::SoundBlock;
use jkf::{Clock, Entry, Move, Target, Time};

// So many bytes and so many lines were written.
#[derive(Clone, Copy)]
struct Written {
    bytes: usize,
    lines: usize,
}

// 同 and a wide space, or a file and a rank.
fn put_target(out: &mut [u8], to: Target) -> usize
    requires { length (target_text to) ≤ length out.old }
    ensures { Wrote (target_text to) out.old out.new result }
{
    match to {
        Target::Same => lent::put_bytes(out, b"\xe5\x90\x8c\xe3\x80\x80"),
        Target::Square(x, y) => {
            let n = spell::put_file(out, x);
            n + spell::put_numeral(&mut out[n..], y)
        }
    }
}

fn put_promote(out: &mut [u8], promote: u8) -> usize
    requires { length (promote_text promote) ≤ length out.old }
    ensures { Wrote (promote_text promote) out.old out.new result }
{
    if promote == 2 {
        return lent::put_bytes(out, b"\xe6\x88\x90");
    }
    if promote == 1 {
        return lent::put_bytes(out, b"\xe4\xb8\x8d\xe6\x88\x90");
    }
    0
}

// An origin in brackets.
fn put_from(out: &mut [u8], x: u8, y: u8) -> usize
    requires { length ((((40 ∷ []) ++ decimal x) ++ decimal y) ++ (41 ∷ [])) ≤ length out.old }
    ensures { Wrote ((((40 ∷ []) ++ decimal x) ++ decimal y) ++ (41 ∷ [])) out.old out.new result }
{
    let n = lent::put_bytes(out, b"(");
    let m = n + lent::put_decimal(&mut out[n..], x as u64);
    let e = m + lent::put_decimal(&mut out[m..], y as u64);
    lent::put_at(out, e, b")")
}

fn put_origin(out: &mut [u8], from: Option<(u8, u8)>) -> usize
    requires { length (origin_text from) ≤ length out.old }
    ensures { Wrote (origin_text from) out.old out.new result }
{
    match from {
        None => lent::put_bytes(out, b"\xe6\x89\x93"),
        Some((x, y)) => put_from(out, x, y),
    }
}

fn put_move(out: &mut [u8], m: Move) -> usize
    requires { length (move_text m) ≤ length out.old }
    ensures { Wrote (move_text m) out.old out.new result }
{
    let a = put_target(out, m.to);
    let b = a + spell::put_kind(&mut out[a..], m.piece);
    let c = b + put_promote(&mut out[b..], m.promote);
    c + put_origin(&mut out[c..], m.from)
}

// The move or ending of an entry.
fn put_play(out: &mut [u8], e: Entry) -> usize
    requires { length (play_text e) ≤ length out.old }
    ensures { Wrote (play_text e) out.old out.new result }
{
    match e {
        Entry::Slot => 0,
        Entry::Moved(m) => put_move(out, m),
        Entry::End(s, _) => spell::put_special(out, u8::from(s)),
    }
}

fn kind_width(kind: u8) -> usize
    ensures { result ≡ kind_width kind }
{
    match kind {
        10..=12 => 4,
        _ => 2,
    }
}

fn promote_width(promote: u8) -> usize
    ensures { result ≡ promote_width promote }
{
    if promote == 2 { 2 } else { 0 }
}

fn origin_width(from: Option<(u8, u8)>) -> usize
    ensures { result ≡ origin_width from }
{
    match from {
        None => 2,
        Some((_, _)) => 4,
    }
}

// How wide a move is on the page.   (the Rust's offset)
pub(crate) fn move_width(m: Move) -> usize
    ensures { (result ≡ move_width m) × (result ≤ 14) }
{
    4 + kind_width(m.piece) + promote_width(m.promote) + origin_width(m.from)
}

// How wide a special is, by its number: 中断, and what is written so, counts nothing.
fn special_width(n: u8) -> usize
    ensures { (result ≡ special_width (special_of n)) × (result ≤ 8) }
{
    match n {
        0 => 4,
        2 => 6,
        3 => 8,
        4 => 8,
        7 => 6,
        8 => 8,
        11 => 4,
        _ => 0,
    }
}

pub(crate) fn width_of(e: Entry) -> usize
    ensures { (result ≡ width_of e) × (result ≤ 14) }
{
    match e {
        Entry::Slot => 0,
        Entry::Moved(m) => move_width(m),
        Entry::End(s, _) => special_width(u8::from(s)),
    }
}

// A number to two places and the byte after it.
fn put_figure(out: &mut [u8], fill: u8, after: u8, v: u8) -> usize
    requires { length (figure_text fill after v) ≤ length out.old }
    ensures { Wrote (figure_text fill after v) out.old out.new result }
{
    let n = lent::put_padded(out, v as u64, 2, fill);
    lent::put_at(out, n, &[after])
}

// A clock without an hour.
fn put_ms(out: &mut [u8], fill: u8, after: u8, m: u8, s: u8) -> usize
    requires { length (clock_text fill after (Clock.Ms m s)) ≤ length out.old }
    ensures { Wrote (clock_text fill after (Clock.Ms m s)) out.old out.new result }
{
    let n = put_figure(out, fill, b':', m);
    n + put_figure(&mut out[n..], b'0', after, s)
}

// A clock with its hour.
fn put_hms(out: &mut [u8], fill: u8, after: u8, h: u8, m: u8, s: u8) -> usize
    requires { length (clock_text fill after (Clock.Hms h m s)) ≤ length out.old }
    ensures { Wrote (clock_text fill after (Clock.Hms h m s)) out.old out.new result }
{
    let n = put_figure(out, fill, b':', h);
    let e = n + put_figure(&mut out[n..], b'0', b':', m);
    e + put_figure(&mut out[e..], b'0', after, s)
}

// A clock, its first figure filled up by a byte, and a byte after it.
fn put_clock(out: &mut [u8], fill: u8, after: u8, c: Clock) -> usize
    requires { length (clock_text fill after c) ≤ length out.old }
    ensures { Wrote (clock_text fill after c) out.old out.new result }
{
    match c {
        Clock::Hms(h, m, s) => put_hms(out, fill, after, h, m, s),
        Clock::Ms(m, s) => put_ms(out, fill, after, m, s),
    }
}

// A time, padded by 13 less the width before it.
fn put_time(out: &mut [u8], width: usize, time: Time) -> usize
    requires { (width ≤ 14) × (length (time_text width time) ≤ length out.old) }
    ensures { Wrote (time_text width time) out.old out.new result }
{
    match time {
        Time::Untimed => 0,
        Time::Timed(now, total) => {
            let n = put_padding(out, width);
            let m = n + put_clock(&mut out[n..], b' ', b'/', now);
            m + put_clock(&mut out[m..], b'0', b')', total)
        }
    }
}

// Spaces and a bracket.
fn put_padding(out: &mut [u8], width: usize) -> usize
    requires { length (time_padding width ++ (40 ∷ [])) ≤ length out.old }
    ensures { Wrote (time_padding width ++ (40 ∷ [])) out.old out.new result }
{
    let n = lent::put_run(out, b' ', 13usize.saturating_sub(width));
    lent::put_at(out, n, b"(")
}

// A ply to four places and a space.
fn put_ply(out: &mut [u8], ply: usize) -> usize
    requires { length (padded 4 32 ply ++ (32 ∷ [])) ≤ length out.old }
    ensures { Wrote (padded 4 32 ply ++ (32 ∷ [])) out.old out.new result }
{
    let n = lent::put_padded(out, ply as u64, 4, b' ');
    lent::put_at(out, n, b" ")
}

// The line of an entry.
pub(crate) fn put_entry_line(out: &mut [u8], ply: usize, e: Entry) -> usize
    requires { length (entry_line ply e) ≤ length out.old }
    ensures { Wrote (entry_line ply e) out.old out.new result }
{
    let a = put_ply(out, ply);
    let b = a + put_play(&mut out[a..], e);
    let c = b + put_time(&mut out[b..], width_of(e), jkf::time_of(e));
    lent::put_at(out, c, b"\n")
}

// The line of a row's entry.
fn put_row(out: &mut [u8], ply: usize, row: &[u8], mode: Mode) -> usize
    requires { length (entry_line ply (said_entry mode (entry_in row.now))) ≤ length out.old }
    ensures { Wrote (entry_line ply (said_entry mode (entry_in row.now))) out.old out.new result }
{
    if ply < 1000
        && let Some(e) = UsualEntry::of(row, mode)
    {
        return put_usual(out, ply, e);
    }
    put_entry_line(out, ply, said_entry(mode, block::entry_in(row)))
}

// * before a comment that does not begin with &.
fn put_star(out: &mut [u8], c: &[u8]) -> usize
    requires { length (star_text c.now) ≤ length out.old }
    ensures { Wrote (star_text c.now) out.old out.new result }
{
    if lent::peek(c, 0) == b'&' {
        return 0;
    }
    lent::put_bytes(out, b"*")
}

// The line of a comment.
fn put_remark(out: &mut [u8], c: &[u8]) -> usize
    requires { length (remark_text c.now) ≤ length out.old }
    ensures { Wrote (remark_text c.now) out.old out.new result }
{
    let n = put_star(out, c);
    let m = n + lent::put_bytes(&mut out[n..], c);
    m + lent::put_bytes(&mut out[m..], b"\n")
}

// So many comments of a block from one on.
fn put_remarks(out: &mut [u8], b: &[u8], first: usize, count: usize) -> usize
    requires { (first + count < 65536) × (length (remarks_text (run (comment_of b.now) first count)) ≤ length out.old) }
    ensures { Wrote (remarks_text (run (comment_of b.now) first count)) out.old out.new result }
{
    let mut at = 0;
    for i in 0..count {
        at += put_remark(&mut out[at..], block::comment_of(b, (first + i) as u16));
    }
    at
}

// Entry k with its comments; the rows of the entries are given.
fn put_noted(out: &mut [u8], b: SoundBlock, rows: &[u8], mode: Mode, ply: usize, k: usize) -> usize
    requires { (k < moves_in b.bytes.now) × (length (noted_text ply (noted_said mode b.bytes.now k)) ≤ length out.old) × (rows.now ≡ drop (move_place b.bytes.now 0) b.bytes.now) }
    ensures { Wrote (noted_text ply (noted_said mode b.entry.bytes.now k)) out.old out.new result }
{
    let row = lent::rest(rows, 20 * k);
    let n = put_row(out, ply, row, mode);
    let count = lent::get16(row, 18);
    if count == 0 {
        return n;
    }
    n + put_remarks(&mut out[n..], b.bytes, lent::get16(row, 16), count)
}

// So many entries from one on, numbered from a ply on.
fn put_entries(
    out: &mut [u8],
    b: SoundBlock,
    mode: Mode,
    ply: usize,
    first: usize,
    count: usize,
) -> usize
    requires { (first + count ≤ moves_in b.bytes.now) × (ply < 65536) × (length (entries_text ply (run (noted_said mode b.bytes.now) first count)) ≤ length out.old) }
    ensures { Wrote (entries_text ply (run (noted_said mode b.entry.bytes.now) first count)) out.old out.new result }
{
    let rows = block::row_of(b.bytes, 0);
    let mut at = 0;
    for i in 0..count {
        at += put_noted(&mut out[at..], b, rows, mode, ply + i, first + i);
    }
    at
}

// What stands above a variation.
fn put_variation_head(out: &mut [u8], start: usize) -> usize
    requires { length (variation_head start) ≤ length out.old }
    ensures { Wrote (variation_head start) out.old out.new result }
{
    let n = lent::put_bytes(out, b"\n\xe5\xa4\x89\xe5\x8c\x96\xef\xbc\x9a");
    let m = n + lent::put_decimal(&mut out[n..], start as u64);
    lent::put_at(out, m, b"\xe6\x89\x8b\n")
}

// Line k, which is a variation.
fn put_variation(out: &mut [u8], b: SoundBlock, mode: Mode, k: usize) -> usize
    requires { (k < lines_in b.bytes.now) × (length (variation_text (line_said mode b.bytes.now k)) ≤ length out.old) }
    ensures { Wrote (variation_text (line_said mode b.entry.bytes.now k)) out.old out.new result }
{
    let i = k as u16;
    let start = block::start_of(b.bytes, i);
    let n = put_variation_head(out, start);
    n + put_entries(
        &mut out[n..],
        b,
        mode,
        start,
        block::first_entry(b.bytes, i),
        block::entry_count(b.bytes, i),
    )
}

// Line k and all that hangs from it, of which n lines are unwritten.   (the Rust's write_move_lines)
#[cycle(put_line_put_under)]
fn put_line(out: &mut [u8], b: SoundBlock, mode: Mode, k: usize, n: usize) -> Written
    requires { (0 < k) × (0 < n) × (k + n ≤ lines_in b.bytes.now) × (length (concat variation_text (run (line_said mode b.bytes.now) k n)) ≤ length out.old) }
    ensures lines_value { result.lines ≡ 1 + not_before k (run (line_in b.entry.bytes.now) (k + 1) (n - 1)) }
    ensures wrote { Wrote (concat variation_text (run (line_said mode b.entry.bytes.now) k result.lines)) out.old out.new result.bytes }
{
    let m = put_variation(out, b, mode, k);
    let r = put_under(&mut out[m..], b, mode, k, k + 1, n - 1);
    Written {
        bytes: m + r.bytes,
        lines: 1 + r.lines,
    }
}

// The lines on line p from line k on, each with all that hangs from it, of which n lines are unwritten.
#[cycle(put_line_put_under)]
fn put_under(out: &mut [u8], b: SoundBlock, mode: Mode, p: usize, k: usize, n: usize) -> Written
    requires { (0 < k) × (k + n ≤ lines_in b.bytes.now) × (0 < n → parent_of b.bytes.now k ≤ p) × (length (concat variation_text (run (line_said mode b.bytes.now) k n)) ≤ length out.old) }
    ensures lines_value { result.lines ≡ not_before p (run (line_in b.entry.bytes.now) k n) }
    ensures wrote { Wrote (concat variation_text (run (line_said mode b.entry.bytes.now) k result.lines)) out.old out.new result.bytes }
{
    if n == 0 || block::parent_of(b.bytes, k as u16) != p {
        return Written { bytes: 0, lines: 0 };
    }
    let f = put_line(out, b, mode, k, n);
    let m = f.bytes;
    let r = put_under(&mut out[m..], b, mode, p, k + f.lines, n - f.lines);
    Written {
        bytes: m + r.bytes,
        lines: f.lines + r.lines,
    }
}

// Line 0: the comments of its slot, and its entries from 1 on.
fn put_main(out: &mut [u8], b: SoundBlock, mode: Mode) -> usize
    requires { length (main_text (line_said mode b.bytes.now 0)) ≤ length out.old }
    ensures { Wrote (main_text (line_said mode b.entry.bytes.now 0)) out.old out.new result }
{
    let n = put_remarks(
        out,
        b.bytes,
        block::first_comment(b.bytes, 0),
        block::comment_count(b.bytes, 0),
    );
    n + put_entries(
        &mut out[n..],
        b,
        mode,
        1,
        1,
        block::entry_count(b.bytes, 0) - 1,
    )
}

// The lines that are shown.   (the Rust's write_moves)
pub(crate) fn put_moves(out: &mut [u8], s: ShownBlock, mode: Mode) -> usize
    requires { length (lines_text (said_lines mode (decode s.block.bytes.now).lines)) ≤ length out.old }
    ensures { Wrote (lines_text (said_lines mode (decode s.entry.block.bytes.now).lines)) out.old out.new result }
{
    let n = lent::put_bytes(
        out,
        b"\xe6\x89\x8b\xe6\x95\xb0----\xe6\x8c\x87\xe6\x89\x8b---------\xe6\xb6\x88\xe8\xb2\xbb\xe6\x99\x82\xe9\x96\x93--\n",
    );
    let m = n + put_main(&mut out[n..], s.block, mode);
    m + put_under(&mut out[m..], s.block, mode, 0, 1, s.lines - 1).bytes
}
