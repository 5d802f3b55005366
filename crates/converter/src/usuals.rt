// Entries of the usual form, whose lines are written as three arrays.
ghost use Rattle.std.specs.Prelude.{◌≡◌, true, ℕ, ◌≤◌, ◌<◌, length, IfSome};
ghost use Rattle.lent.specs.Bytes.{Wrote};
ghost use Rattle.converter.specs.inner.Usuals.{SpelledTarget, SpelledKind, SpelledOrigin, SpelledClocks, UsualRow, SaidSo, is_long, spaced, start_text, name_text, clocks_text, usual_line};

use crate::Mode;
use crate::checks::within;

// An entry of the usual form, by its row.
#[derive(Clone, Copy)]
pub(crate) struct UsualEntry<'a> {
    pub(crate) row: &'a [u8],
    pub(crate) ghost usual: { UsualRow row.now },
}

// 同, or a square of the board; with an origin, a time with no hours and a total with hours.
fn has_target(row: &[u8]) -> bool
    requires { 15 ≤ length row.now }
    ensures { result ≡ true → SpelledTarget row.now }
{
    row[8] == 23 || row[8] == 21 && within(row[4]) && within(row[5])
}

// A kind of one character; or one of two, which is not promoted again.
fn has_name(row: &[u8]) -> bool
    requires { 15 ≤ length row.now }
    ensures { result ≡ true → SpelledKind row.now }
{
    1 <= row[2] && (row[2] < 10 || row[2] <= 12 && row[3] != 2)
}

// An origin of two digits.
fn has_origin(row: &[u8]) -> bool
    requires { 15 ≤ length row.now }
    ensures { result ≡ true → SpelledOrigin row.now }
{
    row[6] <= 9 && row[7] <= 9
}

// Numbers of a clock of at most two digits.
fn has_clocks(row: &[u8]) -> bool
    requires { 15 ≤ length row.now }
    ensures { result ≡ true → SpelledClocks row.now }
{
    row[10] <= 99 && row[11] <= 99 && row[12] <= 99 && row[13] <= 99 && row[14] <= 99
}

// No 不成 that is said, and no origin that is said as 打.
fn is_said_so(row: &[u8], mode: Mode) -> bool
    requires { 15 ≤ length row.now }
    ensures { result ≡ true → SaidSo mode row.now }
{
    match mode {
        Mode::Plain => true,
        Mode::Whole => row[3] != 1,
        Mode::Shared => row[3] != 1 && row[6] != 0,
    }
}

// Whether a row is of the usual form, and said so in a mode.
fn is_usual(row: &[u8], mode: Mode) -> bool
    ensures { result ≡ true → UsualRow row.now × SaidSo mode row.now }
{
    15 <= row.len()
        && row[0] == 1
        && has_target(row)
        && has_name(row)
        && has_origin(row)
        && is_said_so(row, mode)
        && has_clocks(row)
}

impl<'a> UsualEntry<'a> {
    // The entry of a row that is of the usual form, and said so in a mode.
    pub(crate) fn of(row: &'a [u8], mode: Mode) -> Option<UsualEntry<'a>>
        ensures { IfSome result (λ e. (e.row.now ≡ row.now) × SaidSo mode e.row.now) }
    {
        if !is_usual(row, mode) {
            return None;
        }
        Some(UsualEntry { row })
    }
}

// Whether its name has two characters.
fn is_long(e: UsualEntry) -> bool
    ensures { result ≡ is_long e.entry.row.now }
{
    9 < e.row[2] || e.row[3] == 2
}

// How long its line is.
pub(crate) fn usual_length(e: UsualEntry) -> usize
    ensures { ((ply : ℕ) → ply < 1000 → result ≡ length (usual_line ply e.entry.row.now)) × (result ≤ 72) }
{
    if is_long(e) { 39 } else { 38 }
}

// The digit of a number at a place, or a space where the number is smaller.
fn spaced(v: usize, place: usize) -> u8
    requires { 1 ≤ place }
    ensures { result ≡ spaced v place }
{
    if v < place {
        32
    } else {
        (48 + v / place % 10) as u8
    }
}

// The ply to four places, a space and the target.
fn put_start(out: &mut [u8], ply: usize, e: UsualEntry) -> usize
    requires { (ply < 1000) × (length (start_text ply e.row.now) ≤ length out.old) }
    ensures { Wrote (start_text ply e.entry.row.now) out.old out.new result }
{
    let file = if e.row[8] == 23 {
        0xe5908c
    } else {
        0xefbc90 + e.row[4] as u32
    };
    let rank = if e.row[8] == 23 {
        0xe38080
    } else {
        spell::numeral_code(e.row[5])
    };
    lent::put_bytes(
        out,
        &[
            32,
            spaced(ply, 100),
            spaced(ply, 10),
            (48 + ply % 10) as u8,
            32,
            (file / 65536 % 256) as u8,
            (file / 256 % 256) as u8,
            (file % 256) as u8,
            (rank / 65536 % 256) as u8,
            (rank / 256 % 256) as u8,
            (rank % 256) as u8,
        ],
    )
}

// A name of two characters, the origin in brackets and a space.
fn put_long_name(out: &mut [u8], e: UsualEntry) -> usize
    requires { (is_long e.row.now ≡ true) × (length (name_text e.row.now) ≤ length out.old) }
    ensures { Wrote (name_text e.entry.row.now) out.old out.new result }
{
    let k = spell::kind_code(e.row[2]);
    let l = if 9 < e.row[2] {
        spell::kind_code(e.row[2] - 8)
    } else {
        0xe68890
    };
    lent::put_bytes(
        out,
        &[
            (k / 65536 % 256) as u8,
            (k / 256 % 256) as u8,
            (k % 256) as u8,
            (l / 65536 % 256) as u8,
            (l / 256 % 256) as u8,
            (l % 256) as u8,
            b'(',
            48 + e.row[6],
            48 + e.row[7],
            b')',
            32,
        ],
    )
}

// A name, the origin in brackets, and spaces.
fn put_name(out: &mut [u8], e: UsualEntry) -> usize
    requires { length (name_text e.row.now) ≤ length out.old }
    ensures { Wrote (name_text e.entry.row.now) out.old out.new result }
{
    if is_long(e) {
        return put_long_name(out, e);
    }
    let k = spell::kind_code(e.row[2]);
    lent::put_bytes(
        out,
        &[
            (k / 65536 % 256) as u8,
            (k / 256 % 256) as u8,
            (k % 256) as u8,
            b'(',
            48 + e.row[6],
            48 + e.row[7],
            b')',
            32,
            32,
            32,
        ],
    )
}

// The time and an LF.
fn put_clocks(out: &mut [u8], e: UsualEntry) -> usize
    requires { length (clocks_text e.row.now) ≤ length out.old }
    ensures { Wrote (clocks_text e.entry.row.now) out.old out.new result }
{
    let m = e.row[10];
    let s = e.row[11];
    let h = e.row[12];
    let tm = e.row[13];
    let ts = e.row[14];
    let blank = if m < 10 { b' ' } else { 48 + m / 10 };
    lent::put_bytes(
        out,
        &[
            b'(',
            blank,
            48 + m % 10,
            b':',
            48 + s / 10,
            48 + s % 10,
            b'/',
            48 + h / 10,
            48 + h % 10,
            b':',
            48 + tm / 10,
            48 + tm % 10,
            b':',
            48 + ts / 10,
            48 + ts % 10,
            b')',
            b'\n',
        ],
    )
}

// The line of an entry of the usual form.
pub(crate) fn put_usual(out: &mut [u8], ply: usize, e: UsualEntry) -> usize
    requires { (ply < 1000) × (length (usual_line ply e.row.now) ≤ length out.old) }
    ensures { Wrote (usual_line ply e.entry.row.now) out.old out.new result }
{
    let a = put_start(out, ply, e);
    let b = a + put_name(&mut out[a..], e);
    b + put_clocks(&mut out[b..], e)
}
