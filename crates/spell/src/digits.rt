// The numerals 一 to 九 and the full-width digits １ to ９: a character of three bytes as one number.
ghost use Rattle.std.specs.Prelude.{◌≡◌, List, [], ◌∷◌, ◌+◌, ◌≤◌, ◌<◌, ltb, length};
ghost use Rattle.lent.specs.Bytes.{Wrote, fitting};
ghost use Rattle.spell.specs.Tables.{Spelling, numerals, files};
ghost use Rattle.spell.specs.inner.Slots.{look, numeral_slots};
ghost use Rattle.spell.specs.Spell.{first_of, number_spelled, spelled, code, code_of};
ghost use Rattle.spell.specs.inner.Codes.{Digits, IsDigits, code_at};

use text::Cursor;

// 一 to 九
const NUMERALS: [u32; 9] = [
    0xe4b880, 0xe4ba8c, 0xe4b889, 0xe59b9b, 0xe4ba94, 0xe585ad, 0xe4b883, 0xe585ab, 0xe4b99d,
];

// １ to ９
const FILES: [u32; 9] = [
    0xefbc91, 0xefbc92, 0xefbc93, 0xefbc94, 0xefbc95, 0xefbc96, 0xefbc97, 0xefbc98, 0xefbc99,
];

fn wide32(b: u8) -> u32
    ensures { (result ≡ b) × (result < 256) }
{
    b as u32
}

// Whether fewer than three bytes stand at a place.
pub(crate) fn is_short(s: &[u8], at: usize) -> bool
    ensures { result ≡ ltb (length s.now) (at + 3) }
{
    s.len() < 3 || s.len() - 3 < at
}

// Three bytes as one number.
pub(crate) fn code(a: u8, b: u8, c: u8) -> u32
    ensures { result ≡ code_of a b c }
{
    wide32(a) * 65536 + wide32(b) * 256 + wide32(c)
}

// The three bytes at a place as one number.
pub(crate) fn code_at(s: &[u8], at: usize) -> u32
    requires { at + 3 ≤ length s.now }
    ensures { result ≡ code_at s.now at }
{
    code(s[at], s[at + 1], s[at + 2])
}

// The numerals in 17 slots: in the slot of a code, which is its remainder, the code and then its number in the last four bits.
// No code is as large as what stands in an empty slot.
fn numeral_row(h: u32) -> u32
    ensures { result ≡ look numeral_slots h }
{
    match h {
        1 => 0xe4ba945, // 五
        5 => 0xe4b8893, // 三
        6 => 0xe585ab8, // 八
        8 => 0xe585ad6, // 六
        9 => 0xe4b99d9, // 九
        10 => 0xe4ba8c2, // 二
        12 => 0xe59b9b4, // 四
        13 => 0xe4b8801, // 一
        16 => 0xe4b8837, // 七
        _ => u32::MAX,
    }
}

// The number of the numeral that three bytes are; 0 where they are none.
pub fn numeral_of(a: u8, b: u8, c: u8) -> u8
    ensures { result ≡ number_spelled numerals (a ∷ b ∷ c ∷ []) }
{
    let x = code(a, b, c);
    let row = numeral_row(x % 17);
    if row / 16 != x {
        return 0;
    }
    (row % 16) as u8
}

// The rank, or digit of a count, that stands at a place.   (the Rust's kansuji_digit)
pub fn numeral(c: Cursor, s: &[u8]) -> Option<(u8, Cursor)>
    ensures { result ≡ first_of numerals s.now c.at }
{
    let at = c.at;
    if is_short(s, at) {
        return None;
    }
    let n = numeral_of(s[at], s[at + 1], s[at + 2]);
    if n == 0 {
        return None;
    }
    Some((n, Cursor { at: at + 3 }))
}

// The file that stands at a place: １ to ９ are one after another.   (the Rust's place_x)
pub fn file(c: Cursor, s: &[u8]) -> Option<(u8, Cursor)>
    ensures { result ≡ first_of files s.now c.at }
{
    let at = c.at;
    if is_short(s, at) {
        return None;
    }
    match code_at(s, at) {
        x @ 0xefbc91..=0xefbc99 => Some(((x - 0xefbc90) as u8, Cursor { at: at + 3 })),
        _ => None,
    }
}

// The three bytes of a numeral as one number; 0 where there is none.
pub fn numeral_code(n: u8) -> u32
    ensures { result ≡ code (spelled numerals n) }
{
    match n {
        1 => 0xe4b880, // 一
        2 => 0xe4ba8c, // 二
        3 => 0xe4b889, // 三
        4 => 0xe59b9b, // 四
        5 => 0xe4ba94, // 五
        6 => 0xe585ad, // 六
        7 => 0xe4b883, // 七
        8 => 0xe585ab, // 八
        9 => 0xe4b99d, // 九
        _ => 0,
    }
}

fn put_digit(out: &mut [u8], n: u8, codes: &[u32]) -> usize
    requires { IsDigits codes.now }
    ensures { (es : List Spelling) → Digits es codes.now → Wrote (fitting (spelled es n) out.old) out.old out.new result }
{
    let i = lent::wide(n);
    if i < 1 || codes.len() < i {
        return 0;
    }
    let x = codes[i - 1];
    lent::put_bytes(
        out,
        &[
            (x / 65536 % 256) as u8,
            (x / 256 % 256) as u8,
            (x % 256) as u8,
        ],
    )
}

// A numeral.   (the Rust's KANSUJI)
pub fn put_numeral(out: &mut [u8], n: u8) -> usize
    ensures { Wrote (fitting (spelled numerals n) out.old) out.old out.new result }
{
    put_digit(out, n, &NUMERALS)
}

// A file.   (the Rust's write_sanyou_suji)
pub fn put_file(out: &mut [u8], n: u8) -> usize
    ensures { Wrote (fitting (spelled files n) out.old) out.old out.new result }
{
    put_digit(out, n, &FILES)
}
