// The spellings of kinds, endings, presets and sides: one table form, one search over it, and the way back.
#![tactic(auto)]

mod digits;
mod kansuji;

ghost use Rattle.std.specs.Prelude.{◌≡◌, true, List, [], ◌∷◌, ◌++◌};
ghost use Rattle.lent.specs.Bytes.{Wrote, fitting};
ghost use Rattle.spell.specs.Tables.{move_kinds, kinds, specials, written_specials, presets, sides};
ghost use Rattle.spell.specs.Words.{promotes};
ghost use Rattle.spell.specs.inner.Slots.{look, kind_slots};
ghost use Rattle.spell.specs.inner.Kinds.{promoted_kinds};
ghost use Rattle.spell.specs.Spell.{first_of, number_spelled, spelled, code, code_of};
ghost use Rattle.spell.specs.inner.Rows.{spellings, all_fit};

pub use digits::{file, numeral, numeral_code, numeral_of, put_file, put_numeral};
pub use kansuji::{count, put_count};
use text::Cursor;

// A spelling in a table: its length, its number, and its bytes with zeros to the table's width.
struct Row<const W: usize> {
    length: usize,
    number: u8,
    bytes: [u8; W],
}

// 杏 圭 全, which only a diagram is written with; 歩 香 桂 銀 金 角 飛 玉 と 成香 成桂 成銀 馬 龍 王 竜
#[rattlefmt::skip]
const KINDS: [Row<6>; 19] = [
    Row { length: 3, number: 10, bytes: [0xe6, 0x9d, 0x8f, 0, 0, 0] }, // 杏
    Row { length: 3, number: 11, bytes: [0xe5, 0x9c, 0xad, 0, 0, 0] }, // 圭
    Row { length: 3, number: 12, bytes: [0xe5, 0x85, 0xa8, 0, 0, 0] }, // 全
    Row { length: 3, number: 1, bytes: [0xe6, 0xad, 0xa9, 0, 0, 0] }, // 歩
    Row { length: 3, number: 2, bytes: [0xe9, 0xa6, 0x99, 0, 0, 0] }, // 香
    Row { length: 3, number: 3, bytes: [0xe6, 0xa1, 0x82, 0, 0, 0] }, // 桂
    Row { length: 3, number: 4, bytes: [0xe9, 0x8a, 0x80, 0, 0, 0] }, // 銀
    Row { length: 3, number: 5, bytes: [0xe9, 0x87, 0x91, 0, 0, 0] }, // 金
    Row { length: 3, number: 6, bytes: [0xe8, 0xa7, 0x92, 0, 0, 0] }, // 角
    Row { length: 3, number: 7, bytes: [0xe9, 0xa3, 0x9b, 0, 0, 0] }, // 飛
    Row { length: 3, number: 8, bytes: [0xe7, 0x8e, 0x89, 0, 0, 0] }, // 玉
    Row { length: 3, number: 9, bytes: [0xe3, 0x81, 0xa8, 0, 0, 0] }, // と
    Row { length: 6, number: 10, bytes: [0xe6, 0x88, 0x90, 0xe9, 0xa6, 0x99] }, // 成香
    Row { length: 6, number: 11, bytes: [0xe6, 0x88, 0x90, 0xe6, 0xa1, 0x82] }, // 成桂
    Row { length: 6, number: 12, bytes: [0xe6, 0x88, 0x90, 0xe9, 0x8a, 0x80] }, // 成銀
    Row { length: 3, number: 13, bytes: [0xe9, 0xa6, 0xac, 0, 0, 0] }, // 馬
    Row { length: 3, number: 14, bytes: [0xe9, 0xbe, 0x8d, 0, 0, 0] }, // 龍
    Row { length: 3, number: 8, bytes: [0xe7, 0x8e, 0x8b, 0, 0, 0] }, // 王
    Row { length: 3, number: 14, bytes: [0xe7, 0xab, 0x9c, 0, 0, 0] }, // 竜
];

// 成香 成桂 成銀
#[rattlefmt::skip]
const PROMOTED: [Row<6>; 3] = [
    Row { length: 6, number: 10, bytes: [0xe6, 0x88, 0x90, 0xe9, 0xa6, 0x99] }, // 成香
    Row { length: 6, number: 11, bytes: [0xe6, 0x88, 0x90, 0xe6, 0xa1, 0x82] }, // 成桂
    Row { length: 6, number: 12, bytes: [0xe6, 0x88, 0x90, 0xe9, 0x8a, 0x80] }, // 成銀
];

// 投了 中断 千日手 切れ負け 反則負け 持将棋 入玉勝ち 詰み; then 中断 for each ending that is never read
#[rattlefmt::skip]
const SPECIALS: [Row<12>; 14] = [
    Row { length: 6, number: 0, bytes: [0xe6, 0x8a, 0x95, 0xe4, 0xba, 0x86, 0, 0, 0, 0, 0, 0] }, // 投了
    Row { length: 6, number: 1, bytes: [0xe4, 0xb8, 0xad, 0xe6, 0x96, 0xad, 0, 0, 0, 0, 0, 0] }, // 中断
    Row { length: 9, number: 2, bytes: [0xe5, 0x8d, 0x83, 0xe6, 0x97, 0xa5, 0xe6, 0x89, 0x8b, 0, 0, 0] }, // 千日手
    Row { length: 12, number: 3, bytes: [0xe5, 0x88, 0x87, 0xe3, 0x82, 0x8c, 0xe8, 0xb2, 0xa0, 0xe3, 0x81, 0x91] }, // 切れ負け
    Row { length: 12, number: 4, bytes: [0xe5, 0x8f, 0x8d, 0xe5, 0x89, 0x87, 0xe8, 0xb2, 0xa0, 0xe3, 0x81, 0x91] }, // 反則負け
    Row { length: 9, number: 7, bytes: [0xe6, 0x8c, 0x81, 0xe5, 0xb0, 0x86, 0xe6, 0xa3, 0x8b, 0, 0, 0] }, // 持将棋
    Row { length: 12, number: 8, bytes: [0xe5, 0x85, 0xa5, 0xe7, 0x8e, 0x89, 0xe5, 0x8b, 0x9d, 0xe3, 0x81, 0xa1] }, // 入玉勝ち
    Row { length: 6, number: 11, bytes: [0xe8, 0xa9, 0xb0, 0xe3, 0x81, 0xbf, 0, 0, 0, 0, 0, 0] }, // 詰み
    Row { length: 6, number: 5, bytes: [0xe4, 0xb8, 0xad, 0xe6, 0x96, 0xad, 0, 0, 0, 0, 0, 0] }, // 中断
    Row { length: 6, number: 6, bytes: [0xe4, 0xb8, 0xad, 0xe6, 0x96, 0xad, 0, 0, 0, 0, 0, 0] }, // 中断
    Row { length: 6, number: 9, bytes: [0xe4, 0xb8, 0xad, 0xe6, 0x96, 0xad, 0, 0, 0, 0, 0, 0] }, // 中断
    Row { length: 6, number: 10, bytes: [0xe4, 0xb8, 0xad, 0xe6, 0x96, 0xad, 0, 0, 0, 0, 0, 0] }, // 中断
    Row { length: 6, number: 12, bytes: [0xe4, 0xb8, 0xad, 0xe6, 0x96, 0xad, 0, 0, 0, 0, 0, 0] }, // 中断
    Row { length: 6, number: 13, bytes: [0xe4, 0xb8, 0xad, 0xe6, 0x96, 0xad, 0, 0, 0, 0, 0, 0] }, // 中断
];

// 平手 香落ち 右香落ち 角落ち 飛車落ち 飛香落ち 二枚落ち 三枚落ち 四枚落ち 五枚落ち 左五枚落ち 六枚落ち 左七枚落ち 右七枚落ち 八枚落ち 十枚落ち その他
#[rattlefmt::skip]
const PRESETS: [Row<15>; 17] = [
    Row { length: 6, number: 0, bytes: [0xe5, 0xb9, 0xb3, 0xe6, 0x89, 0x8b, 0, 0, 0, 0, 0, 0, 0, 0, 0] }, // 平手
    Row { length: 9, number: 1, bytes: [0xe9, 0xa6, 0x99, 0xe8, 0x90, 0xbd, 0xe3, 0x81, 0xa1, 0, 0, 0, 0, 0, 0] }, // 香落ち
    Row { length: 12, number: 2, bytes: [0xe5, 0x8f, 0xb3, 0xe9, 0xa6, 0x99, 0xe8, 0x90, 0xbd, 0xe3, 0x81, 0xa1, 0, 0, 0] }, // 右香落ち
    Row { length: 9, number: 3, bytes: [0xe8, 0xa7, 0x92, 0xe8, 0x90, 0xbd, 0xe3, 0x81, 0xa1, 0, 0, 0, 0, 0, 0] }, // 角落ち
    Row { length: 12, number: 4, bytes: [0xe9, 0xa3, 0x9b, 0xe8, 0xbb, 0x8a, 0xe8, 0x90, 0xbd, 0xe3, 0x81, 0xa1, 0, 0, 0] }, // 飛車落ち
    Row { length: 12, number: 5, bytes: [0xe9, 0xa3, 0x9b, 0xe9, 0xa6, 0x99, 0xe8, 0x90, 0xbd, 0xe3, 0x81, 0xa1, 0, 0, 0] }, // 飛香落ち
    Row { length: 12, number: 6, bytes: [0xe4, 0xba, 0x8c, 0xe6, 0x9e, 0x9a, 0xe8, 0x90, 0xbd, 0xe3, 0x81, 0xa1, 0, 0, 0] }, // 二枚落ち
    Row { length: 12, number: 7, bytes: [0xe4, 0xb8, 0x89, 0xe6, 0x9e, 0x9a, 0xe8, 0x90, 0xbd, 0xe3, 0x81, 0xa1, 0, 0, 0] }, // 三枚落ち
    Row { length: 12, number: 8, bytes: [0xe5, 0x9b, 0x9b, 0xe6, 0x9e, 0x9a, 0xe8, 0x90, 0xbd, 0xe3, 0x81, 0xa1, 0, 0, 0] }, // 四枚落ち
    Row { length: 12, number: 9, bytes: [0xe4, 0xba, 0x94, 0xe6, 0x9e, 0x9a, 0xe8, 0x90, 0xbd, 0xe3, 0x81, 0xa1, 0, 0, 0] }, // 五枚落ち
    Row { length: 15, number: 10, bytes: [0xe5, 0xb7, 0xa6, 0xe4, 0xba, 0x94, 0xe6, 0x9e, 0x9a, 0xe8, 0x90, 0xbd, 0xe3, 0x81, 0xa1] }, // 左五枚落ち
    Row { length: 12, number: 11, bytes: [0xe5, 0x85, 0xad, 0xe6, 0x9e, 0x9a, 0xe8, 0x90, 0xbd, 0xe3, 0x81, 0xa1, 0, 0, 0] }, // 六枚落ち
    Row { length: 15, number: 12, bytes: [0xe5, 0xb7, 0xa6, 0xe4, 0xb8, 0x83, 0xe6, 0x9e, 0x9a, 0xe8, 0x90, 0xbd, 0xe3, 0x81, 0xa1] }, // 左七枚落ち
    Row { length: 15, number: 13, bytes: [0xe5, 0x8f, 0xb3, 0xe4, 0xb8, 0x83, 0xe6, 0x9e, 0x9a, 0xe8, 0x90, 0xbd, 0xe3, 0x81, 0xa1] }, // 右七枚落ち
    Row { length: 12, number: 14, bytes: [0xe5, 0x85, 0xab, 0xe6, 0x9e, 0x9a, 0xe8, 0x90, 0xbd, 0xe3, 0x81, 0xa1, 0, 0, 0] }, // 八枚落ち
    Row { length: 12, number: 15, bytes: [0xe5, 0x8d, 0x81, 0xe6, 0x9e, 0x9a, 0xe8, 0x90, 0xbd, 0xe3, 0x81, 0xa1, 0, 0, 0] }, // 十枚落ち
    Row { length: 9, number: 16, bytes: [0xe3, 0x81, 0x9d, 0xe3, 0x81, 0xae, 0xe4, 0xbb, 0x96, 0, 0, 0, 0, 0, 0] }, // その他
];

// 先手 後手 下手 上手
#[rattlefmt::skip]
const SIDES: [Row<6>; 4] = [
    Row { length: 6, number: 0, bytes: [0xe5, 0x85, 0x88, 0xe6, 0x89, 0x8b] }, // 先手
    Row { length: 6, number: 1, bytes: [0xe5, 0xbe, 0x8c, 0xe6, 0x89, 0x8b] }, // 後手
    Row { length: 6, number: 0, bytes: [0xe4, 0xb8, 0x8b, 0xe6, 0x89, 0x8b] }, // 下手
    Row { length: 6, number: 1, bytes: [0xe4, 0xb8, 0x8a, 0xe6, 0x89, 0x8b] }, // 上手
];

// The first spelling of a table that stands at a place.   (nom's alt of tags)
fn find<const W: usize>(c: Cursor, s: &[u8], table: &[Row<W>]) -> Option<(u8, Cursor)>
    requires { all_fit table.now ≡ true }
    ensures { result ≡ first_of (spellings table.now) s.now c.at }
{
    let at = c.at;
    for row in table {
        let n = row.length;
        if text::stands(s, at, &row.bytes[..n]) {
            return Some((row.number, Cursor { at: at + n }));
        }
    }
    None
}

// The kinds of one character in 35 slots, each as a numeral stands in its.
fn kind_row(h: u32) -> u32
    ensures { result ≡ look kind_slots h }
{
    match h {
        2 => 0xe9a6992, // 香
        3 => 0xe987915, // 金
        4 => 0xe381a89, // と
        5 => 0xe78e898, // 玉
        6 => 0xe9a39b7, // 飛
        7 => 0xe78e8b8, // 王
        9 => 0xe9be8de, // 龍
        10 => 0xe585a8c, // 全
        12 => 0xe6ada91, // 歩
        16 => 0xe6a1823, // 桂
        19 => 0xe98a804, // 銀
        20 => 0xe69d8fa, // 杏
        21 => 0xe9a6acd, // 馬
        23 => 0xe59cadb, // 圭
        25 => 0xe8a7926, // 角
        28 => 0xe7ab9ce, // 竜
        _ => u32::MAX,
    }
}

// The kind that three bytes are, 1 to 14; 0 where they are none.
pub fn kind_of(a: u8, b: u8, c: u8) -> u8
    ensures { result ≡ number_spelled kinds (a ∷ b ∷ c ∷ []) }
{
    let x = digits::code(a, b, c);
    let row = kind_row(x % 35);
    if row / 16 != x {
        return 0;
    }
    (row % 16) as u8
}

// The kind that 成 and three bytes make, 10 to 12; 0 where they make none.
pub fn promoted_of(a: u8, b: u8, c: u8) -> u8
    ensures { result ≡ number_spelled kinds (promotes ++ (a ∷ b ∷ c ∷ [])) }
{
    match kind_of(a, b, c) {
        k @ 2..=4 => k + 8,
        _ => 0,
    }
}

// 成香 成桂 成銀
fn promoted(c: Cursor, s: &[u8]) -> Option<(u8, Cursor)>
    ensures { result ≡ first_of promoted_kinds s.now c.at }
{
    find(c, s, &PROMOTED)
}

// The kind of piece that stands at a place, 1 to 14.   (the Rust's piece_kind)
pub fn kind(c: Cursor, s: &[u8]) -> Option<(u8, Cursor)>
    ensures { result ≡ first_of kinds s.now c.at }
{
    let at = c.at;
    if digits::is_short(s, at) {
        return None;
    }
    let n = kind_of(s[at], s[at + 1], s[at + 2]);
    if n == 0 {
        return promoted(c, s);
    }
    Some((n, Cursor { at: at + 3 }))
}

// The ending that stands at a place, one of the eight that are read, by its number.   (the Rust's move_special)
pub fn special(c: Cursor, s: &[u8]) -> Option<(u8, Cursor)>
    ensures { result ≡ first_of specials s.now c.at }
{
    find(c, s, &SPECIALS[..8])
}

// The preset that stands at a place, 0 to 16.   (the Rust's information_value_preset)
pub fn preset(c: Cursor, s: &[u8]) -> Option<(u8, Cursor)>
    ensures { result ≡ first_of presets s.now c.at }
{
    find(c, s, &PRESETS)
}

// The side that stands at a place, 0 Black, 1 White.   (the Rust's color_prefix)
// Compiled into its callers, since each header line is asked for one.
#[inline(always)]
pub fn side(c: Cursor, s: &[u8]) -> Option<(u8, Cursor)>
    ensures { result ≡ first_of sides s.now c.at }
{
    find(c, s, &SIDES)
}

// The first spelling of a number in a table; nothing where it has none.
fn put_spelled<const W: usize>(out: &mut [u8], n: u8, table: &[Row<W>]) -> usize
    requires { all_fit table.now ≡ true }
    ensures { Wrote (fitting (spelled (spellings table.now) n) out.old) out.old out.new result }
{
    for row in table {
        if row.number == n {
            return lent::put_bytes(out, &row.bytes[..row.length]);
        }
    }
    0
}

// The first three bytes of a kind, as a move is written, as one number; 0 where there is none.
pub fn kind_code(n: u8) -> u32
    ensures { result ≡ code (spelled move_kinds n) }
{
    match n {
        1 => 0xe6ada9, // 歩
        2 => 0xe9a699, // 香
        3 => 0xe6a182, // 桂
        4 => 0xe98a80, // 銀
        5 => 0xe98791, // 金
        6 => 0xe8a792, // 角
        7 => 0xe9a39b, // 飛
        8 => 0xe78e89, // 玉
        9 => 0xe381a8, // と
        10 => 0xe68890, // 成
        11 => 0xe68890, // 成
        12 => 0xe68890, // 成
        13 => 0xe9a6ac, // 馬
        14 => 0xe9be8d, // 龍
        _ => 0,
    }
}

// A kind as a move is written.   (the Rust's write_move_kind)
pub fn put_kind(out: &mut [u8], n: u8) -> usize
    ensures { Wrote (fitting (spelled move_kinds n) out.old) out.old out.new result }
{
    put_spelled(out, n, &KINDS[3..])
}

// A kind as a diagram is written.   (the Rust's write_board_kind)
pub fn put_board_kind(out: &mut [u8], n: u8) -> usize
    ensures { Wrote (fitting (spelled kinds n) out.old) out.old out.new result }
{
    put_spelled(out, n, &KINDS)
}

// An ending.   (the Rust's write_move_lines)
pub fn put_special(out: &mut [u8], n: u8) -> usize
    ensures { Wrote (fitting (spelled written_specials n) out.old) out.old out.new result }
{
    put_spelled(out, n, &SPECIALS)
}

// A preset.   (the Rust's write_initial_preset)
pub fn put_preset(out: &mut [u8], n: u8) -> usize
    ensures { Wrote (fitting (spelled presets n) out.old) out.old out.new result }
{
    put_spelled(out, n, &PRESETS)
}

// A side.   (先手 and 後手 of the Rust's write_initial_data)
pub fn put_side(out: &mut [u8], n: u8) -> usize
    ensures { Wrote (fitting (spelled sides n) out.old) out.old out.new result }
{
    put_spelled(out, n, &SIDES)
}
