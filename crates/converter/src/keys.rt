// The 12 keys that lead the header.
ghost use Rattle.std.specs.Prelude.{◌≡◌, [], ◌-◌, ◌≤◌, get_or};
ghost use Rattle.lists.specs.Pick.{pick};
ghost use Rattle.text.specs.Text.{same};
ghost use Rattle.converter.specs.Headers.{leading_keys, leading_number};

// A row is a key's length and its bytes, with zeros to 13.
// 開始日時 終了日時 表題 棋戦 戦型 持ち時間 秒読み 場所 先手 下手 後手 上手   (the Rust's HEADER_ORDER)
#[rattlefmt::skip]
const KEYS: [u8; 156] = [
    12, 0xe9, 0x96, 0x8b, 0xe5, 0xa7, 0x8b, 0xe6, 0x97, 0xa5, 0xe6, 0x99, 0x82, // 開始日時
    12, 0xe7, 0xb5, 0x82, 0xe4, 0xba, 0x86, 0xe6, 0x97, 0xa5, 0xe6, 0x99, 0x82, // 終了日時
    6, 0xe8, 0xa1, 0xa8, 0xe9, 0xa1, 0x8c, 0, 0, 0, 0, 0, 0, // 表題
    6, 0xe6, 0xa3, 0x8b, 0xe6, 0x88, 0xa6, 0, 0, 0, 0, 0, 0, // 棋戦
    6, 0xe6, 0x88, 0xa6, 0xe5, 0x9e, 0x8b, 0, 0, 0, 0, 0, 0, // 戦型
    12, 0xe6, 0x8c, 0x81, 0xe3, 0x81, 0xa1, 0xe6, 0x99, 0x82, 0xe9, 0x96, 0x93, // 持ち時間
    9, 0xe7, 0xa7, 0x92, 0xe8, 0xaa, 0xad, 0xe3, 0x81, 0xbf, 0, 0, 0, // 秒読み
    6, 0xe5, 0xa0, 0xb4, 0xe6, 0x89, 0x80, 0, 0, 0, 0, 0, 0, // 場所
    6, 0xe5, 0x85, 0x88, 0xe6, 0x89, 0x8b, 0, 0, 0, 0, 0, 0, // 先手
    6, 0xe4, 0xb8, 0x8b, 0xe6, 0x89, 0x8b, 0, 0, 0, 0, 0, 0, // 下手
    6, 0xe5, 0xbe, 0x8c, 0xe6, 0x89, 0x8b, 0, 0, 0, 0, 0, 0, // 後手
    6, 0xe4, 0xb8, 0x8a, 0xe6, 0x89, 0x8b, 0, 0, 0, 0, 0, 0, // 上手
];

// The only leading key that a text can be, from 1, by the second byte of its first character, which only 下 and 上 share; 0 where there is none.
fn likely_number(t: &[u8]) -> u8
    ensures { (result ≤ 12) × (leading_number t.now ≡ pick (same t.now (get_or leading_keys (result - 1) [])) result 0) }
{
    match lent::peek(t, 1) {
        0x96 => 1,
        0xb5 => 2,
        0xa1 => 3,
        0xa3 => 4,
        0x88 => 5,
        0x8c => 6,
        0xa7 => 7,
        0xa0 => 8,
        0x85 => 9,
        0xb8 => { if lent::peek(t, 2) == 0x8b { 10 } else { 12 } }
        0xbe => 11,
        _ => 0,
    }
}

// Whether a text is leading key n.
fn is_key(t: &[u8], n: u8) -> bool
    requires { (1 ≤ n) × (n ≤ 12) }
    ensures { result ≡ same t.now (get_or leading_keys (n - 1) []) }
{
    let b = 13 * lent::wide(n) - 12;
    let e = b + lent::wide(KEYS[b - 1]);
    block::is_same(t, &KEYS[b..e])
}

// Which leading key a text is, from 1; 0 where it is none.
pub(crate) fn leading_number(t: &[u8]) -> u8
    ensures { (result ≡ leading_number t.now) × (result ≤ 12) }
{
    let n = likely_number(t);
    if n != 0 && is_key(t, n) { n } else { 0 }
}
