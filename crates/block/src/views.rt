// The rows of a block by their numbers, for who knows that the block is sound; of any other slice they say what stands there, or 0.
ghost use Rattle.std.specs.Prelude.{◌≡◌, ◌<◌, take, drop};
ghost use Rattle.block.specs.EntryBytes.{entry_in};
ghost use Rattle.block.specs.PositionBytes.{position_in};
ghost use Rattle.block.specs.Decode.{version_in, headers_in, lines_in, moves_in, move_place, text_place, key_offset, key_length, value_offset, value_length, start_of, first_entry, entry_count, parent_of, first_comment, comment_count, key_of, value_of, comment_of};
ghost use Rattle.block.specs.Sound.{header_bytes};

use crate::entry_bytes::entry_in;
use crate::position_bytes::position_in;
use crate::{fields, texts};
use jkf::{Entry, Position};

// The version.
pub fn version_in(b: &[u8]) -> usize
    ensures { (result ≡ version_in b.now) × (result < 65536) }
{
    fields::version(b)
}

// How many header entries there are.
pub fn headers_in(b: &[u8]) -> usize
    ensures { (result ≡ headers_in b.now) × (result < 65536) }
{
    fields::headers(b)
}

// How many bytes their keys and values have.
pub fn header_bytes(b: &[u8]) -> usize
    ensures { (result ≡ header_bytes b.now (headers_in b.now)) × (result < 8600000000) }
{
    fields::header_total(b)
}

// How many lines.
pub fn lines_in(b: &[u8]) -> usize
    ensures { (result ≡ lines_in b.now) × (result < 65536) }
{
    fields::lines(b)
}

// How many entries.
pub fn moves_in(b: &[u8]) -> usize
    ensures { (result ≡ moves_in b.now) × (result < 65536) }
{
    fields::moves(b)
}

// The ply that line k starts at.
pub fn start_of(b: &[u8], k: u16) -> usize
    ensures { (result ≡ start_of b.now k) × (result < 65536) }
{
    fields::start_of(b, k as usize)
}

// The number of its first entry.
pub fn first_entry(b: &[u8], k: u16) -> usize
    ensures { (result ≡ first_entry b.now k) × (result < 65536) }
{
    fields::first_entry(b, k as usize)
}

// How many entries it has.
pub fn entry_count(b: &[u8], k: u16) -> usize
    ensures { (result ≡ entry_count b.now k) × (result < 65536) }
{
    fields::entry_count(b, k as usize)
}

// The line that it hangs on.
pub fn parent_of(b: &[u8], k: u16) -> usize
    ensures { (result ≡ parent_of b.now k) × (result < 65536) }
{
    fields::parent_of(b, k as usize)
}

// What stands from the row of entry k on.
pub fn row_of(b: &[u8], k: u16) -> &[u8]
    ensures { result.now ≡ drop (move_place b.now k) b.now }
{
    lent::rest(b, fields::move_place(b, k as usize))
}

// What entry k is.
pub fn entry_of(b: &[u8], k: u16) -> Entry
    ensures { result ≡ entry_in (drop (move_place b.now k) b.now) }
{
    entry_in(row_of(b, k))
}

// The number of its first comment.
pub fn first_comment(b: &[u8], k: u16) -> usize
    ensures { (result ≡ first_comment b.now k) × (result < 65536) }
{
    lent::get16(b, fields::move_place(b, k as usize) + 16)
}

// How many comments it has.
pub fn comment_count(b: &[u8], k: u16) -> usize
    ensures { (result ≡ comment_count b.now k) × (result < 65536) }
{
    fields::comment_count(b, k as usize)
}

// The key of header entry k.
pub fn key_of(b: &[u8], k: u16) -> &[u8]
    ensures { result.now ≡ key_of b.now k }
{
    key_in(b, texts_of(b), k)
}

// The value of header entry k.
pub fn value_of(b: &[u8], k: u16) -> &[u8]
    ensures { result.now ≡ value_of b.now k }
{
    value_in(b, texts_of(b), k)
}

// The part of a block that holds its texts.
pub fn texts_of(b: &[u8]) -> &[u8]
    ensures { result.now ≡ drop (text_place b.now) b.now }
{
    lent::rest(b, fields::text_place(b))
}

// The key of header entry k, of which the texts are given.
pub fn key_in<'a>(b: &[u8], texts: &'a [u8], k: u16) -> &'a [u8]
    ensures { result.now ≡ take (key_length b.now k) (drop (key_offset b.now k) texts.now) }
{
    texts::text_in(b, texts, 128 + 8 * (k as usize))
}

// The value of header entry k in a text part.
pub fn value_in<'a>(b: &[u8], texts: &'a [u8], k: u16) -> &'a [u8]
    ensures { result.now ≡ take (value_length b.now k) (drop (value_offset b.now k) texts.now) }
{
    texts::text_in(b, texts, 128 + 8 * (k as usize) + 4)
}

// Comment k.
pub fn comment_of(b: &[u8], k: u16) -> &[u8]
    ensures { result.now ≡ comment_of b.now k }
{
    texts::comment_of(b, k as usize)
}

// The position that the record starts from.
pub fn position_of(b: &[u8]) -> Position
    ensures { result ≡ position_in (drop 28 b.now) }
{
    position_in(lent::rest(b, 28))
}
