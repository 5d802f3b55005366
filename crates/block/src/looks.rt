// Look-ups: each takes every input, and refuses what is not sound, then what is not there.
ghost use Rattle.std.specs.Prelude.{◌≡◌, ◌+◌, ◌*◌, ◌≤◌, ◌<◌};
ghost use Rattle.lent.specs.Bytes.{le16};
ghost use Rattle.block.specs.Decode.{headers_in, comments_in, key_offset, key_length, value_offset, value_length, comment_offset, comment_length, stored_text, key_of, value_of, comment_of};
ghost use Rattle.block.specs.Look.{look_answer, look_part, Answered, lines_answer, line_answer, parent_answer, entry_answer};

use crate::{fields, sound, texts};
use jkf::Answer;

// Puts an answer's number and figures into three lent numbers.
fn tell(a: Answer, number: &mut u64, first: &mut u64, second: &mut u64)
    ensures { Answered a number.new first.new second.new }
{
    let f = jkf::Figures::from(a);
    *number = f.number;
    *first = f.first;
    *second = f.second;
}

// Text k of n, whose offset and length stand in row k of a table: rows of w bytes from a place on.
fn look<'a>(
    b: &'a [u8],
    n: usize,
    k: u64,
    place: usize,
    w: usize,
    number: &mut u64,
    first: &mut u64,
    second: &mut u64,
) -> &'a [u8]
    requires { (n < 65536) × (place < 4000000) × (w ≤ 8) }
    ensures result_value { result.now ≡ look_part b.now n k (stored_text b.now (le16 b.now (place + w * k)) (le16 b.now (place + w * k + 2))) }
    ensures answered { Answered (look_answer b.now n k (le16 b.now (place + w * k)) (le16 b.now (place + w * k + 2))) number.new first.new second.new }
{
    if !sound(b) {
        tell(Answer::NotSound, number, first, second);
        return lent::front(b, 0);
    }
    if n as u64 <= k {
        tell(Answer::NoSuchPart(k), number, first, second);
        return lent::front(b, 0);
    }
    let row = place + w * (k as usize);
    let offset = lent::get16(b, row);
    let len = lent::get16(b, row + 2);
    let t = fields::text_place(b);
    tell(
        Answer::Done((t + offset) as u64, len as u64),
        number,
        first,
        second,
    );
    texts::text_in(b, lent::rest(b, t), row)
}

// Comment k of the block.
pub fn comment<'a>(
    b: &'a [u8],
    k: u64,
    number: &mut u64,
    first: &mut u64,
    second: &mut u64,
) -> &'a [u8]
    ensures result_value { result.now ≡ look_part b.now (comments_in b.now) k (comment_of b.now k) }
    ensures answered { Answered (look_answer b.now (comments_in b.now) k (comment_offset b.now k) (comment_length b.now k)) number.new first.new second.new }
{
    look(
        b,
        fields::comments(b),
        k,
        fields::comment_place(b, 0),
        4,
        number,
        first,
        second,
    )
}

// The key of header entry k.
pub fn key<'a>(b: &'a [u8], k: u64, number: &mut u64, first: &mut u64, second: &mut u64) -> &'a [u8]
    ensures result_value { result.now ≡ look_part b.now (headers_in b.now) k (key_of b.now k) }
    ensures answered { Answered (look_answer b.now (headers_in b.now) k (key_offset b.now k) (key_length b.now k)) number.new first.new second.new }
{
    look(b, fields::headers(b), k, 128, 8, number, first, second)
}

// The value of header entry k.
pub fn value<'a>(
    b: &'a [u8],
    k: u64,
    number: &mut u64,
    first: &mut u64,
    second: &mut u64,
) -> &'a [u8]
    ensures result_value { result.now ≡ look_part b.now (headers_in b.now) k (value_of b.now k) }
    ensures answered { Answered (look_answer b.now (headers_in b.now) k (value_offset b.now k) (value_length b.now k)) number.new first.new second.new }
{
    look(b, fields::headers(b), k, 132, 8, number, first, second)
}

// How many lines there are.
pub fn lines(b: &[u8]) -> Answer
    ensures { result ≡ lines_answer b.now }
{
    if !sound(b) {
        return Answer::NotSound;
    }
    Answer::Done(fields::lines(b) as u64, 0)
}

// The start of line k, and how many entries it has.
pub fn line(b: &[u8], k: u64) -> Answer
    ensures { result ≡ line_answer b.now k }
{
    if !sound(b) {
        return Answer::NotSound;
    }
    if fields::lines(b) as u64 <= k {
        return Answer::NoSuchPart(k);
    }
    let i = k as usize;
    Answer::Done(
        fields::start_of(b, i) as u64,
        fields::entry_count(b, i) as u64,
    )
}

// The parent of line k.
pub fn parent(b: &[u8], k: u64) -> Answer
    ensures { result ≡ parent_answer b.now k }
{
    if !sound(b) {
        return Answer::NotSound;
    }
    if fields::lines(b) as u64 <= k {
        return Answer::NoSuchPart(k);
    }
    Answer::Done(fields::parent_of(b, k as usize) as u64, 0)
}

// Where the 20 bytes of entry i of line k stand.
pub fn entry(b: &[u8], k: u64, i: u64) -> Answer
    ensures { result ≡ entry_answer b.now k i }
{
    if !sound(b) {
        return Answer::NotSound;
    }
    if fields::lines(b) as u64 <= k {
        return Answer::NoSuchPart(k);
    }
    if fields::entry_count(b, k as usize) as u64 <= i {
        return Answer::NoSuchEntry(k, i);
    }
    let row = fields::move_place(b, fields::first_entry(b, k as usize));
    Answer::Done((row + 20 * (i as usize)) as u64, 20)
}
