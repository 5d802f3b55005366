// The listing's lines of text. Each function answers how many bytes of out it fills.
ghost use Rattle.std.specs.Prelude.{◌≤◌, length};
ghost use Rattle.lent.specs.Bytes.{Wrote, fitting};
ghost use Rattle.shown.specs.Listing.{field, fields, last_fields, read_text, refusal_text, row_text};

// A word and a number.
fn put_field(out: &mut [u8], word: &[u8], v: u64) -> usize
    requires { length (field word.now v) ≤ length out.old }
    ensures { Wrote (field word.now v) out.old out.new result }
{
    let n = lent::put_bytes(out, word);
    n + lent::put_decimal(&mut out[n..], v)
}

// Two of them.
fn put_fields(out: &mut [u8], word: &[u8], v: u64, next: &[u8], w: u64) -> usize
    requires { length (fields word.now v next.now w) ≤ length out.old }
    ensures { Wrote (fields word.now v next.now w) out.old out.new result }
{
    let n = put_field(out, word, v);
    n + put_field(&mut out[n..], next, w)
}

// Two of them and the end of the line.
fn put_last(out: &mut [u8], word: &[u8], v: u64, next: &[u8], w: u64) -> usize
    requires { length (last_fields word.now v next.now w) ≤ length out.old }
    ensures { Wrote (last_fields word.now v next.now w) out.old out.new result }
{
    let n = put_fields(out, word, v, next, w);
    n + lent::put_bytes(&mut out[n..], b"\n")
}

// Bytes taken and block length.
pub fn put_read(out: &mut [u8], taken: u64, len: u64) -> usize
    ensures { Wrote (fitting (read_text taken len) out.old) out.old out.new result }
{
    if out.len() < 13 + lent::decimal_len(taken) + lent::decimal_len(len) {
        return 0;
    }
    put_last(out, b"read ", taken, b" block ", len)
}

// The number of a refusal and its figures, for which there is room.
fn put_figures(out: &mut [u8], number: u64, first: u64, second: u64) -> usize
    requires { length (refusal_text number first second) ≤ length out.old }
    ensures { Wrote (refusal_text number first second) out.old out.new result }
{
    let n = put_field(out, b"refused ", number);
    n + put_last(&mut out[n..], b" ", first, b" ", second)
}

// A refusal.
pub fn put_refusal(out: &mut [u8], number: u64, first: u64, second: u64) -> usize
    ensures { Wrote (fitting (refusal_text number first second) out.old) out.old out.new result }
{
    let digits = lent::decimal_len(number) + lent::decimal_len(first) + lent::decimal_len(second);
    if out.len() < 11 + digits {
        return 0;
    }
    put_figures(out, number, first, second)
}

// A line's number, start, entries and parent.
pub(crate) fn put_row(out: &mut [u8], k: u64, start: u64, moves: u64, parent: u64) -> usize
    requires { length (row_text k start moves parent) ≤ length out.old }
    ensures { Wrote (row_text k start moves parent) out.old out.new result }
{
    let n = put_fields(out, b"line ", k, b" start ", start);
    n + put_last(&mut out[n..], b" moves ", moves, b" parent ", parent)
}
