// What is answered by way of a buffer: a reading, a writing, an edit, or a text that a leaf writes.
use crate::blocks::of_answer;
use crate::leaves::put;
use crate::request::{is, number};

// The number, the figures and how many times were lost.
fn read(request: &[u8], out: &mut [u8]) -> [u64; 4] {
    let r = parser::fill(lent::rest(request, 8), out);
    let f = jkf::Figures::from(r.answer);
    [f.number, f.first, f.second, r.lost]
}

fn write(request: &[u8], out: &mut [u8]) -> [u64; 3] {
    of_answer(converter::write_as(
        lent::rest(request, 16),
        converter::Mode::from(number(request, 8)),
        out,
    ))
}

fn put_in(request: &[u8], out: &mut [u8]) -> [u64; 3] {
    let n = number(request, 16) as usize;
    let given = lent::rest(request, 24);
    of_answer(edit::put_in(
        lent::front(given, n),
        number(request, 8),
        lent::rest(given, n),
        out,
    ))
}

fn cut(request: &[u8], out: &mut [u8]) -> [u64; 3] {
    of_answer(edit::cut(lent::rest(request, 24), number(request, 8), out))
}

// Whether the answer is that of a call that fills a buffer: of a text as many bytes as were written, and else the whole buffer.
fn fills(kind: u8, request: &[u8], answer: &[u8], out: &mut [u8]) -> bool {
    match kind {
        b'r' => {
            let numbers = read(request, out);
            is(answer, &numbers, out)
        }
        b'b' => {
            let numbers = write(request, out);
            is(answer, &numbers, out)
        }
        b'p' => {
            let numbers = put_in(request, out);
            is(answer, &numbers, out)
        }
        b'o' => {
            let numbers = cut(request, out);
            is(answer, &numbers, out)
        }
        _ => {
            let n = put(out, kind, request);
            is(answer, &[], lent::front(&out[0..], n))
        }
    }
}

// How long a buffer is asked for.
fn room(kind: u8, request: &[u8]) -> usize {
    match kind {
        b'f' => number(request, 16) as usize,
        b'w' | b'c' => 8192,
        _ => number(request, 0) as usize,
    }
}

// Whether the answer is the recorded one. The bytes before tell one that a call left alone from a 0.
pub(crate) fn agrees(kind: u8, request: &[u8], answer: &[u8]) -> bool {
    let mut out = [165u8; 8192];
    match out.get_mut(..room(kind, request)) {
        Some(front) => fills(kind, request, answer, front),
        None => answer.is_empty(),
    }
}
