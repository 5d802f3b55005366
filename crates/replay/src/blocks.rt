// Whether the block's look-ups answer a request so.
use crate::request::{is, number};
use jkf::Answer;

// The number and the figures of an answer.
pub(crate) fn of_answer(a: Answer) -> [u64; 3] {
    let f = jkf::Figures::from(a);
    [f.number, f.first, f.second]
}

// The count of lines, a line or its parent.
fn row(which: u64, b: &[u8], k: u64) -> Answer {
    match which {
        3 => block::lines(b),
        4 => block::line(b, k),
        _ => block::parent(b, k),
    }
}

// A comment, a key, a value, the count of lines, a line or its parent.
pub(crate) fn look_up(request: &[u8], answer: &[u8]) -> bool {
    let which = number(request, 0);
    let k = number(request, 8);
    let b = lent::rest(request, 16);
    if 2 < which {
        return is(answer, &of_answer(row(which, b, k)), b"");
    }
    look_text(which, b, k, answer)
}

// The answer's number and figures, then the text itself.
fn look_text(which: u64, b: &[u8], k: u64, answer: &[u8]) -> bool {
    let mut number = 0u64;
    let mut first = 0u64;
    let mut second = 0u64;
    let text = match which {
        0 => block::comment(b, k, &mut number, &mut first, &mut second),
        1 => block::key(b, k, &mut number, &mut first, &mut second),
        _ => block::value(b, k, &mut number, &mut first, &mut second),
    };
    is(answer, &[number, first, second], text)
}
