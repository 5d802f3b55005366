// Requests and answers as bytes: numbers of eight bytes, low byte first, and a text to the end.

// The number of the eight bytes at a place; those past the end are 0.
pub(crate) fn number(s: &[u8], at: usize) -> u64 {
    let mut bytes = [0u8; 8];
    lent::put_bytes(&mut bytes, lent::front(lent::rest(s, at), 8));
    u64::from_le_bytes(bytes)
}

// Whether an answer is these numbers and this text.
pub(crate) fn is(answer: &[u8], numbers: &[u64], text: &[u8]) -> bool {
    let mut rest = answer;
    for n in numbers {
        if rest.len() < 8 || number(rest, 0) != *n {
            return false;
        }
        rest = &rest[8..];
    }
    rest == text
}
