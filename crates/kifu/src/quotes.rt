// Names and words as they are told: one with control characters, or that is not UTF-8, stands as the shell reads it, $'a\x0ab'; an empty one is ''.
use crate::notes::{Streams, put_error};

// Whether the byte at a place stands as it is, in a text or in what is none. The control characters past ASCII are those from C2 80 to C2 9F.
fn is_shown(w: &[u8], at: usize, is_text: bool) -> bool {
    let b = lent::peek(w, at);
    if b.is_ascii() {
        return !b.is_ascii_control();
    }
    if 0 < at && b < 160 && lent::peek(w, at - 1) == 0xc2 {
        return false;
    }
    is_text
}

// A byte between the quotes.
fn say_byte(rt: &impl Streams, w: &[u8], at: usize, is_text: bool) {
    let b = lent::peek(w, at);
    if b != b'\'' && b != b'\\' && is_shown(w, at, is_text) {
        put_error(rt, &[b]);
        return;
    }
    let _ = eprint!(rt; "\\x{b:02x}");
}

// All of them.
fn say_bytes(rt: &impl Streams, w: &[u8], is_text: bool) {
    for at in 0..w.len() {
        say_byte(rt, w, at, is_text);
    }
}

// A word.
pub(crate) fn say_word(rt: &impl Streams, w: &[u8]) {
    let is_text = text::well_formed(w) == w.len();
    if w.is_empty() {
        put_error(rt, b"''");
        return;
    }
    if (0..w.len()).all(|at| is_shown(w, at, is_text)) {
        put_error(rt, w);
        return;
    }
    put_error(rt, b"$'");
    say_bytes(rt, w, is_text);
    put_error(rt, b"'");
}

// The name of a file that is read.
pub(crate) fn say_name(rt: &impl Streams, name: &[u8]) {
    if matches!(name, b"-") {
        put_error(rt, b"standard input");
        return;
    }
    say_word(rt, name);
}
