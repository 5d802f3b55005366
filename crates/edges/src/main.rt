// Nothing is read past the end of a text, and nothing is written where there is no room: leaves of `text` and `spell`, tried and proved.
#![tactic(auto)]

ghost use Rattle.std.specs.Prelude.{◌≡◌, true, false, ◌≤◌, length, eqb};
ghost use Rattle.text.specs.Text.{on_place, on_number};
ghost use Rattle.spell.specs.Spell.{on_spelled};

use text::{Cursor, FigureError};

fn is_absent(p: Option<Cursor>) -> bool
    ensures { result ≡ on_place p (λ c. false) true }
{
    match p {
        Some(_) => false,
        None => true,
    }
}

fn is_past(p: Option<Cursor>, at: usize) -> bool
    ensures { result ≡ on_place p (λ c. eqb c.at at) false }
{
    match p {
        Some(c) => c.at == at,
        None => false,
    }
}

fn is_value(n: Result<(u64, Cursor), FigureError>) -> bool
    ensures { result ≡ on_number n (λ m c. true) false }
{
    match n {
        Ok((_, _)) => true,
        Err(FigureError::Absent) => false,
        Err(FigureError::TooLarge) => false,
    }
}

fn is_not(n: Option<(u8, Cursor)>) -> bool
    ensures { result ≡ on_spelled n (λ m c. false) true }
{
    match n {
        Some((_, _)) => false,
        None => true,
    }
}

// What is read at a place past the end, or at the end, of any text.
fn reads_nothing(s: &[u8], at: usize)
    requires { length s.now ≤ at }
{
    let c = Cursor { at };
    check::expect(c.blanks(s).at == at);
    check::expect(c.padding(s).at == at);
    check::expect(is_past(c.tail(s), at));
    check::expect(is_absent(c.line_ending(s)));
    check::expect(is_absent(c.tag(s, b"x")));
    check::expect(!is_value(c.digits(s, 255)));
    check::expect(is_absent(c.character(s)));
}

// And by the tables.
fn finds_nothing(s: &[u8], at: usize)
    requires { length s.now ≤ at }
{
    let c = Cursor { at };
    check::expect(is_not(spell::kind(c, s)));
    check::expect(is_not(spell::special(c, s)));
    check::expect(is_not(spell::preset(c, s)));
    check::expect(is_not(spell::side(c, s)));
    check::expect(is_not(spell::numeral(c, s)));
    check::expect(is_not(spell::file(c, s)));
    check::expect(is_not(spell::count(c, s)));
}

// What is written of any number into a buffer of no bytes.
fn writes_nothing(out: &mut [u8], n: u8)
    requires { length out.old ≡ 0 }
{
    check::expect(spell::put_kind(out, n) == 0);
    check::expect(spell::put_board_kind(out, n) == 0);
    check::expect(spell::put_special(out, n) == 0);
    check::expect(spell::put_preset(out, n) == 0);
    check::expect(spell::put_numeral(out, n) == 0);
    check::expect(spell::put_file(out, n) == 0);
    check::expect(spell::put_count(out, n) == 0);
}

fn main() {
    reads_nothing(b"", 0);
    reads_nothing(b"", 7);
    reads_nothing(b"\xe6\xad\xa9", 3);
    reads_nothing(b"\xe6\xad\xa9", 18446744073709551615);
    finds_nothing(b"", 0);
    finds_nothing(b"", 7);
    finds_nothing(b"\xe6\xad\xa9", 3);
    finds_nothing(b"\xe6\xad\xa9", 18446744073709551615);
    check::expect(text::well_formed(b"") == 0);
    let mut none = [0u8; 0];
    writes_nothing(&mut none, 1);
    writes_nothing(&mut none, 255);
}
