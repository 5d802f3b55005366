// The numbers of the endings, and an entry's time.
ghost use Rattle.std.specs.Prelude.{◌≡◌};
ghost use Rattle.jkf.specs.Entries.{special_number, special_of, time_of};

use crate::{Entry, Special, Time};

// An ending's number, in the Rust's order.
impl From<Special> for u8 {
    ghost from_gives = { λ s n. n ≡ special_number s };

    fn from(s: Special) -> u8 {
        match s {
            Special::Toryo => 0,
            Special::Chudan => 1,
            Special::Sennichite => 2,
            Special::TimeUp => 3,
            Special::IllegalMove => 4,
            Special::IllegalActionBlack => 5,
            Special::IllegalActionWhite => 6,
            Special::Jishogi => 7,
            Special::Kachi => 8,
            Special::Hikiwake => 9,
            Special::Matta => 10,
            Special::Tsumi => 11,
            Special::Fuzumi => 12,
            Special::Error => 13,
        }
    }
}

// The time of an entry; the slot has none.
pub fn time_of(e: Entry) -> Time
    ensures { result ≡ time_of e }
{
    match e {
        Entry::Slot => Time::Untimed,
        Entry::Moved(m) => m.time,
        Entry::End(_, t) => t,
    }
}

// The ending with a number, in the Rust's order; the last one for a number past it.
impl From<u8> for Special {
    ghost from_gives = { λ n s. s ≡ special_of n };

    fn from(n: u8) -> Special {
        match n {
            0 => Special::Toryo,
            1 => Special::Chudan,
            2 => Special::Sennichite,
            3 => Special::TimeUp,
            4 => Special::IllegalMove,
            5 => Special::IllegalActionBlack,
            6 => Special::IllegalActionWhite,
            7 => Special::Jishogi,
            8 => Special::Kachi,
            9 => Special::Hikiwake,
            10 => Special::Matta,
            11 => Special::Tsumi,
            12 => Special::Fuzumi,
            _ => Special::Error,
        }
    }
}
