// 01's listing: reads standard input, and prints what reading answers and each line of the block; or the refusal.
#![tactic(auto)]

use std::io;
use std::io::{Cursor, Read};

// Prints a refusal's number and figures.
fn print_refusal(rt: &impl Print, number: u64, first: u64, second: u64) -> io::Result<()> {
    let mut out = [0u8; 128];
    let n = shown::put_refusal(&mut out, number, first, second);
    rt.write_all(lent::front(&out, n))
}

// Prints the listing of a block. There is room for as many lines as a block can have, 2,335.
fn print_listing(rt: &impl Print, taken: u64, b: &[u8]) -> io::Result<()> {
    let mut out = [0u8; 112133];
    let n = shown::put_listing(&mut out, taken, b);
    rt.write_all(lent::front(&out, n))
}

// Reads a text into a block as long as a block can be, so that no buffer is short.
fn list(rt: &impl Print, text: &[u8]) -> io::Result<()> {
    let mut block = [0u8; 65535];
    let r = parser::fill(text, &mut block);
    let f = jkf::Figures::from(r.answer);
    if f.number != 0 {
        return print_refusal(rt, f.number, f.first, f.second);
    }
    print_listing(rt, f.first, lent::front(&block, f.second as usize))
}

// One byte more than a text may have, so that a longer input is refused and not cut.
fn main(rt: HostRuntime) -> io::Result<()> {
    let mut input = [0u8; 65536];
    let n = io::copy(
        &mut rt.stdin().take(65536),
        &mut Cursor::new(&mut input[..]),
    )?;
    list(&rt, lent::front(&input, n as usize))
}
