// Reads DTD text from standard input and writes its table: the words, low byte first, as judge reads them. A refusal is a line on standard error,
// `dtd`, its number and its place, and no table is written.
#![tactic(auto)]

use dtd::read_dtd;
use packing::{put_refusal, put_table};
use std::io;
use stream::read_full;

// Of a longer text the first 65,539 bytes decide: byte 65,536 is refused, and of what is refused before it only ANY reaches behind it.
fn main(rt: HostRuntime) -> io::Result<()> {
    let mut text = [0u8; 65539];
    let n = read_full(&mut rt.reader(), &mut text)?;
    let mut words = [0u16; 1800];
    match read_dtd(&text[..n], &mut words) {
        Ok(_) => put_table(&mut rt.stdout(), &words),
        Err(refusal) => put_refusal(&mut rt.stderr(), b"dtd", refusal.number(), refusal.place()),
    }
}
