// Judges the file on standard input: the table, then the marks. What is printed is report's; one byte over 8,192 tells it that a file is too long.
#![tactic(auto)]

use report::{Text, report};
use std::io;
use stream::read_full;

fn main(rt: HostRuntime) -> io::Result<()> {
    let mut file = [0u8; 8193];
    let n = read_full(&mut rt.reader(), &mut file)?;
    let Text { bytes, size } = report(&file[..n]);
    rt.write_all(&bytes[..size])
}
