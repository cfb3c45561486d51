// Cases of DTD texts, kind 1.
use super::input::{next_bytes, next_words};
use super::output::{placed, put_answer, put_words};
use dtd::read_dtd;
use std::io;
use std::io::{Read, Write};

// The call on a case.
fn put_dtd(output: &mut impl Write, case: usize, text: &[u8], out: &mut [u16]) -> io::Result<()> {
    put_answer(output, case, "dtd", placed(read_dtd(text, out)))?;
    put_words(output, out)?;
    writeln!(output)
}

// Kind 1: a DTD text, a result as lent.
pub(crate) fn run_dtd(
    case: usize,
    input: &mut impl Read,
    output: &mut impl Write,
) -> io::Result<()> {
    let mut text = [0u8; 66560];
    let n = next_bytes(input, &mut text)?;
    let mut out = [0u16; 2048];
    let w = next_words(input, &mut out)?;
    put_dtd(output, case, &text[..n], &mut out[..w])
}
