// Cases of listings, kinds 7 and 8.
use super::input::next_bytes;
use super::output::{placed, put_written};
use mail::{read_listing, write_listing};
use std::io;
use std::io::{Read, Write};
use stream::next_number;
use verdict::Answer;

// The format of a listing, a 32-bit number, which is no run. None is over 65,535.
fn next_format(input: &mut impl Read) -> io::Result<u16> {
    let format = next_number(input)?;
    Ok((format % 65536) as u16)
}

// A case of kind 7 or 8: a DTD text, a format, a run that the call reads, a result as lent.
fn run_listing<F: FnOnce(&[u8], u16, &[u8], &mut [u8]) -> Answer>(
    case: usize,
    input: &mut impl Read,
    output: &mut impl Write,
    call: &str,
    run: &mut [u8],
    answer: F,
) -> io::Result<()>
    requires { F.IsAlwaysCallable answer }
{
    let mut text = [0u8; 66560];
    let n = next_bytes(input, &mut text)?;
    let format = next_format(input)?;
    let m = next_bytes(input, run)?;
    let mut out = [0u8; 98304];
    let k = next_bytes(input, &mut out)?;
    let answer = answer(&text[..n], format, &run[..m], &mut out[..k]);
    put_written(output, case, call, answer, &out[..k])
}

// Kind 7: the run is marks.
pub(crate) fn run_write(
    case: usize,
    input: &mut impl Read,
    output: &mut impl Write,
) -> io::Result<()> {
    let mut marks = [0u8; 8192];
    run_listing(
        case,
        input,
        output,
        "write_listing",
        &mut marks,
        |text, format, marks, out| placed(write_listing(text, format, marks, out)),
    )
}

// Kind 8: the run is a listing.
pub(crate) fn run_read(
    case: usize,
    input: &mut impl Read,
    output: &mut impl Write,
) -> io::Result<()> {
    let mut listing = [0u8; 98304];
    run_listing(
        case,
        input,
        output,
        "read_listing",
        &mut listing,
        |text, format, listing, out| Answer::from(read_listing(text, format, listing, out)),
    )
}
