// Runs of a case.
ghost use Rattle.std.specs.Prelude.{◌≤◌, length, IfOk};

use std::io;
use std::io::Read;
use stream::{next_length, read_bytes, read_numbers, read_words};

// The next run of words, or as much of it as there is room for.
pub(crate) fn next_words(input: &mut impl Read, words: &mut [u16]) -> io::Result<usize>
    ensures { IfOk result (λ n. n ≤ length words.new) }
{
    let count = next_length(input)?;
    read_words(input, count, words)
}

// The next run of bytes, or as much of it as there is room for.
pub(crate) fn next_bytes(input: &mut impl Read, run: &mut [u8]) -> io::Result<usize>
    ensures { IfOk result (λ n. n ≤ length run.new) }
{
    let count = next_length(input)?;
    read_bytes(input, count, run)
}

// The next run of 32-bit numbers, or as much of it as there is room for.
pub(crate) fn next_numbers(input: &mut impl Read, numbers: &mut [u32]) -> io::Result<usize>
    ensures { IfOk result (λ n. n ≤ length numbers.new) }
{
    let count = next_length(input)?;
    read_numbers(input, count, numbers)
}

// Copies the result as it was lent, or as much of it as there is room for.
pub(crate) fn lend(lent: &[u8], out: &mut [u8]) -> usize
    ensures { result ≤ length out.new }
{
    let n = lent.len().min(out.len());
    out[..n].copy_from_slice(&lent[..n]);
    n
}
