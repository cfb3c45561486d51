// Cases of several roles, kind 2.
use super::input::{next_bytes, next_words};
use super::output::{put_answer, put_run, put_words};
use roles::complete_roles;
use std::io;
use std::io::{Read, Write};
use verdict::Answer;

// The call on a case.
fn put_roles(
    output: &mut impl Write,
    case: usize,
    words: &[u16],
    marks: &[u8],
    numbers: &mut [u16],
    out: &mut [u8],
) -> io::Result<()> {
    let answer = Answer::from(complete_roles(words, marks, numbers, out));
    put_answer(output, case, "roles", answer)?;
    put_words(output, numbers)?;
    put_run(output, out)?;
    writeln!(output)
}

// Kind 2: a table, the marks of all roles, their numbers and a result as lent.
pub(crate) fn run_roles(
    case: usize,
    input: &mut impl Read,
    output: &mut impl Write,
) -> io::Result<()> {
    let mut words = [0u16; 4096];
    let w = next_words(input, &mut words)?;
    let mut marks = [0u8; 16384];
    let m = next_bytes(input, &mut marks)?;
    let mut numbers = [0u16; 2048];
    let k = next_words(input, &mut numbers)?;
    let mut out = [0u8; 16384];
    let n = next_bytes(input, &mut out)?;
    put_roles(
        output,
        case,
        &words[..w],
        &marks[..m],
        &mut numbers[..k],
        &mut out[..n],
    )
}
