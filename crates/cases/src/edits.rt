// Cases of edits, kind 9.
use super::input::{next_bytes, next_numbers, next_words};
use super::output::{put_answer, put_run, put_words};
use editing::edit_mark;
use std::io;
use std::io::{Read, Write};
use verdict::Answer;

// The call of one edit. No mark is over 255.
fn put_edit(
    output: &mut impl Write,
    case: usize,
    words: &[u16],
    marks: &mut [u8],
    kept: &mut [u16],
    privilege: u32,
    mark: u32,
) -> io::Result<()> {
    let answer = edit_mark(words, marks, kept, privilege as usize, (mark % 256) as u8);
    put_answer(output, case, "edit", Answer::from(answer))?;
    put_run(output, marks)?;
    put_words(output, kept)?;
    writeln!(output)
}

// The calls on a case, each on the marks and entries that the one before left.
fn put_edits(
    output: &mut impl Write,
    case: usize,
    words: &[u16],
    marks: &mut [u8],
    kept: &mut [u16],
    edits: &[u32],
) -> io::Result<()> {
    for edit in edits.chunks_exact(2) {
        put_edit(output, case, words, marks, kept, edit[0], edit[1])?;
    }
    Ok(())
}

// Kind 9: a table, marks and entries as lent, the edits, two numbers for each: the privilege and its mark.
pub(crate) fn run_edits(
    case: usize,
    input: &mut impl Read,
    output: &mut impl Write,
) -> io::Result<()> {
    let mut words = [0u16; 4096];
    let w = next_words(input, &mut words)?;
    let mut marks = [0u8; 8192];
    let m = next_bytes(input, &mut marks)?;
    let mut kept = [0u16; 2048];
    let k = next_words(input, &mut kept)?;
    let mut edits = [0u32; 1024];
    let e = next_numbers(input, &mut edits)?;
    put_edits(
        output,
        case,
        &words[..w],
        &mut marks[..m],
        &mut kept[..k],
        &edits[..e],
    )
}
