// Cases of marks carried to a new table, kind 4.
use super::input::{next_bytes, next_words};
use super::output::put_pair;
use carry::carry_marks;
use std::io;
use std::io::{Read, Write};
use verdict::Answer;

// The call on a case.
fn put_carried(
    output: &mut impl Write,
    case: usize,
    old_words: &[u16],
    old_marks: &[u8],
    new_words: &[u16],
    new_numbers: &[u16],
    out: &mut [u8],
    lost: &mut [u8],
) -> io::Result<()> {
    let answer = carry_marks(old_words, old_marks, new_words, new_numbers, out, lost);
    put_pair(output, case, "carry", Answer::from(answer), out, lost)
}

// Kind 4: an old table, its marks, a new table, the new numbers, a result and its lost bytes as lent.
pub(crate) fn run_carry(
    case: usize,
    input: &mut impl Read,
    output: &mut impl Write,
) -> io::Result<()> {
    let mut old_words = [0u16; 4096];
    let w = next_words(input, &mut old_words)?;
    let mut old_marks = [0u8; 8192];
    let m = next_bytes(input, &mut old_marks)?;
    let mut new_words = [0u16; 4096];
    let v = next_words(input, &mut new_words)?;
    let mut new_numbers = [0u16; 2048];
    let k = next_words(input, &mut new_numbers)?;
    let mut out = [0u8; 8192];
    let n = next_bytes(input, &mut out)?;
    let mut lost = [0u8; 8192];
    let l = next_bytes(input, &mut lost)?;
    put_carried(
        output,
        case,
        &old_words[..w],
        &old_marks[..m],
        &new_words[..v],
        &new_numbers[..k],
        &mut out[..n],
        &mut lost[..l],
    )
}
