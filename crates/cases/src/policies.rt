// Cases of policies, kind 0.
use super::input::{lend, next_bytes, next_words};
use super::output::{placed, put_line, put_written};
use completion::complete;
use mending::mend;
use proposing::judge_mend;
use std::io;
use std::io::{Read, Write};
use table::check_table;
use verdict::{Answer, judge_policy};

// A call that may write the result, on its own copy of it.
fn put_result<F: FnOnce(&mut [u8]) -> Answer>(
    output: &mut impl Write,
    case: usize,
    call: &str,
    lent: &[u8],
    answer: F,
) -> io::Result<()>
    requires { F.IsAlwaysCallable answer }
{
    let mut out = [0u8; 8192];
    let n = lend(lent, &mut out);
    let answer = answer(&mut out[..n]);
    put_written(output, case, call, answer, &out[..n])
}

// The calls on a case.
fn put_policy(
    output: &mut impl Write,
    case: usize,
    words: &[u16],
    marks: &[u8],
    lent: &[u8],
    proposed: &[u8],
) -> io::Result<()> {
    put_line(output, case, "check", placed(check_table(words)))?;
    put_line(
        output,
        case,
        "verdict",
        Answer::from(judge_policy(words, marks)),
    )?;
    put_result(
        output,
        case,
        "complete",
        lent,
        |out| Answer::from(complete(words, marks, out)),
    )?;
    put_result(
        output,
        case,
        "mend",
        lent,
        |out| Answer::from(mend(words, marks, out)),
    )?;
    put_line(
        output,
        case,
        "propose",
        Answer::from(judge_mend(words, marks, proposed)),
    )
}

// Kind 0: a table, marks, a result as lent, proposed marks.
pub(crate) fn run_policy(
    case: usize,
    input: &mut impl Read,
    output: &mut impl Write,
) -> io::Result<()> {
    let mut words = [0u16; 4096];
    let w = next_words(input, &mut words)?;
    let mut marks = [0u8; 8192];
    let m = next_bytes(input, &mut marks)?;
    let mut lent = [0u8; 8192];
    let n = next_bytes(input, &mut lent)?;
    let mut proposed = [0u8; 8192];
    let p = next_bytes(input, &mut proposed)?;
    put_policy(
        output,
        case,
        &words[..w],
        &marks[..m],
        &lent[..n],
        &proposed[..p],
    )
}
