// Lines of answers.
use std::io;
use std::io::Write;
use table::Refusal;
use verdict::{Answer, Breach, number_of, refused};

// A run, two hexadecimal digits a byte.
pub(crate) fn put_run(output: &mut impl Write, run: &[u8]) -> io::Result<()> {
    write!(output, " ")?;
    for byte in run {
        write!(output, "{byte:02x}")?;
    }
    Ok(())
}

// A run of words, four hexadecimal digits a word, low byte first.
pub(crate) fn put_words(output: &mut impl Write, run: &[u16]) -> io::Result<()> {
    write!(output, " ")?;
    for word in run {
        write!(output, "{:04x}", word.swap_bytes())?;
    }
    Ok(())
}

// A run of 32-bit numbers, eight hexadecimal digits a number, low byte first.
pub(crate) fn put_numbers(output: &mut impl Write, run: &[u32]) -> io::Result<()> {
    write!(output, " ")?;
    for number in run {
        write!(output, "{:08x}", number.swap_bytes())?;
    }
    Ok(())
}

// The answer of a call that gives a place where it refuses nothing.
pub(crate) fn placed(told: Result<usize, Refusal>) -> Answer {
    match told {
        Ok(place) => refused(0, place),
        Err(refusal) => refused(refusal.number(), refusal.place()),
    }
}

// A breach, with its chain: the length, and the 17 places as a run.
fn put_breach(output: &mut impl Write, breach: Breach) -> io::Result<()> {
    let Breach {
        condition,
        element,
        i,
        j,
        privilege,
        forbidden,
        length,
        chain,
    } = breach;
    let condition = number_of(condition);
    write!(
        output,
        " {condition} {element} {i} {j} {privilege} {forbidden} {length}"
    )?;
    put_run(output, &chain)
}

pub(crate) fn put_answer(
    output: &mut impl Write,
    case: usize,
    call: &str,
    answer: Answer,
) -> io::Result<()> {
    let Answer {
        number,
        place,
        count,
        breach,
    } = answer;
    write!(output, "{case} {call} {number} {place} {count}")?;
    put_breach(output, breach)
}

// The line of a call that only reads.
pub(crate) fn put_line(
    output: &mut impl Write,
    case: usize,
    call: &str,
    answer: Answer,
) -> io::Result<()> {
    put_answer(output, case, call, answer)?;
    writeln!(output)
}

// The line of a call that may write a result.
pub(crate) fn put_written(
    output: &mut impl Write,
    case: usize,
    call: &str,
    answer: Answer,
    run: &[u8],
) -> io::Result<()> {
    put_answer(output, case, call, answer)?;
    put_run(output, run)?;
    writeln!(output)
}

// The line of a call that may write two results.
pub(crate) fn put_pair(
    output: &mut impl Write,
    case: usize,
    call: &str,
    answer: Answer,
    first: &[u8],
    second: &[u8],
) -> io::Result<()> {
    put_answer(output, case, call, answer)?;
    put_run(output, first)?;
    put_run(output, second)?;
    writeln!(output)
}
