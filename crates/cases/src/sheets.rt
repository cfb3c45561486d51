// Cases of monthly sheets, kinds 5 and 6.
use super::input::{next_bytes, next_numbers, next_words};
use super::output::put_numbers;
use adding::add_sheets;
use sheet::{Figures, Sheet, month_sheet};
use std::io;
use std::io::{Read, Write};
use stream::next_number;

fn put_figures(output: &mut impl Write, figures: Figures) -> io::Result<()> {
    let Figures {
        clean,
        insert_delete,
        chain,
        cycle,
        refused,
    } = figures;
    write!(output, " {clean} {insert_delete} {chain} {cycle} {refused}")
}

// The line of a call that answers a sheet and may write its counts.
fn put_sheet(
    output: &mut impl Write,
    case: usize,
    call: &str,
    sheet: Sheet,
    counts: &[u32],
) -> io::Result<()> {
    let Sheet {
        number,
        place,
        figures,
        leader_count,
        leaders,
    } = sheet;
    let [first, second, third] = leaders;
    write!(output, "{case} {call} {number} {place}")?;
    put_figures(output, figures)?;
    write!(output, " {leader_count} {first} {second} {third}")?;
    put_numbers(output, counts)?;
    writeln!(output)
}

// The call on a case of kind 5.
fn put_counted(
    output: &mut impl Write,
    case: usize,
    words: &[u16],
    roles: u32,
    marks: &[u8],
    counts: &mut [u32],
) -> io::Result<()> {
    let sheet = month_sheet(words, roles, marks, counts);
    put_sheet(output, case, "sheet", sheet, counts)
}

// Kind 5: a table, the number of roles, their marks, the counts as lent.
pub(crate) fn run_sheet(
    case: usize,
    input: &mut impl Read,
    output: &mut impl Write,
) -> io::Result<()> {
    let mut words = [0u16; 4096];
    let w = next_words(input, &mut words)?;
    let roles = next_number(input)?;
    let mut marks = [0u8; 16384];
    let m = next_bytes(input, &mut marks)?;
    let mut counts = [0u32; 12544];
    let k = next_numbers(input, &mut counts)?;
    put_counted(
        output,
        case,
        &words[..w],
        roles,
        &marks[..m],
        &mut counts[..k],
    )
}

fn next_figures(input: &mut impl Read) -> io::Result<Figures> {
    Ok(Figures {
        clean: next_number(input)?,
        insert_delete: next_number(input)?,
        chain: next_number(input)?,
        cycle: next_number(input)?,
        refused: next_number(input)?,
    })
}

fn next_leaders(input: &mut impl Read) -> io::Result<[usize; 3]> {
    let first = next_number(input)? as usize;
    let second = next_number(input)? as usize;
    let third = next_number(input)? as usize;
    Ok([first, second, third])
}

// A sheet, which is no run: eleven 32-bit numbers.
fn next_sheet(input: &mut impl Read) -> io::Result<Sheet> {
    Ok(Sheet {
        number: next_number(input)? as usize,
        place: next_number(input)? as usize,
        figures: next_figures(input)?,
        leader_count: next_number(input)?,
        leaders: next_leaders(input)?,
    })
}

// The call on a case of kind 6.
fn put_added(
    output: &mut impl Write,
    case: usize,
    words: &[u16],
    sheet: Sheet,
    counts: &mut [u32],
    more: Sheet,
    more_counts: &[u32],
) -> io::Result<()> {
    let sum = add_sheets(words, sheet, counts, more, more_counts);
    put_sheet(output, case, "add_sheets", sum, counts)
}

// Kind 6: a table, a sheet and its counts as lent, another sheet and its counts.
pub(crate) fn run_sum(
    case: usize,
    input: &mut impl Read,
    output: &mut impl Write,
) -> io::Result<()> {
    let mut words = [0u16; 4096];
    let w = next_words(input, &mut words)?;
    let sheet = next_sheet(input)?;
    let mut counts = [0u32; 12544];
    let k = next_numbers(input, &mut counts)?;
    let more = next_sheet(input)?;
    let mut more_counts = [0u32; 12544];
    let l = next_numbers(input, &mut more_counts)?;
    put_added(
        output,
        case,
        &words[..w],
        sheet,
        &mut counts[..k],
        more,
        &more_counts[..l],
    )
}
