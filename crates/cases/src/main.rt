// Makes the calls on a stream of cases and prints a line for each: its answer, and each run that it may write. second/README.md has the form of both.
#![tactic(auto)]

mod carrying;
mod edits;
mod input;
mod listings;
mod map_pairs;
mod output;
mod policies;
mod role_sets;
mod schemas;
mod sheets;

use carrying::run_carry;
use edits::run_edits;
use listings::{run_read, run_write};
use map_pairs::run_maps;
use policies::run_policy;
use role_sets::run_roles;
use schemas::run_dtd;
use sheets::{run_sheet, run_sum};
use std::io;
use std::io::{Read, Write};
use stream::next_kind;

// Makes the calls on the next case, if there is one of a known kind.
fn run_case(case: usize, input: &mut impl Read, output: &mut impl Write) -> io::Result<bool> {
    let Some(kind) = next_kind(input)? else {
        return Ok(false);
    };
    match kind {
        0 => run_policy(case, input, output)?,
        1 => run_dtd(case, input, output)?,
        2 => run_roles(case, input, output)?,
        3 => run_maps(case, input, output)?,
        4 => run_carry(case, input, output)?,
        5 => run_sheet(case, input, output)?,
        6 => run_sum(case, input, output)?,
        7 => run_write(case, input, output)?,
        8 => run_read(case, input, output)?,
        9 => run_edits(case, input, output)?,
        _ => return Ok(false),
    }
    Ok(true)
}

// A stream has at most 65,536 cases.
fn run_all(input: &mut impl Read, output: &mut impl Write) -> io::Result<()> {
    for case in 0..65536 {
        if !run_case(case, input, output)? {
            break;
        }
    }
    Ok(())
}

fn main(rt: HostRuntime) -> io::Result<()> {
    run_all(&mut rt.reader(), &mut io::writer(&rt))
}
