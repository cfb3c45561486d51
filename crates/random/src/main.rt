// Reports on each file of a stream, as the program judge does on one: second/README.md has the stream's form.
#![tactic(auto)]

use report::{Text, report};
use std::io;
use std::io::Read;
use stream::{next_run, read_bytes};

fn print_report(rt: &impl Print, file: &[u8]) -> io::Result<()> {
    let Text { bytes, size } = report(file);
    rt.write_all(&bytes[..size])
}

// Reports on the next file, if there is one.
fn run_file(rt: &impl Print, files: &mut impl Read) -> io::Result<bool> {
    let Some(count) = next_run(files)? else {
        return Ok(false);
    };
    let mut file = [0u8; 8193];
    let n = read_bytes(files, count, &mut file)?;
    print_report(rt, &file[..n])?;
    Ok(true)
}

// A stream has at most 65,536 files.
fn run_all(rt: &impl Print, files: &mut impl Read) -> io::Result<()> {
    for _ in 0..65536 {
        if !run_file(rt, files)? {
            break;
        }
    }
    Ok(())
}

fn main(rt: HostRuntime) -> io::Result<()> {
    run_all(&rt, &mut rt.reader())
}
