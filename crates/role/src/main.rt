// A role between its two forms in files, over the DTD text in the file that an argument names:
//     role read FORMAT DTD < LISTING > POLICY
//     role write DTD < POLICY > LISTING
// A policy is what judge reads, the table and the marks; a listing is what people mail. A refusal is a line on standard error, `role`, its number and its
// place, or `role table` where the policy's table is not that of the DTD text in its format, and nothing is written to standard output.
#![tactic(auto)]

ghost use Rattle.std.specs.Prelude.{◌≤◌, length};

use mail::{read_listing, read_schema, write_listing};
use packing::{pack, put_refusal, put_table, words_of};
use runs::part;
use std::env::FillError;
use std::fs::File;
use std::io;
use std::io::Write;
use std::rt::{Env, Files};
use stream::read_full;
use table::Refusal;

fn refuse(refusals: &mut impl Write, refusal: Refusal) -> io::Result<()> {
    put_refusal(refusals, b"role", refusal.number(), refusal.place())
}

// Writes the policy of a listing: the table, then the marks.
fn put_policy(
    out: &mut impl Write,
    refusals: &mut impl Write,
    text: &[u8],
    format: u16,
    listing: &[u8],
) -> io::Result<()> {
    let mut words = [0u16; 1800];
    let v = match read_schema(text, format, &mut words) {
        Ok(v) => v,
        Err(refusal) => return refuse(refusals, refusal),
    };
    let mut marks = [0u8; 4096];
    if let Err(refusal) = read_listing(text, format, listing, &mut marks) {
        return refuse(refusals, refusal);
    }
    put_table(out, &words)?;
    out.write_all(&marks[..v.min(4096)])
}

// Writes the listing of marks.
fn put_listing(
    out: &mut impl Write,
    refusals: &mut impl Write,
    text: &[u8],
    format: u16,
    marks: &[u8],
) -> io::Result<()> {
    let mut listing = [0u8; 446464];
    match write_listing(text, format, marks, &mut listing) {
        Ok(size) => out.write_all(part(&listing, 0, size)),
        Err(refusal) => refuse(refusals, refusal),
    }
}

// Word 0 of a policy, its format; 0 where there is none.
fn format_of(policy: &[u8]) -> u16 {
    match policy {
        [low, high, ..] => u16::from_le_bytes([*low, *high]),
        _ => 0,
    }
}

// Does the policy begin with this table?
fn is_over(policy: &[u8], words: &[u16; 1800]) -> bool {
    let mut bytes = [0u8; 3600];
    pack(words, &mut bytes);
    policy.starts_with(&bytes[..2 * words_of(words)])
}

// Writes the listing of a policy whose table is that of the text in its format.
fn put_marks(
    out: &mut impl Write,
    refusals: &mut impl Write,
    text: &[u8],
    policy: &[u8],
) -> io::Result<()> {
    let format = format_of(policy);
    let mut words = [0u16; 1800];
    if let Err(refusal) = read_schema(text, format, &mut words) {
        return refuse(refusals, refusal);
    }
    if is_over(policy, &words) {
        let n = 2 * words_of(&words);
        let marks = part(policy, n, policy.len());
        put_listing(out, refusals, text, format, marks)
    } else {
        refusals.write_all(b"role table\n")
    }
}

// Puts argument i at the start of the buffer, and answers its length; 0 where there is none or it is longer.
fn argument(rt: &impl Env, i: usize, buffer: &mut [u8]) -> usize
    ensures { result ≤ length buffer.new }
{
    rt.arg(i, buffer).unwrap_or(0)
}

fn is_given(rt: &impl Env, i: usize) -> bool {
    !matches!(rt.arg(i, &mut []), Err(FillError::NotPresent))
}

// How many arguments there are, the program's own name among them; 5 where there are more.
fn argument_count(rt: &impl Env) -> usize {
    for i in 0..5 {
        if !is_given(rt, i) {
            return i;
        }
    }
    5
}

// The system's numbers of two errors: of an argument that is none, and of a name that is too long.
const EINVAL: i32 = 22;

const ENAMETOOLONG: i32 = 36;

fn error_of(error: FillError) -> io::Error {
    io::Error::from_raw_os_error(match error {
        FillError::NotPresent => EINVAL,
        FillError::TooLong => ENAMETOOLONG,
    })
}

// Writes a line: what failed, and the system's words for why. The error's text has its number behind them, in brackets.
fn put_failure(refusals: &mut impl Write, what: &[u8], error: io::Error) -> io::Result<()> {
    let mut text = [0u8; 128];
    write!(text.as_mut_slice(), "{error}")?;
    let end = text.iter().position(|byte| *byte == b'(').unwrap_or(0);
    refusals.write_all(what)?;
    refusals.write_all(b": ")?;
    refusals.write_all(&text[..end.saturating_sub(1)])?;
    refusals.write_all(b"\n")
}

// Opens the file of this name. A name is UTF-8.
fn open_file<R: Files>(rt: &R, name: &[u8]) -> io::Result<R::File> {
    let Ok(path) = std::str::from_utf8(name) else {
        return Err(io::Error::from_raw_os_error(EINVAL));
    };
    File::open(rt, path)
}

// The file of this name; or nothing, and a line says why.
fn open_told<R: Files>(
    rt: &R,
    refusals: &mut impl Write,
    name: &[u8],
) -> io::Result<Option<R::File>> {
    match open_file(rt, name) {
        Ok(file) => Ok(Some(file)),
        Err(error) => {
            put_failure(refusals, name, error)?;
            Ok(None)
        }
    }
}

// The file that argument i names; or nothing, and a line says why.
fn open_named<R: Env + Files>(
    rt: &R,
    refusals: &mut impl Write,
    i: usize,
) -> io::Result<Option<R::File>> {
    let mut name = [0u8; 4096];
    match rt.arg(i, &mut name) {
        Ok(n) => open_told(rt, refusals, &name[..n]),
        Err(error) => {
            put_failure(refusals, b"role", error_of(error))?;
            Ok(None)
        }
    }
}

fn format_by(digit: u8) -> u16 {
    match digit {
        b'1' => 1,
        b'2' => 2,
        _ => 0,
    }
}

// The format that argument 2 names; 0 if it names none.
fn format_named(rt: &impl Env) -> u16 {
    let mut digit = [0u8; 1];
    if argument(rt, 2, &mut digit) == 0 {
        return 0;
    }
    format_by(digit[0])
}

// Of a longer text the first 65,539 bytes decide, as for schema. Of a longer listing the first 446,573 do: lines that ascend have at most 446,464 bytes,
// 109 for each of 4,096 privileges, and a line that does not has at most 109 more.
fn read_role<R: Env + Files + Input>(
    rt: &R,
    out: &mut impl Write,
    refusals: &mut impl Write,
) -> io::Result<()> {
    let Some(mut file) = open_named(rt, refusals, 3)? else {
        return Ok(());
    };
    let mut text = [0u8; 65539];
    let n = read_full(&mut file, &mut text)?;
    let mut listing = [0u8; 446573];
    let size = read_full(&mut rt.reader(), &mut listing)?;
    put_policy(
        out,
        refusals,
        &text[..n],
        format_named(rt),
        &listing[..size],
    )
}

// Of a longer policy the first 8,193 bytes decide: behind its table are more marks than any table has privileges.
fn write_role<R: Env + Files + Input>(
    rt: &R,
    out: &mut impl Write,
    refusals: &mut impl Write,
) -> io::Result<()> {
    let Some(mut file) = open_named(rt, refusals, 2)? else {
        return Ok(());
    };
    let mut text = [0u8; 65539];
    let n = read_full(&mut file, &mut text)?;
    let mut policy = [0u8; 8193];
    let size = read_full(&mut rt.reader(), &mut policy)?;
    put_marks(out, refusals, &text[..n], &policy[..size])
}

fn put_usage(refusals: &mut impl Write) -> io::Result<()> {
    refusals.write_all(b"usage: role read FORMAT DTD < LISTING > POLICY, ")?;
    refusals.write_all(b"or role write DTD < POLICY > LISTING\n")
}

// Is this the verb, and are there so many arguments, the program's own name among them?
fn is_told(rt: &impl Env, told: &[u8], verb: &[u8], count: usize) -> bool {
    argument_count(rt) == count && told == verb
}

fn main(rt: HostRuntime) -> io::Result<()> {
    let mut told = [0u8; 5];
    let n = argument(&rt, 1, &mut told);
    if is_told(&rt, &told[..n], b"read", 4) {
        read_role(&rt, &mut rt.stdout(), &mut rt.stderr())
    } else if is_told(&rt, &told[..n], b"write", 3) {
        write_role(&rt, &mut rt.stdout(), &mut rt.stderr())
    } else {
        put_usage(&mut rt.stderr())
    }
}
