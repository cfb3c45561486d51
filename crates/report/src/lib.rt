// What the program judge prints for a file. Contracts cite specs/File for what the file lends and specs/Report for the lines.
// Arrays have a fixed size: nothing here allocates.
#![tactic(auto)]

ghost use Rattle.std.specs.Prelude.{◌+◌, ◌*◌, ◌≤◌, [], ◌++◌, ◌≡◌, length, take};
ghost use Rattle.table.specs.Check.{Accepted};
ghost use Rattle.policy.specs.Marks.{Policy};
ghost use Rattle.lines.specs.Text.{line};
ghost use Rattle.runs.specs.Putting.{Puts};
ghost use Rattle.report.specs.File.{words_of, lent_of};
ghost use Rattle.report.specs.Report.{answer_line, five_of, numbers_of, verdict_word, CompleteLine, MendedLine, PolicyLines, Report, Reported};
ghost use Rattle.report.specs.Steps.Adding.{Adds};

use completion::complete;
use lines::put_line;
use mending::mend;
use table::check_table;
use verdict::{Breach, judge_policy, number_of};

// A text: the first bytes, as many as its size.
#[derive(Drop)]
pub struct Text {
    pub bytes: [u8; 8768],
    pub size: usize,
}

// Reads every whole word of a file, and answers how many there are.
fn read_words(file: &[u8], words: &mut [u16]) -> usize
    requires { length file.now ≤ 2 * length words.old }
    ensures { (result ≤ length words.new) × (take result words.new ≡ words_of file.now) }
{
    let n = file.len() / 2;
    for k in 0..n {
        words[k] = u16::from(file[2 * k]) + 256 * u16::from(file[2 * k + 1]);
    }
    n
}

// The words that are lent: as many as word 1 names, or all.
fn lent(words: &[u16]) -> &[u16]
    ensures { result.now ≡ lent_of words.now }
{
    if words.len() < 2 {
        return words;
    }
    &words[..usize::from(words[1]).min(words.len())]
}

// Puts the line of an answer: a word, its number and its place.
fn put_answer(out: &mut [u8], at: usize, word: &[u8], number: u8, place: usize) -> usize
    requires { at + length word.now + 44 ≤ length out.old }
    ensures { Puts (answer_line word.now number place) out.old at out.new result }
{
    let numbers = [usize::from(number), place];
    put_line(out, at, word, &numbers, b"")
}

// The numbers of the verdict's line: the five of the breach, and then the positions of its chain.
fn verdict_numbers(breach: Breach, positions: &[u8]) -> [usize; 22]
    requires { length positions.now ≤ 17 }
    ensures { take (5 + length positions.now) result ≡ five_of breach ++ positions.now }
{
    let mut numbers = [0usize; 22];
    numbers[0] = number_of(breach.condition);
    numbers[1] = breach.element;
    numbers[2] = breach.i;
    numbers[3] = breach.j;
    numbers[4] = breach.privilege;
    for (k, position) in positions.iter().enumerate() {
        numbers[5 + k] = usize::from(*position);
    }
    numbers
}

// Puts the verdict's line.
fn put_verdict(out: &mut [u8], at: usize, breach: Breach) -> usize
    requires { (at + 471 ≤ length out.old) × (breach.length ≤ 17) × (length breach.chain ≡ 17) }
    ensures { Puts (line verdict_word (numbers_of breach) []) out.old at out.new result }
{
    let length = breach.length;
    let numbers = verdict_numbers(breach, &breach.chain[..length]);
    put_line(out, at, b"verdict", &numbers[..5 + length], b"")
}

// Puts the completion's line.
fn put_completed(words: &[u16], marks: &[u8], out: &mut [u8], at: usize) -> usize
    requires { Policy words.now marks.now × (at + 4106 ≤ length out.old) }
    ensures { Adds (CompleteLine words.now marks.now) 4106 out.old at out.new result }
{
    let mut completed = [0u8; 4096];
    match complete(words, marks, &mut completed) {
        Ok(()) => put_line(out, at, b"complete", &[], &completed[..marks.len()]),
        Err(_) => put_line(out, at, b"complete none", &[], b""),
    }
}

// Puts the mend's line. A policy is never refused here: there is room for any.
fn put_mended(words: &[u16], marks: &[u8], out: &mut [u8], at: usize) -> usize
    requires { Policy words.now marks.now × (at + 4125 ≤ length out.old) }
    ensures { Adds (MendedLine words.now marks.now) 4125 out.old at out.new result }
{
    let mut mended = [0u8; 4096];
    let count = mend(words, marks, &mut mended).unwrap();
    put_line(out, at, b"mended", &[count], &mended[..marks.len()])
}

// Puts what follows line 1 where the table is accepted.
fn put_policy(words: &[u16], marks: &[u8], out: &mut [u8], at: usize) -> usize
    requires { Accepted words.now × (at + 8702 ≤ length out.old) }
    ensures { Adds (PolicyLines words.now marks.now) 8702 out.old at out.new result }
{
    match judge_policy(words, marks) {
        Ok(breach) => {
            let second = put_verdict(out, at, breach);
            let third = put_completed(words, marks, out, second);
            put_mended(words, marks, out, third)
        }
        Err(refusal) => put_answer(out, at, b"marks", refusal.number(), refusal.place()),
    }
}

// Puts all lines for a file that is not too long.
fn put_report(file: &[u8], out: &mut [u8]) -> usize
    requires { (length file.now ≤ 8192) × (length out.old ≡ 8768) }
    ensures { Adds (Report file.now) 8768 out.old 0 out.new result }
{
    let mut space = [0u16; 4096];
    let n = read_words(file, &mut space);
    let words = lent(&space[..n]);
    match check_table(words) {
        Ok(v) => {
            let second = put_answer(out, 0, b"table", 0, v);
            put_policy(words, &file[2 * words.len()..], out, second)
        }
        Err(refusal) => put_answer(out, 0, b"table", refusal.number(), refusal.place()),
    }
}

// What is printed for a file, whatever it holds.
pub fn report(file: &[u8]) -> Text
    ensures { Reported file.now result }
{
    let mut bytes = [0u8; 8768];
    let size = if file.len() > 8192 {
        put_answer(&mut bytes, 0, b"table", 2, 0)
    } else {
        put_report(file, &mut bytes)
    };
    Text { bytes, size }
}
