// The ten checks: what each asks at a place, and the lowest place at which it fails. Contracts cite specs/Check.
ghost use Rattle.std.specs.Prelude.{◌≡◌, ℕ, ◌≤◌, ◌<◌, get_or, replicate, ◌≢◌};
ghost use Rattle.table.specs.Steps.Found.{Lowest, Tells};
ghost use Rattle.table.specs.Words.{types, running};
ghost use Rattle.table.specs.Check.{Headed, Laid, RightCount, Follows, Inside, Differ, Counted, Holds, places_in, places_of, number_of, rank_of, Earlier};
ghost use Rattle.table.specs.Steps.Flags.{MarkedFor, Asked};

use super::below::{is_on_cycle, mark_below};
use super::privilege::privileges;
use super::rule::children;
use super::words::{entries, record_word, stretch, types, word_at};

#[derive(Clone, Copy, Debug, PartialEq, Eq)]
pub enum Check {
    Format,
    Layout,
    Kind,
    Count,
    Stretch,
    Bounds,
    Twice,
    Cycle,
    Unreached,
    Total,
}

// The checks in their order.
pub const CHECKS: [Check; 10] = [
    Check::Format,
    Check::Layout,
    Check::Kind,
    Check::Count,
    Check::Stretch,
    Check::Bounds,
    Check::Twice,
    Check::Cycle,
    Check::Unreached,
    Check::Total,
];

impl Check {
    // Its number.
    pub fn number(self) -> u8
        ensures { result ≡ number_of self }
    {
        match self {
            Check::Format => 1,
            Check::Layout => 2,
            Check::Kind => 3,
            Check::Count => 4,
            Check::Stretch => 5,
            Check::Bounds => 6,
            Check::Twice => 7,
            Check::Cycle => 19,
            Check::Unreached => 8,
            Check::Total => 9,
        }
    }
}

// How many places the check has in a table of e types.
fn places_in(check: Check, e: usize) -> usize
    requires { e < 65536 }
    ensures { result ≡ places_in e check }
{
    match check {
        Check::Format | Check::Layout | Check::Total => 1,
        Check::Stretch => e + 1,
        Check::Kind
        | Check::Count
        | Check::Bounds
        | Check::Twice
        | Check::Cycle
        | Check::Unreached => e,
    }
}

pub fn is_headed(words: &[u16]) -> bool
    ensures { Tells (Headed words.now) result }
{
    let format = word_at(words, 0);
    8 <= words.len() && (format == 1 || format == 2)
}

pub fn is_laid(words: &[u16]) -> bool
    ensures { Tells (Laid words.now) result }
{
    let size = word_at(words, 1);
    let e = types(words);
    let c = entries(words);
    1 <= e
        && e <= 256
        && word_at(words, 3) < e
        && word_at(words, 4) == 8
        && c <= 1024
        && word_at(words, 6) == 8 + 3 * e
        && size == 8 + 3 * e + c
        && words.len() == size
}

pub fn right_count(kind: usize, count: usize) -> bool
    ensures { Tells (RightCount kind count) result }
{
    if kind < 2 {
        count == 0
    } else if kind < 4 {
        1 <= count && count <= 16
    } else {
        kind != 4 || count == 1
    }
}

// The running index at t, read off the type before, whose children follow on.
fn running_index(words: &[u16], t: usize) -> usize
    requires { Laid words.now × (t ≤ types words.now) × ((q : ℕ) → q < t → Follows words.now q) }
    ensures { result ≡ running words.now t }
{
    if t == 0 {
        return 0;
    }
    record_word(words, t - 1, 2) + record_word(words, t - 1, 1)
}

fn follows(words: &[u16], t: usize) -> bool
    requires { Laid words.now × (t ≤ types words.now) × ((q : ℕ) → q < t → Follows words.now q) }
    ensures { Tells (Follows words.now t) result }
{
    let index = running_index(words, t);
    if t < types(words) {
        return record_word(words, t, 2) == index;
    }
    entries(words) == index
}

// Is each child below e?
fn inside(kids: &[u16], e: usize) -> bool
    ensures { Tells (Inside e kids.now) result }
{
    kids.iter().all(|kid| usize::from(*kid) < e)
}

// Does the child at j differ from those before it?
fn is_new(kids: &[u16], j: usize) -> bool
    ensures { Tells ((i : ℕ) → i < j → get_or kids.now i 0 ≢ get_or kids.now j 0) result }
{
    let child = word_at(kids, j);
    (0..j).all(|i| word_at(kids, i) != child)
}

fn differ(kids: &[u16]) -> bool
    ensures { Tells (Differ kids.now) result }
{
    (0..kids.len()).all(|j| is_new(kids, j))
}

fn is_counted(words: &[u16]) -> bool
    requires { Laid words.now }
    ensures { Tells (Counted words.now) result }
{
    let v = privileges(words);
    v <= 4096 && word_at(words, 7) == v
}

// Marks the types that are reached from the root, for the check that asks it.
fn mark_reached(words: &[u16], check: Check, reached: &mut [u8; 256])
    requires { Earlier words.now check × (reached.old ≡ replicate 256 0) }
    ensures { MarkedFor words.now check reached.new }
{
    if let Check::Unreached = check {
        mark_below(words, stretch(words, 3, 4), reached);
    }
}

// Does the check hold at place p, where it holds at those before?
fn holds_at(words: &[u16], reached: &[u8; 256], check: Check, p: usize) -> bool
    requires { Asked words.now reached.now check p }
    ensures { Tells (Holds words.now check p) result }
{
    match check {
        Check::Format => is_headed(words),
        Check::Layout => is_laid(words),
        Check::Kind => record_word(words, p, 0) <= 4,
        Check::Count => right_count(record_word(words, p, 0), record_word(words, p, 1)),
        Check::Stretch => follows(words, p),
        Check::Bounds => inside(children(words, p), types(words)),
        Check::Twice => differ(children(words, p)),
        Check::Cycle => !is_on_cycle(words, p),
        Check::Unreached => reached[p] == 1,
        Check::Total => is_counted(words),
    }
}

// The lowest place at which the check fails, where those before it pass.
pub fn lowest_failing(words: &[u16], check: Check) -> Option<usize>
    requires { Earlier words.now check }
    ensures { Lowest (Holds words.now check) (places_of words.now check) result }
{
    let mut reached = [0u8; 256];
    mark_reached(words, check, &mut reached);
    for p in 0..places_in(check, types(words)) {
        if !holds_at(words, &reached, check, p) {
            return Some(p);
        }
    }
    None
}
