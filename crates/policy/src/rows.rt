// A relation on the positions of a choice as 16 rows of 16 bits: read of its marks, asked, changed and joined. Only this crate looks into a
// row's bits. Contracts cite specs/Steps/Squares.
ghost use Rattle.std.specs.Prelude.{◌≡◌, ℕ, ◌+◌, ◌≤◌, ◌<◌, length, get_or};
ghost use Rattle.table.specs.Steps.Found.{Tells};
ghost use Rattle.table.specs.Steps.Numbering.{row_in};
ghost use Rattle.policy.specs.Marks.{Legal};
ghost use Rattle.policy.specs.Steps.Squares.{bit, marked, Square, StepIn, Flags, Room, Readable, AskedAt, RowRead, Read, Inside, Shared, LowestShared, Positions, Into, RowJoined, Joined, Toggled};
ghost use Rattle.policy.specs.Steps.Packed.{Flagged};

use super::packed::{eight, sixteen, with_gap};
use table::privilege::{Numbering, missing, row_at, width};

// 1 if the mark is the one asked for, else 0.
fn flag(mark: u8, asked: u8) -> u64
    ensures { Flags (mark ≡ asked) result }
{
    u64::from(mark == asked)
}

// Some marks from a place on, one by one: the lower sixteen bits tell which are 1, and the upper ones which are 2.
fn flags_of(marks: &[u8], at: usize, size: usize) -> u64
    requires { (size ≤ 16) × (0 < size → at + size ≤ length marks.now) }
    ensures { Flagged marks.now at size result }
{
    let mut flags: u64 = 0;
    for k in (0..size).rev() {
        let mark = marks[at + k];
        flags = 2 * flags + (flag(mark, 1) + 65536 * flag(mark, 2));
    }
    flags
}

// Reads row i, whose first mark is given, mark by mark.
fn read_each(
    marks: &[u8],
    n: Numbering,
    i: usize,
    at: usize,
    allowed: &mut [u16; 16],
    forbidden: &mut [u16; 16],
)
    requires { Room n marks.now × (i < n.count) × (at ≡ row_in n i) }
    ensures { RowRead marks.now n i allowed.old forbidden.old allowed.new forbidden.new }
{
    let own = width(n);
    let gap = missing(n, i);
    let flags = flags_of(marks, at, own);
    allowed[i] = with_gap(flags, own, gap);
    forbidden[i] = with_gap(flags / 65536, own, gap);
}

// Reads row i, whose first mark is given, sixteen marks at once.
fn read_at_once(
    marks: &[u8],
    n: Numbering,
    i: usize,
    at: usize,
    allowed: &mut [u16; 16],
    forbidden: &mut [u16; 16],
)
    requires { Readable n marks.now × (i < n.count) × (at ≡ row_in n i) × (at + 16 ≤ length marks.now) }
    ensures { RowRead marks.now n i allowed.old forbidden.old allowed.new forbidden.new }
{
    let own = width(n);
    let gap = missing(n, i);
    let first = eight(marks, at);
    let second = eight(marks, at + 8);
    allowed[i] = with_gap(sixteen(first, second), own, gap);
    forbidden[i] = with_gap(sixteen(first / 2, second / 2), own, gap);
}

// Reads row i: at once where sixteen marks are left.
fn read_row(
    marks: &[u8],
    n: Numbering,
    i: usize,
    allowed: &mut [u16; 16],
    forbidden: &mut [u16; 16],
)
    requires { Readable n marks.now × (i < n.count) }
    ensures { RowRead marks.now n i allowed.old forbidden.old allowed.new forbidden.new }
{
    let at = row_at(n, i);
    if at + 16 <= marks.len() {
        read_at_once(marks, n, i, at, allowed, forbidden);
    } else {
        read_each(marks, n, i, at, allowed, forbidden);
    }
}

// Reads the marks of a choice by its numbering.
pub fn read_rows(marks: &[u8], n: Numbering, allowed: &mut [u16; 16], forbidden: &mut [u16; 16])
    requires { Readable n marks.now }
    ensures { Read marks.now n allowed.new forbidden.new }
{
    for i in 0..n.count {
        read_row(marks, n, i, allowed, forbidden);
    }
}

// Which of some marks from a place on are 1: at once where sixteen marks are left.
fn ones(marks: &[u8], at: usize, size: usize) -> u64
    requires { (at < 8192) × (size ≤ 16) × (0 < size → at + size ≤ length marks.now) × ((p : ℕ) → p < length marks.now → Legal marks.now p) }
    ensures { (k : ℕ) → k < size → Tells (AskedAt marks.now at 1 k) (bit result k) }
{
    if at + 16 <= marks.len() {
        return sixteen(eight(marks, at), eight(marks, at + 8));
    }
    flags_of(marks, at, size)
}

// What is allowed at a choice, by its numbering.
pub fn allowed_rows(marks: &[u8], n: Numbering) -> [u16; 16]
    requires { Readable n marks.now }
    ensures { Square n.count (StepIn marks.now n) result }
{
    let mut rows = [0u16; 16];
    for i in 0..n.count {
        let own = width(n);
        let bits = ones(marks, row_at(n, i), own);
        rows[i] = with_gap(bits, own, missing(n, i));
    }
    rows
}

// Is bit j of the row 1?
pub fn has(row: u16, j: usize) -> bool
    requires { j < 16 }
    ensures { result ≡ bit row j }
{
    (row >> j) & 1 == 1
}

// Do the rows lead from i to j?
pub fn leads(rows: &[u16; 16], i: usize, j: usize) -> bool
    requires { (i < 16) × (j < 16) }
    ensures { result ≡ marked rows.now i j }
{
    has(rows[i], j)
}

// The lowest of count positions that two words share, or behind the last one if there is none.
pub fn lowest_shared(a: u16, b: u16, count: usize) -> usize
    ensures { LowestShared a b count result }
{
    let shared = a & b;
    if shared == 0 {
        return count;
    }
    count.min(shared.trailing_zeros() as usize)
}

// The lowest of count positions to which both lead from i, or behind the last one if there is none.
pub fn first_shared(rows: &[u16; 16], others: &[u16; 16], i: usize, count: usize) -> usize
    requires { i < 16 }
    ensures { LowestShared (get_or rows.now i 0) (get_or others.now i 0) count result }
{
    lowest_shared(rows[i], others[i], count)
}

// The word of one position.
pub fn only(j: usize) -> u16
    requires { j < 16 }
    ensures { Positions 16 (λ p. p ≡ j) result }
{
    1 << j
}

// 1 if two words share a position, else 0.
fn shared(a: u16, b: u16) -> u16
    ensures { Flags (Shared a b) result }
{
    u16::from(a & b != 0)
}

// Those of the first n positions from which the rows lead to one of the word.
pub fn leading_into(rows: &[u16; 16], n: usize, word: u16) -> u16
    requires { (n ≤ 16) × Inside n word }
    ensures { Positions n (Into n rows.now word) result }
{
    let mut from: u16 = 0;
    for p in (0..n).rev() {
        from = 2 * from + shared(rows[p], word);
    }
    from
}

// Makes the bit at k of row i the other one.
pub fn toggle(rows: &mut [u16; 16], i: usize, k: usize)
    requires { (i < 16) × (k < 16) }
    ensures { Toggled i k rows.old rows.new }
{
    rows[i] ^= 1 << k;
}

// A row, joined with another if it leads to k.
fn joined(old: u16, row: u16, k: usize) -> u16
    requires { k < 16 }
    ensures { RowJoined k row old result }
{
    if has(old, k) { old | row } else { old }
}

// Joins each row that leads to k with row k.
pub(crate) fn join(rows: &mut [u16; 16], k: usize)
    requires { k < 16 }
    ensures { Joined k rows.old rows.new }
{
    let row = rows[k];
    for other in rows.iter_mut() {
        *other = joined(*other, row, k);
    }
}
