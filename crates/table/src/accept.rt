// Accepting a table in one pass over its types and one along their order. For each type a stamp, 65,535 while it is nobody's child, else its latest
// parent's number, and a count of the child entries that name it. Contracts cite specs/Steps/Accept. Only a yes promises something.
ghost use Rattle.std.specs.Prelude.{◌≡◌, true, ◌≤◌, ◌<◌, length, replicate};
ghost use Rattle.table.specs.Steps.Found.{Tells};
ghost use Rattle.table.specs.Check.{Laid, RightCount};
ghost use Rattle.table.specs.Steps.Accept.{Countable, Stamped, Totals, TypesPass};
ghost use Rattle.table.specs.Steps.Accepting.{Accepting};

use super::check::{is_headed, is_laid, right_count};
use super::order::is_ordered;
use super::privilege::{gap_of, privileges_of};
use super::rule::rule_of;
use super::words::{entries, record_word, types, word_at};

// Is there such a kind, and is the number of children right for it?
fn is_right(kind: usize, count: usize) -> bool
    ensures { Tells ((kind ≤ 4) × RightCount kind count) result }
{
    kind <= 4 && right_count(kind, count)
}

// Stamps and counts the children of type t. Yes: each is below e, and none stands twice.
fn stamp_children(
    kids: &[u16],
    e: usize,
    t: usize,
    stamps: &mut [u16; 256],
    counts: &mut [u16; 256],
) -> bool
    requires { (t < e) × (e ≤ 256) × (length kids.now ≤ 16) × Countable t stamps.old counts.old }
    ensures { result ≡ true → Stamped e t kids.now counts.old stamps.new counts.new }
{
    let stamp = t as u16;
    for kid in kids {
        let child = usize::from(*kid);
        if e <= child || stamps[child] == stamp {
            return false;
        }
        stamps[child] = stamp;
        counts[child] += 1;
    }
    true
}

// Are there as many children and privileges as words 5 and 7 say, and not too many?
fn totals_fit(words: &[u16], children: usize, privileges: usize) -> bool
    ensures { Tells (Totals words.now children privileges) result }
{
    children == entries(words) && privileges <= 4096 && word_at(words, 7) == privileges
}

// Stamps and counts every type's children. Yes: checks 3 to 7 and 9 pass, and the counts are right. Of the childless kinds, empty, 0, has no
// privilege, and text, 1, has one.
fn types_pass(words: &[u16], stamps: &mut [u16; 256], counts: &mut [u16; 256]) -> bool
    requires { Laid words.now × (counts.old ≡ replicate 256 0) }
    ensures { result ≡ true → TypesPass words.now counts.new }
{
    let gap = gap_of(words);
    let e = types(words);
    let list = 8 + 3 * e;
    let mut index = 0;
    let mut sum = 0;
    for t in 0..e {
        let kind = record_word(words, t, 0);
        let count = record_word(words, t, 1);
        if record_word(words, t, 2) != index {
            return false;
        }
        if count == 0 {
            if 1 < kind {
                return false;
            }
            sum += kind;
            continue;
        }
        if !is_right(kind, count) {
            return false;
        }
        let next = index + count;
        if words.len() < list + next {
            return false;
        }
        if !stamp_children(&words[list + index..list + next], e, t, stamps, counts) {
            return false;
        }
        sum += privileges_of(rule_of(kind, index, count), gap);
        index = next;
    }
    totals_fit(words, index, sum)
}

// Does the table pass every check? Yes is right, and gives the order of its types; where it says no, the checks are searched by rank.
pub fn is_accepted(words: &[u16], order: &mut [u8; 256]) -> bool
    ensures { Accepting words.now order.new result }
{
    if !is_headed(words) || !is_laid(words) {
        return false;
    }
    let mut stamps = [65535u16; 256];
    let mut counts = [0u16; 256];
    if !types_pass(words, &mut stamps, &mut counts) {
        return false;
    }
    is_ordered(words, &mut counts, order)
}
