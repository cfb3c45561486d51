// How many privileges a table has, and the number of each. Contracts cite specs/Privilege, and specs/Steps/Numbering for the parts.
ghost use Rattle.std.specs.Prelude.{◌≡◌, ◌≤◌, ◌<◌, length};
ghost use Rattle.table.specs.Words.{types};
ghost use Rattle.table.specs.Steps.Reading.{Within, HasRecord};
ghost use Rattle.table.specs.Rule.{count_in};
ghost use Rattle.table.specs.Privilege.{gap_of, privileges_of, privileges_at, first_privilege, privileges};
ghost use Rattle.table.specs.Steps.Numbering.{others_of, choices_of, Firsts, NumberedAs, Small, Positions, insert_in, delete_in, exchange_in, replace_in, width_in, row_in, missing_in, ExchangeableIn};
ghost use Rattle.table.specs.Check.{Laid, Accepted};
ghost use Rattle.table.specs.Steps.Found.{Tells};

use super::rule::{Rule, rule_at};
use super::words::{record_word, types};

// How many kinds there are by which a child cannot be replaced: in format 2 none, else one, its own.
#[tactic(auto, unfolding(crate::specs::Privilege::gap_of))]
pub fn gap_of(words: &[u16]) -> usize
    requires { 0 < length words.now }
    ensures { Within 2 (gap_of words.now) result }
{
    if words[0] == 2 { 0 } else { 1 }
}

// How many privileges of a rule are no replacements at a choice, by the number that a star has.
fn others_of(rule: Rule, star: usize) -> usize
    ensures { result ≡ others_of star rule }
{
    match rule {
        Rule::Empty | Rule::Sequence { .. } | Rule::Choice { .. } => 0,
        Rule::Text => 1,
        Rule::Star { .. } => star,
    }
}

// How many children of a rule can be replaced.
fn choices_of(rule: Rule) -> usize
    ensures { result ≡ choices_of rule }
{
    match rule {
        Rule::Choice { count, .. } => count,
        Rule::Empty | Rule::Text | Rule::Sequence { .. } | Rule::Star { .. } => 0,
    }
}

// How many privileges a rule has. In either format both parts are looked up and not branched to: tables mix their kinds.
pub(crate) fn privileges_of(rule: Rule, gap: usize) -> usize
    requires { (count_in rule < 65536) × (gap < 2) }
    ensures { Within 4294967296 (privileges_of gap rule) result }
{
    let n = choices_of(rule);
    if gap == 0 {
        return others_of(rule, 3) + n * n;
    }
    others_of(rule, 2) + (n * n - n)
}

// How many privileges type x has, by the gap, for who asks it of many types.
#[tactic(auto, using(crate::proofs::Privileges::gap_few), unfolding(crate::specs::Privilege::privileges_at))]
pub fn privileges_in(words: &[u16], x: usize, gap: usize) -> usize
    requires { HasRecord words.now x × (gap ≡ gap_of words.now) }
    ensures { Within 4294967296 (privileges_at words.now x) result }
{
    privileges_of(rule_at(words, x), gap)
}

// How many privileges type x has.
pub fn privileges_at(words: &[u16], x: usize) -> usize
    requires { HasRecord words.now x }
    ensures { Within 4294967296 (privileges_at words.now x) result }
{
    privileges_in(words, x, gap_of(words))
}

// The first privilege of type x: how many the types before it have.
#[tactic(auto, using(crate::proofs::Sum::sum_more), unfolding(crate::specs::Privilege::first_privilege, crate::specs::Sum::sum_below))]
pub fn first_privilege(words: &[u16], x: usize) -> usize
    requires { Laid words.now × (x ≤ types words.now) }
    ensures { Within 281474976710656 (first_privilege words.now x) result }
{
    let mut sum = 0;
    for y in 0..x {
        sum += privileges_at(words, y);
    }
    sum
}

// V, the number of privileges.
#[tactic(auto, unfolding(crate::specs::Privilege::privileges))]
pub(crate) fn privileges(words: &[u16]) -> usize
    requires { Laid words.now }
    ensures { Within 281474976710656 (privileges words.now) result }
{
    first_privilege(words, types(words))
}

// Writes the first privilege of each type of a table, and leaves what stands behind the types.
pub fn first_privileges(words: &[u16], firsts: &mut [u16; 256])
    requires { Accepted words.now }
    ensures { Firsts words.now firsts.old firsts.new }
{
    let e = types(words);
    let mut first = 0;
    for x in 0..e {
        firsts[x] = first as u16;
        first += privileges_at(words, x);
    }
}

// How the edits at a type are numbered.
#[derive(Clone, Copy)]
pub struct Numbering {
    pub first: usize,
    pub count: usize,
    pub gap: usize,
}

// The numbering at type x of a table, whose first privilege is given.
pub fn numbers_at(words: &[u16], x: usize, first: usize) -> Numbering
    requires { Accepted words.now × (x < types words.now) × (first ≡ first_privilege words.now x) }
    ensures { NumberedAs words.now x result }
{
    Numbering {
        first,
        count: record_word(words, x, 1),
        gap: gap_of(words),
    }
}

// The privilege to insert at a star.
pub fn insertion(n: Numbering) -> usize
    ensures { result ≡ insert_in n }
{
    n.first
}

// The privilege to delete at a star.
pub fn deletion(n: Numbering) -> usize
    requires { n.first ≤ 4096 }
    ensures { result ≡ delete_in n }
{
    n.first + 1
}

// The privilege to exchange at a star that has one.
pub fn exchange(n: Numbering) -> usize
    requires { n.first ≤ 4096 }
    ensures { result ≡ exchange_in n }
{
    n.first + 2
}

// Is there a privilege to exchange at a star?
pub fn is_exchangeable(n: Numbering) -> bool
    ensures { Tells (ExchangeableIn n) result }
{
    n.gap == 0
}

// How many privileges there are to replace one child of a choice.
pub fn width(n: Numbering) -> usize
    requires { Small n × (0 < n.count) }
    ensures { result ≡ width_in n }
{
    n.count - n.gap
}

// The first of the privileges to replace the child at i.
pub fn row_at(n: Numbering, i: usize) -> usize
    requires { Positions n i i }
    ensures { Within 8192 (row_in n i) result }
{
    n.first + i * width(n)
}

// The position by which the child at i cannot be replaced: its own, or one that no choice has.
pub fn missing(n: Numbering, i: usize) -> usize
    requires { Positions n i i }
    ensures { Within 32 (missing_in n i) result }
{
    i + 16 * (1 - n.gap)
}

// The privilege to replace the child at i by the kind at j.
pub fn replacement(n: Numbering, i: usize, j: usize) -> usize
    requires { Positions n i j }
    ensures { result ≡ replace_in n i j }
{
    let row = row_at(n, i);
    if i < j { row + (j - n.gap) } else { row + j }
}
