// Which of the three conditions a policy breaks somewhere, each asked by itself: one pass over the types, by the flags that tell below which types
// something is forbidden. Contracts cite specs/Breaks, and specs/Steps/Asking for the parts.
// Arrays have a fixed size: nothing here allocates.
#![tactic(auto)]

ghost use Rattle.std.specs.Prelude.{◌≡◌, true, ◌≢◌, ℕ, ◌<◌, length, get_or};
ghost use Rattle.table.specs.Words.{types};
ghost use Rattle.table.specs.Rule.{IsChoice, IsStar, count_of};
ghost use Rattle.table.specs.Privilege.{first_privilege};
ghost use Rattle.table.specs.Steps.Numbering.{NumberedAs};
ghost use Rattle.table.specs.Steps.Found.{Tells};
ghost use Rattle.table.specs.Steps.Order.{BottomUp};
ghost use Rattle.policy.specs.Marks.{Allowed, Policy};
ghost use Rattle.policy.specs.Reached.{Reached};
ghost use Rattle.policy.specs.Steps.Squares.{Square, ForbiddenIn};
ghost use Rattle.verdict.specs.Below.{ForbiddenBelow};
ghost use Rattle.verdict.specs.Steps.Spoils.{Flagged, Agree};
ghost use Rattle.verdict.specs.Steps.Visits.{Visited};
ghost use Rattle.verdict.specs.declared.Condition.TheVariants.{Cycle};
ghost use Rattle.broken.specs.Steps.Asking.{BreaksAt, Asked, Added, BrokenIn};

use policy::reach::reached_by;
use policy::rows::{allowed_rows, read_rows};
use table::privilege::{Numbering, gap_of, numbers_at, privileges_in};
use table::rule::{Rule, children, rule_at};
use table::words::types;
use verdict::Condition;
use verdict::breaches::{breach_in, cycle_breach, star_breach};
use verdict::spoilt::flag_spoilt;

// The conditions that are broken.
#[derive(Clone, Copy)]
pub struct Broken {
    pub insert_delete: bool,
    pub chain: bool,
    pub cycle: bool,
}

// Adds what is broken at the star x. Where condition 1 is known to be broken there is nothing to ask.
fn add_star(
    words: &[u16],
    marks: &[u8],
    flags: &[u8; 256],
    x: usize,
    kids: &[u16],
    n: Numbering,
    known: Broken,
) -> Broken
    requires { Visited words.now marks.now x kids.now × NumberedAs words.now x n × IsStar words.now x }
    ensures { Added (BreaksAt words.now marks.now (Flagged flags.now) (λ y. y ≡ x)) known result }
{
    if known.insert_delete {
        return known;
    }
    match star_breach(words, marks, flags, x, kids, n) {
        None => known,
        Some(_) => Broken {
            insert_delete: true,
            ..known
        },
    }
}

// Is condition 3 broken at the choice x, whose square tells what is reached?
fn has_cycle(
    words: &[u16],
    marks: &[u8],
    flags: &[u8; 256],
    x: usize,
    kids: &[u16],
    square: &[u16; 16],
) -> bool
    requires { Visited words.now marks.now x kids.now × IsChoice words.now x × Square (count_of words.now x) (Reached words.now (Allowed marks.now) x) square.now }
    ensures { Tells (BreaksAt words.now marks.now (Flagged flags.now) (λ y. y ≡ x) Cycle) result }
{
    cycle_breach(words, marks, flags, x, kids, square).is_some()
}

// Is below no child something forbidden?
fn none_spoilt(flags: &[u8; 256], kids: &[u16]) -> bool
    requires { (i : ℕ) → i < length kids.now → get_or kids.now i 0 < 256 }
    ensures { Tells ((i : ℕ) → i < length kids.now → get_or flags.now (get_or kids.now i 0) 0 ≢ 1) result }
{
    kids.iter().all(|kid| flags[usize::from(*kid)] != 1)
}

// Adds what is broken at the choice x, where a chain is known: a cycle is asked by itself, if none is known and a child is spoilt.
fn add_cycle(
    words: &[u16],
    marks: &[u8],
    flags: &[u8; 256],
    x: usize,
    kids: &[u16],
    n: Numbering,
    known: Broken,
) -> Broken
    requires { Visited words.now marks.now x kids.now × NumberedAs words.now x n × IsChoice words.now x × (known.chain ≡ true) }
    ensures { Added (BreaksAt words.now marks.now (Flagged flags.now) (λ y. y ≡ x)) known result }
{
    if known.cycle {
        return known;
    }
    if none_spoilt(flags, kids) {
        return known;
    }
    let square = reached_by(words, marks, x, n, allowed_rows(marks, n));
    let cycle = has_cycle(words, marks, flags, x, kids, &square);
    Broken { cycle, ..known }
}

// Adds what is broken at the choice x, whose squares tell what is reached and what is forbidden: the first breach there tells of a chain, and of a cycle
// where there is no chain.
fn add_reached(
    words: &[u16],
    marks: &[u8],
    flags: &[u8; 256],
    x: usize,
    kids: &[u16],
    n: Numbering,
    square: &[u16; 16],
    forbidden: &[u16; 16],
    known: Broken,
) -> Broken
    requires { Visited words.now marks.now x kids.now × NumberedAs words.now x n × IsChoice words.now x × Square (count_of words.now x) (Reached words.now (Allowed marks.now) x) square.now × Square n.count (ForbiddenIn marks.now n) forbidden.now }
    ensures { Added (BreaksAt words.now marks.now (Flagged flags.now) (λ y. y ≡ x)) known result }
{
    let Some(spot) = breach_in(words, marks, flags, x, kids, n, square, forbidden) else {
        return known;
    };
    match spot.condition {
        Condition::None | Condition::InsertDelete => known,
        Condition::Chain => {
            let cycle = has_cycle(words, marks, flags, x, kids, square);
            Broken {
                chain: true,
                cycle: known.cycle | cycle,
                ..known
            }
        }
        Condition::Cycle => Broken {
            cycle: true,
            ..known
        },
    }
}

// Adds what is broken at the choice x.
fn add_choice(
    words: &[u16],
    marks: &[u8],
    flags: &[u8; 256],
    x: usize,
    kids: &[u16],
    n: Numbering,
    known: Broken,
) -> Broken
    requires { Visited words.now marks.now x kids.now × NumberedAs words.now x n × IsChoice words.now x }
    ensures { Added (BreaksAt words.now marks.now (Flagged flags.now) (λ y. y ≡ x)) known result }
{
    if known.chain {
        return add_cycle(words, marks, flags, x, kids, n, known);
    }
    let mut allowed = [0u16; 16];
    let mut forbidden = [0u16; 16];
    read_rows(marks, n, &mut allowed, &mut forbidden);
    let square = reached_by(words, marks, x, n, allowed);
    add_reached(words, marks, flags, x, kids, n, &square, &forbidden, known)
}

// Adds what is broken at type x, whose first privilege is given.
fn add_type(
    words: &[u16],
    marks: &[u8],
    flags: &[u8; 256],
    x: usize,
    first: usize,
    known: Broken,
) -> Broken
    requires { Policy words.now marks.now × (x < types words.now) × (first ≡ first_privilege words.now x) }
    ensures { Added (BreaksAt words.now marks.now (Flagged flags.now) (λ y. y ≡ x)) known result }
{
    match rule_at(words, x) {
        Rule::Empty | Rule::Text | Rule::Sequence { .. } => known,
        Rule::Choice { .. } => {
            add_choice(
                words,
                marks,
                flags,
                x,
                children(words, x),
                numbers_at(words, x, first),
                known,
            )
        }
        Rule::Star { .. } => {
            add_star(
                words,
                marks,
                flags,
                x,
                children(words, x),
                numbers_at(words, x, first),
                known,
            )
        }
    }
}

// Adds what is broken at type x, by flags that are right: where nothing is forbidden below it, nothing is.
fn add_spoilt(
    words: &[u16],
    marks: &[u8],
    flags: &[u8; 256],
    x: usize,
    first: usize,
    known: Broken,
) -> Broken
    requires { Policy words.now marks.now × (x < types words.now) × (first ≡ first_privilege words.now x) × Agree words.now (Flagged flags.now) (ForbiddenBelow words.now marks.now) }
    ensures { Added (BreaksAt words.now marks.now (Flagged flags.now) (λ y. y ≡ x)) known result }
{
    if flags[x] != 1 {
        return known;
    }
    add_type(words, marks, flags, x, first, known)
}

// The conditions that are broken, by flags that are right. Where each one is, no further type is asked.
fn broken_by(words: &[u16], marks: &[u8], flags: &[u8; 256]) -> Broken
    requires { Policy words.now marks.now × Agree words.now (Flagged flags.now) (ForbiddenBelow words.now marks.now) }
    ensures { Asked (BreaksAt words.now marks.now (Flagged flags.now) (λ y. y < types words.now)) result }
{
    let gap = gap_of(words);
    let e = types(words);
    let mut broken = Broken {
        insert_delete: false,
        chain: false,
        cycle: false,
    };
    let mut first = 0;
    for x in 0..e {
        if broken.insert_delete & broken.chain & broken.cycle {
            return broken;
        }
        broken = add_spoilt(words, marks, flags, x, first, broken);
        first += privileges_in(words, x, gap);
    }
    broken
}

// The conditions that a policy breaks somewhere. The order holds each type after its children.
pub fn broken_in(words: &[u16], marks: &[u8], order: &[u8; 256]) -> Broken
    requires { Policy words.now marks.now × BottomUp words.now order.now }
    ensures { BrokenIn words.now marks.now result }
{
    let mut flags = [0u8; 256];
    flag_spoilt(words, marks, order, &mut flags);
    broken_by(words, marks, &flags)
}
