// The first breach of a policy, searched for type by type, by the flags that tell below which types something is forbidden: they may be any. What
// breaks it there and its chain are asked once it is found. Contracts cite specs/Breaches, and specs/Steps/Visits and specs/Steps/Spoils for the parts.
ghost use Rattle.std.specs.Prelude.{◌≡◌, true, ◌<◌, length, get_or};
ghost use Rattle.table.specs.Words.{types};
ghost use Rattle.table.specs.Rule.{IsChoice, IsStar, count_of};
ghost use Rattle.table.specs.Privilege.{first_privilege};
ghost use Rattle.table.specs.Steps.Numbering.{NumberedAs, Small};
ghost use Rattle.table.specs.Steps.Found.{Tells};
ghost use Rattle.table.specs.Steps.Order.{BottomUp};
ghost use Rattle.policy.specs.Marks.{Allowed, Policy};
ghost use Rattle.policy.specs.Reached.{Reached};
ghost use Rattle.policy.specs.Renewed.{Renewed, Barred};
ghost use Rattle.policy.specs.Steps.Squares.{marked, Square, ForbiddenIn};
ghost use Rattle.verdict.specs.Breaches.{no_breach, BreachBy, ChainAt, Verdict};
ghost use Rattle.verdict.specs.Steps.Spoils.{Flagged};
ghost use Rattle.verdict.specs.Steps.Breakers.{Breakable, BreakerAt, BreachWith};
ghost use Rattle.verdict.specs.Steps.Reading.{Lent, FlagsBy, AskedOf, ChildIn, TallyBy, FirstBy, BrokenBy, VerdictBy};
ghost use Rattle.verdict.specs.Steps.Visits.{star_spot, Visited, Broken, FirstPair, Searched, BreachAt, CycleAt};

use super::below::{Tally, forbidden_below};
use super::kept::{entry_at, flag_kept};
use super::spoilt::flag_spoilt;
use super::{Breach, Condition, Spot};
use chain::{Chain, chain_between, no_chain};
use policy::reach::reached_by;
use policy::renew::{Renewal, renewal_of};
use policy::rows::{first_shared, leads, read_rows};
use table::privilege::{
    Numbering, exchange, first_privilege, gap_of, numbers_at, privileges_in, replacement,
};
use table::rule::{Rule, child_at, children, rule_at};
use table::words::{types, word_at};

// What breaks a spot: a privilege of its type by itself, or what is forbidden below a child.
#[derive(Clone, Copy)]
pub enum Breaker {
    Own(usize),
    Below(usize),
}

// No breach: all 0.
pub fn no_breach() -> Breach
    ensures { result ≡ no_breach }
{
    let chain = [0u8; 17];
    Breach {
        condition: Condition::None,
        element: 0,
        i: 0,
        j: 0,
        privilege: 0,
        forbidden: 0,
        length: 0,
        chain,
    }
}

// Does the square lead from i to j, by which i must not be replaced?
fn is_broken(
    marks: &[u8],
    n: Numbering,
    square: &[u16; 16],
    forbidden: &[u16; 16],
    i: usize,
    j: usize,
) -> bool
    requires { Small n × (i < n.count) × (j < n.count) × Square n.count (ForbiddenIn marks.now n) forbidden.now }
    ensures { Tells (Broken marks.now n square.now i j) result }
{
    leads(square, i, j) && leads(forbidden, i, j)
}

// The first such pair: the lowest i, then the lowest j.
fn first_broken(
    marks: &[u8],
    n: Numbering,
    square: &[u16; 16],
    forbidden: &[u16; 16],
) -> Option<(usize, usize)>
    requires { Small n × Square n.count (ForbiddenIn marks.now n) forbidden.now }
    ensures { FirstPair (Broken marks.now n square.now) n.count result }
{
    let count = n.count;
    let mut found = None;
    'search: for i in 0..count {
        let first = first_shared(square, forbidden, i, count);
        for j in first..count {
            if is_broken(marks, n, square, forbidden, i, j) {
                found = Some((i, j));
                break 'search;
            }
        }
    }
    found
}

// Where a breach of condition 1 at the star x is.
fn star_spot(x: usize) -> Spot
    ensures { result ≡ star_spot x }
{
    Spot {
        condition: Condition::InsertDelete,
        element: x,
        i: 0,
        j: 0,
    }
}

// The first breach at the star x, whose child can be renewed, and whose exchange is not the one that breaks it.
fn renewed_breach(
    words: &[u16],
    marks: &[u8],
    flags: &[u8; 256],
    x: usize,
    kids: &[u16],
) -> Option<Spot>
    requires { Visited words.now marks.now x kids.now × IsStar words.now x × (Barred words.now marks.now x → ⊥) × Renewed words.now (Allowed marks.now) x }
    ensures { Searched (BreachAt words.now marks.now (Flagged flags.now) x) result }
{
    if flags[word_at(kids, 0)] == 1 {
        Some(star_spot(x))
    } else {
        None
    }
}

// The first breach at the star x.
pub fn star_breach(
    words: &[u16],
    marks: &[u8],
    flags: &[u8; 256],
    x: usize,
    kids: &[u16],
    n: Numbering,
) -> Option<Spot>
    requires { Visited words.now marks.now x kids.now × NumberedAs words.now x n × IsStar words.now x }
    ensures { Searched (BreachAt words.now marks.now (Flagged flags.now) x) result }
{
    match renewal_of(marks, n) {
        Renewal::Shut => None,
        Renewal::Barred => Some(star_spot(x)),
        Renewal::Open => renewed_breach(words, marks, flags, x, kids),
    }
}

// Does the square lead from i to i, and is something forbidden below the child at i?
fn is_spoilt(flags: &[u8; 256], kids: &[u16], square: &[u16; 16], i: usize) -> bool
    requires { (i < 16) × (i < length kids.now) × (get_or kids.now i 0 < 256) }
    ensures { Tells ((marked square.now i i ≡ true) × Flagged flags.now (get_or kids.now i 0) 0) result }
{
    leads(square, i, i) && flags[word_at(kids, i)] == 1
}

// The first breach of condition 3 at the choice x, whose square tells what is reached.
pub fn cycle_breach(
    words: &[u16],
    marks: &[u8],
    flags: &[u8; 256],
    x: usize,
    kids: &[u16],
    square: &[u16; 16],
) -> Option<Spot>
    requires { Visited words.now marks.now x kids.now × IsChoice words.now x × Square (count_of words.now x) (Reached words.now (Allowed marks.now) x) square.now }
    ensures { Searched (CycleAt words.now marks.now (Flagged flags.now) x) result }
{
    for i in 0..kids.len() {
        if is_spoilt(flags, kids, square, i) {
            return Some(Spot {
                condition: Condition::Cycle,
                element: x,
                i,
                j: i,
            });
        }
    }
    None
}

// The first breach at the choice x, whose squares tell what is reached and what is forbidden: a chain before a cycle.
pub fn breach_in(
    words: &[u16],
    marks: &[u8],
    flags: &[u8; 256],
    x: usize,
    kids: &[u16],
    n: Numbering,
    square: &[u16; 16],
    forbidden: &[u16; 16],
) -> Option<Spot>
    requires { Visited words.now marks.now x kids.now × NumberedAs words.now x n × IsChoice words.now x × Square (count_of words.now x) (Reached words.now (Allowed marks.now) x) square.now × Square n.count (ForbiddenIn marks.now n) forbidden.now }
    ensures { Searched (BreachAt words.now marks.now (Flagged flags.now) x) result }
{
    if let Some((i, j)) = first_broken(marks, n, square, forbidden) {
        return Some(Spot {
            condition: Condition::Chain,
            element: x,
            i,
            j,
        });
    }
    cycle_breach(words, marks, flags, x, kids, square)
}

// The first breach at the choice x.
fn choice_breach(
    words: &[u16],
    marks: &[u8],
    flags: &[u8; 256],
    x: usize,
    kids: &[u16],
    n: Numbering,
) -> Option<Spot>
    requires { Visited words.now marks.now x kids.now × NumberedAs words.now x n × IsChoice words.now x }
    ensures { Searched (BreachAt words.now marks.now (Flagged flags.now) x) result }
{
    let mut allowed = [0u16; 16];
    let mut forbidden = [0u16; 16];
    read_rows(marks, n, &mut allowed, &mut forbidden);
    let square = reached_by(words, marks, x, n, allowed);
    breach_in(words, marks, flags, x, kids, n, &square, &forbidden)
}

// The first breach at type x, whose first privilege is given.
fn breach_at(words: &[u16], marks: &[u8], flags: &[u8; 256], x: usize, first: usize) -> Option<Spot>
    requires { Policy words.now marks.now × (x < types words.now) × (first ≡ first_privilege words.now x) }
    ensures { Searched (BreachAt words.now marks.now (Flagged flags.now) x) result }
{
    match rule_at(words, x) {
        Rule::Empty | Rule::Text | Rule::Sequence { .. } => None,
        Rule::Choice { .. } => {
            choice_breach(
                words,
                marks,
                flags,
                x,
                children(words, x),
                numbers_at(words, x, first),
            )
        }
        Rule::Star { .. } => {
            star_breach(
                words,
                marks,
                flags,
                x,
                children(words, x),
                numbers_at(words, x, first),
            )
        }
    }
}

// Where the first breach of a policy by the flags is, if there is one.
fn first_spot(words: &[u16], marks: &[u8], flags: &[u8; 256]) -> Option<Spot>
    requires { Policy words.now marks.now }
    ensures { Searched (BreachBy words.now marks.now (Flagged flags.now)) result }
{
    let gap = gap_of(words);
    let e = types(words);
    let mut first = 0;
    for x in 0..e {
        let spot = breach_at(words, marks, flags, x, first);
        if spot.is_some() {
            return spot;
        }
        first += privileges_in(words, x, gap);
    }
    None
}

// What breaks the star x: its exchange, or else what is forbidden below its child.
fn star_breaker(words: &[u16], marks: &[u8], x: usize, n: Numbering) -> Breaker
    requires { Policy words.now marks.now × NumberedAs words.now x n × IsStar words.now x }
    ensures { BreakerAt words.now marks.now (star_spot x) result }
{
    if let Renewal::Barred = renewal_of(marks, n) {
        return Breaker::Own(exchange(n));
    }
    Breaker::Below(child_at(words, x, 0))
}

// What breaks a spot, by the numbering of its type.
fn breaker_at(words: &[u16], marks: &[u8], spot: Spot, n: Numbering) -> Breaker
    requires { Policy words.now marks.now × NumberedAs words.now spot.element n × Breakable words.now marks.now spot }
    ensures { BreakerAt words.now marks.now spot result }
{
    let x = spot.element;
    match spot.condition {
        Condition::None => Breaker::Own(0),
        Condition::InsertDelete => star_breaker(words, marks, x, n),
        Condition::Chain => Breaker::Own(replacement(n, spot.i, spot.j)),
        Condition::Cycle => Breaker::Below(child_at(words, x, spot.i)),
    }
}

// What is forbidden below type y, or what is kept of it where entries are lent.
fn asked_of(words: &[u16], marks: &[u8], kept: &[u16], y: usize) -> Tally
    requires { Policy words.now marks.now × (y < types words.now) }
    ensures { AskedOf words.now marks.now kept.now y result }
{
    if kept.is_empty() {
        return forbidden_below(words, marks, y);
    }
    entry_at(kept, y)
}

// The lowest privilege that breaks a spot and how many there are.
fn tally_by(words: &[u16], marks: &[u8], kept: &[u16], breaker: Breaker) -> Tally
    requires { Policy words.now marks.now × ChildIn words.now breaker }
    ensures { TallyBy words.now marks.now kept.now breaker result }
{
    match breaker {
        Breaker::Own(p) => Tally {
            lowest: p,
            count: 1,
        },
        Breaker::Below(y) => asked_of(words, marks, kept, y),
    }
}

// The chain of a broken spot, by the numbering of its type: conditions 2 and 3 have one.
fn chain_at(words: &[u16], marks: &[u8], spot: Spot, n: Numbering) -> Chain
    requires { Policy words.now marks.now × NumberedAs words.now spot.element n × Breakable words.now marks.now spot }
    ensures { ChainAt words.now marks.now spot result }
{
    let x = spot.element;
    let i = spot.i;
    match spot.condition {
        Condition::None | Condition::InsertDelete => no_chain(),
        Condition::Chain => chain_between(words, marks, x, n, i, spot.j),
        Condition::Cycle => chain_between(words, marks, x, n, i, i),
    }
}

// The breach at a spot, by the numbering of its type and by what was told of what breaks it.
fn breach_with(words: &[u16], marks: &[u8], spot: Spot, n: Numbering, told: Tally) -> Breach
    requires { Policy words.now marks.now × NumberedAs words.now spot.element n × Breakable words.now marks.now spot }
    ensures { BreachWith words.now marks.now spot told result }
{
    let steps = chain_at(words, marks, spot, n);
    let positions = steps.at;
    Breach {
        condition: spot.condition,
        element: spot.element,
        i: spot.i,
        j: spot.j,
        privilege: told.lowest,
        forbidden: told.count,
        length: steps.length,
        chain: positions,
    }
}

// The breach at the first spot: what breaks it there, and its chain.
fn breach_of(words: &[u16], marks: &[u8], kept: &[u16], spot: Spot) -> Breach
    requires { Policy words.now marks.now × Breakable words.now marks.now spot × FirstBy words.now marks.now kept.now spot }
    ensures { BrokenBy words.now marks.now kept.now result }
{
    let x = spot.element;
    let n = numbers_at(words, x, first_privilege(words, x));
    let tally = tally_by(words, marks, kept, breaker_at(words, marks, spot, n));
    breach_with(words, marks, spot, n, tally)
}

// Flags each type below which something is forbidden, or of which something is kept where entries are lent.
fn flag_by(words: &[u16], marks: &[u8], order: &[u8; 256], kept: &[u16], flags: &mut [u8; 256])
    requires { Policy words.now marks.now × BottomUp words.now order.now × Lent words.now kept.now }
    ensures { FlagsBy words.now marks.now kept.now flags.old flags.new }
{
    if kept.is_empty() {
        flag_spoilt(words, marks, order, flags);
        return;
    }
    flag_kept(words, kept, flags);
}

// The first breach of a policy, or none: by what is worked out from the marks where no entries are lent, and else by the entries. The order holds each type
// after its children. One function for both, so that the search is put together once.
pub fn breach_by(words: &[u16], marks: &[u8], order: &[u8; 256], kept: &[u16]) -> Breach
    requires { Policy words.now marks.now × BottomUp words.now order.now × Lent words.now kept.now }
    ensures { VerdictBy words.now marks.now kept.now result }
{
    let mut flags = [0u8; 256];
    flag_by(words, marks, order, kept, &mut flags);
    let Some(spot) = first_spot(words, marks, &flags) else {
        return no_breach();
    };
    breach_of(words, marks, kept, spot)
}

// The first breach of a policy, or none where it is clean. The order holds each type after its children.
pub fn first_breach(words: &[u16], marks: &[u8], order: &[u8; 256]) -> Breach
    requires { Policy words.now marks.now × BottomUp words.now order.now }
    ensures { Verdict words.now marks.now result }
{
    breach_by(words, marks, order, &words[0..0])
}
