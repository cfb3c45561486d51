// What the mending rule takes next at a choice, and at a star. Contracts cite specs/Steps/Taking.
ghost use Rattle.std.specs.Prelude.{ℕ, ◌<◌};
ghost use Rattle.table.specs.Steps.Found.{Tells};
ghost use Rattle.table.specs.Rule.{IsChoice, IsStar, count_of};
ghost use Rattle.table.specs.Steps.Numbering.{Small};
ghost use Rattle.policy.specs.Marks.{Allowed};
ghost use Rattle.policy.specs.Reached.{Reached};
ghost use Rattle.policy.specs.Steps.Squares.{Square, StepIn, Read};
ghost use Rattle.mending.specs.Steps.Taking.{Visited, LeadsIn, LowestIn, StarTaken, NextTaken};

use policy::renew::both_allowed;
use policy::rows::{first_shared, leads};
use table::privilege::{Numbering, deletion, exchange};
use verdict::Condition;
use verdict::breaches::{breach_in, star_breach};

// Does k lead from i to j?
fn is_lead(
    marks: &[u8],
    n: Numbering,
    square: &[u16; 16],
    allowed: &[u16; 16],
    i: usize,
    j: usize,
    k: usize,
) -> bool
    requires { Small n × (i < n.count) × (j < 16) × (k < n.count) × Square n.count (StepIn marks.now n) allowed.now }
    ensures { Tells (LeadsIn marks.now n square.now i j k) result }
{
    leads(allowed, i, k) && (k == j || leads(square, k, j))
}

// The lowest k that leads from i to j: the search begins at the lowest by which i may be replaced.
fn lowest_lead(
    marks: &[u8],
    n: Numbering,
    square: &[u16; 16],
    allowed: &[u16; 16],
    i: usize,
    j: usize,
) -> usize
    requires { Small n × (j < 16) × ((k : ℕ) × LeadsIn marks.now n square.now i j k) × Square n.count (StepIn marks.now n) allowed.now }
    ensures { LowestIn marks.now n square.now i j result }
{
    let mut k = first_shared(allowed, allowed, i, n.count);
    // A while: it ends since there is a k that leads.
    while !is_lead(marks, n, square, allowed, i, j, k) {
        k += 1;
    }
    k
}

// What the rule takes next at the choice x, whose squares tell what is reached, allowed and forbidden: the replacement of a position by another, or in
// format 2 by itself.
pub fn next_taken(
    words: &[u16],
    m: &[u8],
    flags: &[u8; 256],
    x: usize,
    kids: &[u16],
    n: Numbering,
    square: &[u16; 16],
    allowed: &[u16; 16],
    forbidden: &[u16; 16],
) -> Option<(usize, usize)>
    requires { Visited words.now m.now flags.now x kids.now n × IsChoice words.now x × Square (count_of words.now x) (Reached words.now (Allowed m.now) x) square.now × Read m.now n allowed.now forbidden.now }
    ensures { NextTaken words.now m.now x n result }
{
    let Some(spot) = breach_in(words, m, flags, x, kids, n, square, forbidden) else {
        return None;
    };
    let i = spot.i;
    // At a cycle j is i. Told apart, each gets a loop of its own from the compiler.
    if let Condition::Cycle = spot.condition {
        return Some((i, lowest_lead(m, n, square, allowed, i, i)));
    }
    Some((i, lowest_lead(m, n, square, allowed, i, spot.j)))
}

// What the rule takes next at the star x: the delete if insert and delete are both allowed, otherwise the exchange.
pub fn star_taken(
    words: &[u16],
    m: &[u8],
    flags: &[u8; 256],
    x: usize,
    kids: &[u16],
    n: Numbering,
) -> Option<usize>
    requires { Visited words.now m.now flags.now x kids.now n × IsStar words.now x }
    ensures { StarTaken words.now m.now x result }
{
    let Some(_) = star_breach(words, m, flags, x, kids, n) else {
        return None;
    };
    if both_allowed(m, n) {
        return Some(deletion(n));
    }
    Some(exchange(n))
}
