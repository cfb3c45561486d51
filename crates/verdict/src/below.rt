// What is forbidden below a type: the lowest privilege, and how many there are. Contracts cite specs/Below, and specs/Steps/Tallies for the parts.
ghost use Rattle.std.specs.Prelude.{◌≡◌, ℕ, ◌==◌, ◌≤◌, ◌<◌, length, position};
ghost use Rattle.table.specs.HowMany.{HowMany, Tallied};
ghost use Rattle.table.specs.Privilege.{privileges};
ghost use Rattle.table.specs.Words.{types};
ghost use Rattle.policy.specs.Marks.{Forbidden, Policy};
ghost use Rattle.verdict.specs.Below.{ForbiddenTally};
ghost use Rattle.verdict.specs.Steps.Spoils.{Range};
ghost use Rattle.verdict.specs.Steps.Tallies.{LowestFrom, Added, ForbiddenAmong};

use table::below::mark_below;
use table::privilege::{gap_of, privileges_in};
use table::words::types;

// The lowest of some privileges, and how many they are; 0 and 0 for none, as a store keeps them.
#[derive(Clone, Copy)]
pub struct Tally {
    pub lowest: usize,
    pub count: usize,
}

// How many privileges from one number up to another are forbidden. Counted in 16 bits, eight at a time.
fn count_forbidden(marks: &[u8], from: usize, until: usize) -> usize
    requires { (from ≤ until) × (until ≤ length marks.now) × (until ≤ 4096) }
    ensures { HowMany (Range marks.now from until) until result }
{
    let mut count = 0u16;
    for mark in &marks[from..until] {
        if *mark == 2 {
            count += 1;
        }
    }
    usize::from(count)
}

// The place of the first forbidden mark, or none.
fn first_forbidden(marks: &[u8]) -> Option<usize>
    ensures { result ≡ position (λ m. m == 2) marks.now }
{
    marks.iter().position(|mark| *mark == 2)
}

// The lowest forbidden privilege from a number on, where there is one.
fn lowest_from(marks: &[u8], from: usize) -> usize
    requires { (p : ℕ) × (from ≤ p) × Forbidden marks.now p }
    ensures { LowestFrom marks.now from result }
{
    from + first_forbidden(&marks[from..]).unwrap()
}

// Adds what is forbidden in a stretch of privileges, if its flag is 1, to what was counted before it.
pub fn add_stretch(marks: &[u8], from: usize, until: usize, flag: u8, before: Tally) -> Tally
    requires { (from ≤ until) × (until ≤ length marks.now) × (until ≤ 4096) × (before.count ≤ 4096) }
    ensures { Added marks.now from until flag before result }
{
    if flag != 1 {
        return before;
    }
    let more = count_forbidden(marks, from, until);
    if more == 0 {
        return before;
    }
    let count = before.count;
    if count == 0 {
        return Tally {
            lowest: lowest_from(marks, from),
            count: more,
        };
    }
    Tally {
        lowest: before.lowest,
        count: count + more,
    }
}

// What is forbidden in the types that have the flag 1.
fn tally_flagged(words: &[u16], marks: &[u8], flags: &[u8; 256]) -> Tally
    requires { Policy words.now marks.now }
    ensures { Tallied (ForbiddenAmong words.now marks.now flags.now) (privileges words.now) result.lowest result.count }
{
    let gap = gap_of(words);
    let e = types(words);
    let mut tally = Tally {
        lowest: 0,
        count: 0,
    };
    let mut first = 0;
    for x in 0..e {
        let next = first + privileges_in(words, x, gap);
        tally = add_stretch(marks, first, next, flags[x], tally);
        first = next;
    }
    tally
}

// What is forbidden below type y: the lowest privilege and how many there are, each counted once, or 0 and 0.
pub fn forbidden_below(words: &[u16], marks: &[u8], y: usize) -> Tally
    requires { Policy words.now marks.now × (y < types words.now) }
    ensures { ForbiddenTally words.now marks.now y result }
{
    let from = [y as u16; 1];
    let mut flags = [0u8; 256];
    mark_below(words, &from, &mut flags);
    tally_flagged(words, marks, &flags)
}
