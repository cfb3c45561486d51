// Checking a run of marks, and a table with its marks; and copying a run. Contracts cite specs/Marks and specs/Steps/Checking.
ghost use Rattle.std.specs.Prelude.{◌≡◌, ℕ, ◌≤◌, ◌<◌, length, get_or};
ghost use Rattle.table.specs.Steps.Found.{Lowest, Tells};
ghost use Rattle.table.specs.Refusals.{number_in, place_in};
ghost use Rattle.policy.specs.Marks.{Legal};
ghost use Rattle.policy.specs.Misfits.{refusal_of, misfit_number, misfit_place};
ghost use Rattle.policy.specs.Steps.Checking.{MarksAnswer, OrderedPolicy};

use table::{Refusal, check_ordered};

// The mark of privilege p; past the end stands 0.
pub fn mark_at(marks: &[u8], p: usize) -> u8
    ensures { result ≡ get_or marks.now p 0 }
{
    if p < marks.len() { marks[p] } else { 0 }
}

// Is no mark above the given one? All marks are looked at, many at a time: the loop is not left early.
pub fn none_above(marks: &[u8], most: u8) -> bool
    ensures { Tells ((p : ℕ) → p < length marks.now → get_or marks.now p 0 ≤ most) result }
{
    let mut none = true;
    for mark in marks {
        none &= *mark <= most;
    }
    none
}

// The lowest privilege whose mark is above 2.
#[tactic(auto, using(table::proofs::Lowest::passed_hit, table::proofs::Lowest::passed_more))]
fn lowest_above(marks: &[u8]) -> Option<usize>
    ensures { Lowest (Legal marks.now) (length marks.now) result }
{
    if none_above(marks, 2) {
        return None;
    }
    for (p, &mark) in marks.iter().enumerate() {
        if 2 < mark {
            return Some(p);
        }
    }
    None
}

// What is wrong with marks: how many there are, or the lowest privilege whose mark is above 2.
#[derive(Clone, Copy, Debug, PartialEq, Eq)]
pub enum Misfit {
    Length,
    Mark(usize),
}

impl From<Misfit> for Refusal {
    ghost from_gives = { λ misfit refusal. refusal ≡ refusal_of misfit };

    fn from(misfit: Misfit) -> Refusal {
        match misfit {
            Misfit::Length => Refusal::MarksLength,
            Misfit::Mark(p) => Refusal::Mark(p),
        }
    }
}

// Checks that there are v marks, each 0, 1 or 2.
pub fn check_marks(marks: &[u8], v: usize) -> Result<(), Misfit>
    ensures { (first : ℕ) → MarksAnswer first v marks.now (misfit_number first result) (misfit_place result) }
{
    if marks.len() != v {
        return Err(Misfit::Length);
    }
    match lowest_above(marks) {
        Some(place) => Err(Misfit::Mark(place)),
        None => Ok(()),
    }
}

// Checks a table, and then marks for it: V, or the first of 1 to 11 and 19 with its place. With V the order holds the types, each after its children.
pub fn check_policy(words: &[u16], marks: &[u8], order: &mut [u8; 256]) -> Result<usize, Refusal>
    ensures { OrderedPolicy words.now marks.now order.new (number_in result) (place_in result) }
{
    let v = check_ordered(words, order)?;
    check_marks(marks, v)?;
    Ok(v)
}

// Copies the marks, all of them.
pub fn copy(marks: &[u8], m: &mut [u8])
    requires { length m.old ≡ length marks.now }
    ensures { m.new ≡ marks.now }
{
    // A loop: `copy_from_slice` would have the archive for C need memmove.
    for p in 0..marks.len() {
        m[p] = marks[p];
    }
}
