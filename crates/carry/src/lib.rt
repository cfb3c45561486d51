// Keeping the marks when the schema moves. Contracts cite specs/Answers and specs/Carries; specs/Steps for the parts.
// Arrays have a fixed size: nothing here allocates.
#![tactic(auto)]

ghost use Rattle.std.specs.Prelude.{◌≡◌, ℕ};
ghost use Rattle.table.specs.declared.check.Check.{Check};
ghost use Rattle.table.specs.declared.refusal.Refusal.TheVariants.{Table, NewTable};
ghost use Rattle.table.specs.Refusals.{number_in, no_place_in};
ghost use Rattle.verdict.specs.Results.{done_answer};
ghost use Rattle.carry.specs.Answers.{CarryAnswer};
ghost use Rattle.carry.specs.Steps.Using.{MoveAnswer};

mod carrying;
mod kinds;
mod numbers;
mod places;
mod replaced;
mod scatter;

use carrying::{Revision, carry_all};
use numbers::check_numbers;
use policy::marks::check_policy;
use table::words::{types, word_at};
use table::{Refusal, check_table};

// A table's refusal as that of the new table.
fn of_new(refusal: Refusal) -> Refusal
    ensures { (check : Check) (place : ℕ) → refusal ≡ Table check place → result ≡ NewTable check place }
{
    match refusal {
        Refusal::Table(check, place) => Refusal::NewTable(check, place),
        other => other,
    }
}

// Checks all that is read: the old table and its marks, the new table, and the list of new numbers, in this order.
fn check_move(revision: Revision) -> Result<(), Refusal>
    ensures { MoveAnswer revision.entry.words.now revision.entry.marks.now revision.entry.new_words.now revision.entry.numbers.now (number_in result) (no_place_in result) }
{
    let mut order = [0u8; 256];
    check_policy(revision.words, revision.marks, &mut order)?;
    match check_table(revision.new_words) {
        Ok(_) => check_numbers(
            revision.numbers,
            types(revision.words),
            types(revision.new_words),
        ),
        Err(refusal) => Err(of_new(refusal)),
    }
}

// Carries the marks of an old table over to a new one, by the new numbers of the old types: refuses what is wrong with either table, the marks or the list,
// and too short a result, or writes the new marks and, for each old privilege, whether its mark is lost. The rest of both results is kept.
pub fn carry_marks(
    old_words: &[u16],
    old_marks: &[u8],
    new_words: &[u16],
    new_numbers: &[u16],
    out: &mut [u8],
    lost: &mut [u8],
) -> Result<(), Refusal>
    ensures { CarryAnswer old_words.now old_marks.now new_words.now new_numbers.now out.old lost.old (done_answer result) out.new lost.new }
{
    let revision = Revision {
        words: old_words,
        marks: old_marks,
        new_words,
        numbers: new_numbers,
    };
    check_move(revision)?;
    let v = word_at(new_words, 7);
    let w = word_at(old_words, 7);
    if out.len() < v || lost.len() < w {
        return Err(Refusal::ResultLength);
    }
    carry_all(revision, &mut out[0..v], &mut lost[0..w]);
    Ok(())
}
