// Judging a mend that somebody proposes. Contracts cite specs/Answers and specs/Proposals.
// Arrays have a fixed size: nothing here allocates.
#![tactic(auto)]

ghost use Rattle.std.specs.Prelude.{◌≡◌};
ghost use Rattle.verdict.specs.Results.{accepted_answer};
ghost use Rattle.proposing.specs.Answers.{ProposeAnswer};
ghost use Rattle.proposing.specs.Misfits.{proposed_refusal};

mod compare;

use policy::marks::{Misfit, check_marks, check_policy};
use table::Refusal;
use verdict::breaches::first_breach;
use verdict::{Condition, Rejection};

// The refusal of proposed marks: 13 or 14.
fn proposed_refusal(misfit: Misfit) -> Refusal
    ensures { result ≡ proposed_refusal misfit }
{
    match misfit {
        Misfit::Length => Refusal::ProposedLength,
        Misfit::Mark(p) => Refusal::ProposedMark(p),
    }
}

// Judges a proposed mend: refuses with 1 to 11, 13 to 16 or 19, or accepts it with the number of changed marks.
pub fn judge_mend(words: &[u16], marks: &[u8], proposed: &[u8]) -> Result<usize, Rejection>
    ensures { ProposeAnswer words.now marks.now proposed.now (accepted_answer result) }
{
    let mut order = [0u8; 256];
    let v = check_policy(words, marks, &mut order)?;
    if let Err(misfit) = check_marks(proposed, v) {
        return Err(Rejection::Refused(proposed_refusal(misfit)));
    }
    if let Some(place) = compare::lowest_change(marks, proposed, v) {
        return Err(Rejection::Refused(Refusal::Change(place)));
    }
    let breach = first_breach(words, proposed, &order);
    let Condition::None = breach.condition else {
        return Err(Rejection::Broken(breach));
    };
    Ok(compare::count_changes(marks, proposed, v))
}
