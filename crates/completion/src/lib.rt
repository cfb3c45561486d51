// The least completion of a policy. Contracts cite specs/Answers and specs/Completions.
// Arrays have a fixed size: nothing here allocates.
#![tactic(auto)]

ghost use Rattle.verdict.specs.Results.{completed_answer};
ghost use Rattle.completion.specs.Answers.{CompleteAnswer};

mod open;
pub mod pass;
mod write;

use pass::complete_copy;
use policy::marks::check_policy;
use table::Refusal;
use table::privilege::first_privileges;
use verdict::breaches::first_breach;
use verdict::{Condition, Rejection};

// Completes a policy with the least permission: refuses with 1 to 12, 16 or 19, or writes V decided marks into the result, whose rest it keeps.
pub fn complete(words: &[u16], marks: &[u8], out: &mut [u8]) -> Result<(), Rejection>
    ensures { CompleteAnswer words.now marks.now out.old (completed_answer result) out.new }
{
    let mut order = [0u8; 256];
    let v = check_policy(words, marks, &mut order)?;
    if out.len() < v {
        return Err(Rejection::Refused(Refusal::ResultLength));
    }
    let breach = first_breach(words, marks, &order);
    let Condition::None = breach.condition else {
        return Err(Rejection::Broken(breach));
    };
    let mut firsts = [0u16; 256];
    first_privileges(words, &mut firsts);
    complete_copy(words, marks, &order, &firsts, &mut out[0..v]);
    Ok(())
}
