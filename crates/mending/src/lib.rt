// Mending a policy by the stated rule. Contracts cite specs/Answers and specs/Mends.
// Arrays have a fixed size: nothing here allocates.
#![tactic(auto)]

ghost use Rattle.verdict.specs.Results.{counted_answer};
ghost use Rattle.mending.specs.Answers.{MendAnswer};

pub mod mend_types;
mod taking;

use policy::marks::check_policy;
use table::Refusal;

// Mends a policy: refuses with 1 to 12 or 19, or writes what the rule gives into the result, whose rest it keeps, and counts the marks taken.
pub fn mend(words: &[u16], marks: &[u8], out: &mut [u8]) -> Result<usize, Refusal>
    ensures { MendAnswer words.now marks.now out.old (counted_answer result) out.new }
{
    let mut order = [0u8; 256];
    let v = check_policy(words, marks, &mut order)?;
    if out.len() < v {
        return Err(Refusal::ResultLength);
    }
    Ok(mend_types::mend_copy(words, marks, &order, &mut out[0..v]))
}
