// The least completions of all roles of a show at once: one table, and the marks of the roles one after another. Contracts cite specs/Answers.
// Arrays have a fixed size: nothing here allocates.
#![tactic(auto)]

ghost use Rattle.std.specs.Prelude.{◌≡◌, ◌*◌, ◌≤◌, length};
ghost use Rattle.table.specs.Check.{Accepted};
ghost use Rattle.table.specs.Privilege.{privileges};
ghost use Rattle.table.specs.Steps.Found.{Tells};
ghost use Rattle.table.specs.Steps.Order.{BottomUp};
ghost use Rattle.verdict.specs.Results.{done_answer};
ghost use Rattle.completion.specs.Steps.Passes.{HasFirsts};
ghost use Rattle.roles.specs.Answers.{RoleAnswer, RolesCompleted, RolesAnswer};

use completion::pass::complete_copy;
use policy::marks::check_marks;
use table::privilege::first_privileges;
use table::{Refusal, check_ordered};
use verdict::Condition;
use verdict::breaches::first_breach;

// Is a length that of so many stretches of v? Asked by division, since the product can be more than a number holds.
fn is_product(length: usize, stretches: usize, v: usize) -> bool
    ensures { Tells (length ≡ stretches * v) result }
{
    if v == 0 {
        return length == 0;
    }
    length / v == stretches && stretches * v == length
}

// Completes one role's marks into its stretch, and tells its number: 11 or 16, with the stretch as it was, or 0.
fn complete_role(
    words: &[u16],
    marks: &[u8],
    order: &[u8; 256],
    firsts: &[u16; 256],
    out: &mut [u8],
) -> u16
    requires { Accepted words.now × BottomUp words.now order.now × HasFirsts words.now firsts.now × (length marks.now ≡ privileges words.now) × (length out.old ≡ privileges words.now) }
    ensures { RoleAnswer words.now marks.now out.old result out.new }
{
    if let Err(misfit) = check_marks(marks, out.len()) {
        return u16::from(Refusal::from(misfit).number());
    }
    let breach = first_breach(words, marks, order);
    let Condition::None = breach.condition else {
        return 16;
    };
    complete_copy(words, marks, order, firsts, out);
    0
}

// Completes each role's marks into its own stretch, and writes its number.
fn complete_each(
    words: &[u16],
    marks: &[u8],
    v: usize,
    order: &[u8; 256],
    numbers: &mut [u16],
    out: &mut [u8],
)
    requires { Accepted words.now × BottomUp words.now order.now × (v ≡ privileges words.now) × (length marks.now ≡ length numbers.old * v) × (length marks.now ≤ length out.old) }
    ensures { RolesCompleted words.now marks.now numbers.old out.old numbers.new out.new }
{
    let mut firsts = [0u16; 256];
    first_privileges(words, &mut firsts);
    for (r, number) in numbers.iter_mut().enumerate() {
        *number = complete_role(
            words,
            &marks[r * v..(r + 1) * v],
            order,
            &firsts,
            &mut out[r * v..(r + 1) * v],
        );
    }
}

// Completes the policies of as many roles as there are numbers, over one table: refuses with 1 to 10, 12 or 19, or writes each role's number, 0, 11 or
// 16, and the completed marks of each with 0 into its own stretch of the result. All else it keeps.
pub fn complete_roles(
    words: &[u16],
    marks: &[u8],
    numbers: &mut [u16],
    out: &mut [u8],
) -> Result<(), Refusal>
    ensures { RolesAnswer words.now marks.now numbers.old out.old (done_answer result) numbers.new out.new }
{
    let mut order = [0u8; 256];
    let v = check_ordered(words, &mut order)?;
    if !is_product(marks.len(), numbers.len(), v) {
        return Err(Refusal::MarksLength);
    }
    if out.len() < marks.len() {
        return Err(Refusal::ResultLength);
    }
    complete_each(words, marks, v, &order, numbers, out);
    Ok(())
}
