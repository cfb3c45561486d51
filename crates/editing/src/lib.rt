// One mark edited without a rescan: the store keeps for each type what is forbidden below it, and a call writes one mark, the entries of the types that
// its privilege is below, and nothing else. Contracts cite specs/Answer and specs/Entries; specs/Steps for the parts.
// Arrays have a fixed size: nothing here allocates.
#![tactic(auto)]

ghost use Rattle.table.specs.Refusals.{number_in, no_place_in};
ghost use Rattle.verdict.specs.Results.{judged_answer};
ghost use Rattle.editing.specs.Answer.{EditAnswer};
ghost use Rattle.editing.specs.Steps.Checking.{OrderedEdit};

mod above;
mod entries;
mod growing;

use entries::renew_entries;
use policy::marks::check_policy;
use table::Refusal;
use table::words::types;
use verdict::Breach;
use verdict::breaches::breach_by;

// Checks a table, marks and an edit of one, for which there are n words of entries: the first of 1 to 12 and 19 with its place, or nothing is wrong. Then the
// order holds the types, each after its children.
fn check_edit(
    words: &[u16],
    marks: &[u8],
    n: usize,
    privilege: usize,
    mark: u8,
    order: &mut [u8; 256],
) -> Result<(), Refusal>
    ensures { OrderedEdit words.now marks.now n privilege mark order.new (number_in result) (no_place_in result) }
{
    let v = check_policy(words, marks, order)?;
    if v <= privilege {
        return Err(Refusal::NoPrivilege);
    }
    if 2 < mark {
        return Err(Refusal::Mark(privilege));
    }
    if n < 2 * types(words) {
        return Err(Refusal::ResultLength);
    }
    Ok(())
}

// Gives one privilege its mark and renews the entries of the types that it is below, whatever they hold: refuses with 1 to 12 or 19, or answers the first
// breach by the entries, none where there is none.
pub fn edit_mark(
    words: &[u16],
    marks: &mut [u8],
    kept: &mut [u16],
    privilege: usize,
    mark: u8,
) -> Result<Breach, Refusal>
    ensures { EditAnswer words.now marks.old kept.old privilege mark (judged_answer result) marks.new kept.new }
{
    let mut order = [0u8; 256];
    check_edit(words, marks, kept.len(), privilege, mark, &mut order)?;
    marks[privilege] = mark;
    renew_entries(words, marks, &order, privilege, kept);
    Ok(breach_by(words, marks, &order, kept))
}
