// The schema table: reading its words, and checking it with refusals 1 to 9 and 19.
// Contracts cite specs/Check for what a table must hold, and the other files of specs/ for what its words mean.
// Arrays have a fixed size: nothing here allocates.
#![tactic(auto)]

ghost use Rattle.table.specs.Check.{TableAnswer};
ghost use Rattle.table.specs.Refusals.{number_in, place_in};
ghost use Rattle.table.specs.Steps.Accepting.{OrderedAnswer};

mod accept;
pub mod below;
mod check;
mod order;
pub mod privilege;
mod refusal;
pub mod rule;
pub mod words;

use check::CHECKS;
pub use check::Check;
use order::bottom_up;
pub use refusal::Refusal;

// Checks a run of words as check_table does. Where it is a table, the order then holds its types, each after its children.
pub fn check_ordered(words: &[u16], order: &mut [u8; 256]) -> Result<usize, Refusal>
    ensures { OrderedAnswer words.now order.new (number_in result) (place_in result) }
{
    if accept::is_accepted(words, order) {
        return Ok(words::word_at(words, 7));
    }
    for check in CHECKS {
        if let Some(place) = check::lowest_failing(words, check) {
            return Err(Refusal::Table(check, place));
        }
    }
    bottom_up(words, order);
    Ok(words::word_at(words, 7))
}

// Checks a run of words, whatever it holds: V where it is a table, else the first check that fails and the lowest place at which it does.
pub fn check_table(words: &[u16]) -> Result<usize, Refusal>
    ensures { TableAnswer words.now (number_in result) (place_in result) }
{
    let mut order = [0u8; 256];
    check_ordered(words, &mut order)
}
