// Walking through the declarations of a text that is of the grammar, and its names. Contracts cite specs/Steps.
// Arrays have a fixed size: nothing here allocates.
#![tactic(auto)]

ghost use Rattle.names.specs.Steps.Names.{Collected, MisnamedRead};

pub mod list;
mod misnamed;
pub mod walk;

use list::NameList;
use misnamed::first_wrong;
use walk::{Declared, declaration_from, place_behind};

// Lists the first 256 declared names, and counts all of them.
pub fn collect(s: &[u8], names: &mut NameList)
    ensures { Collected s.now names.new.entries names.new.count }
{
    names.count = 0;
    let mut at = 0;
    // A while: declarations have any length.
    while let Some(Declared { name, body }) = declaration_from(s, at) {
        names.enter(s, name);
        names.count += 1;
        at = place_behind(s, at, body);
    }
}

// The first name that is declared before, or used and never declared.
pub fn first_misnamed(s: &[u8], names: &NameList) -> Option<usize>
    ensures { MisnamedRead s.now names.now.entries names.now.count result }
{
    let mut at = 0;
    let mut m = 0;
    // A while: declarations have any length.
    while let Some(declared) = declaration_from(s, at) {
        if let Some(k) = first_wrong(s, names, m, declared) {
            return Some(k);
        }
        at = place_behind(s, at, declared.body);
        m += 1;
    }
    None
}
