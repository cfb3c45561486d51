// The names of one declaration: its own, and those that its content uses. Contracts cite specs/Steps.
ghost use Rattle.std.specs.Prelude.{◌≤◌, length};
ghost use Rattle.names.specs.Steps.Uses.{UsesRead};
ghost use Rattle.names.specs.Steps.Wrong.{UnknownRead, WrongRead};

use crate::list::NameList;
use crate::walk::{Declared, name_end};
use scan::bytes::{Class, is, is_of};
use scan::piece::blanks;

// The place from which on every name in the content at a place is one that it uses: behind EMPTY, ANY and #PCDATA.
fn first_use(s: &[u8], body: usize) -> usize
    requires { body ≤ length s.now }
    ensures { UsesRead s.now body result }
{
    if is(s, body, b'(') {
        let b = blanks(s, body + 1);
        if is(s, b, b'#') {
            return name_end(s, b + 1);
        }
        return body;
    }
    name_end(s, body)
}

// The first name up to '>' that is never declared.
fn first_unknown(s: &[u8], names: &NameList, at: usize) -> Option<usize>
    ensures { UnknownRead s.now names.now.entries names.now.count at result }
{
    let mut i = at;
    // A while: a name is passed as a whole.
    while i < s.len() {
        if is(s, i, b'>') {
            return None;
        }
        if is_of(s, i, Class::Start) {
            if names.number(s, i) < names.count {
                i = name_end(s, i);
            } else {
                return Some(i);
            }
        } else {
            i += 1;
        }
    }
    None
}

// The first name of declaration m that is declared before, or used and never declared.
pub(crate) fn first_wrong(s: &[u8], names: &NameList, m: usize, declared: Declared) -> Option<usize>
    requires { declared.body ≤ length s.now }
    ensures { WrongRead s.now names.now.entries names.now.count m declared.name declared.body result }
{
    if names.number(s, declared.name) < m {
        return Some(declared.name);
    }
    first_unknown(s, names, first_use(s, declared.body))
}
