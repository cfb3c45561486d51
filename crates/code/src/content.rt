// Putting contents into code.
ghost use Rattle.std.specs.Prelude.{◌≤◌, length};
ghost use Rattle.code.specs.Steps.Putting.{TextRead, ContentPut};

use crate::particle::put_particle;
use crate::{Code, more};
use names::list::NameList;
use scan::bytes::is;
use scan::piece::blanks;

// The words of an empty, a text and a sequence of one: their kinds, 1, 2 and 3, and the number of their operands.
const EMPTY: u32 = 65536;

const TEXT: u32 = 131072;

const LONE: u32 = 196609;

// A content that begins with '(' and '#' is text.
fn is_text(s: &[u8], at: usize) -> bool
    ensures { TextRead s.now at result }
{
    is(s, at, b'(') && is(s, blanks(s, at + 1), b'#')
}

// Puts the words of a content.
pub(crate) fn put_content(s: &[u8], at: usize, names: &NameList, code: &mut Code)
    requires { at ≤ length s.now }
    ensures { ContentPut s.now names.now.entries names.now.count at code.old.words code.old.size code.new.words code.new.size }
{
    if is(s, at, b'E') {
        code.push(EMPTY);
        return;
    }
    if is(s, at, b'A') {
        code.push(EMPTY);
        return;
    }
    if is_text(s, at) {
        code.push(TEXT);
        return;
    }
    let start = code.size;
    put_particle(s, at, 16, names, code);
    if code.size == more(start) {
        code.insert(start, LONE);
    }
}
