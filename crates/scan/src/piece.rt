// Readers of the smallest pieces: white space, words, marks and names.
ghost use Rattle.std.specs.Prelude.{◌≤◌, length};
ghost use Rattle.grammar.specs.Bytes.{is_mark, is_name_start, Of};
ghost use Rattle.scan.specs.Steps.Readers.{BlanksRead, SpaceRead, MaybeRead, NameRead, WordRead};

use crate::Stop;
use crate::bytes::{Class, is, is_of};

// White space from a place on, none or more. Not inlined: within its callers the loop takes more than twice as long.
#[inline(never)]
pub fn blanks(s: &[u8], at: usize) -> usize
    requires { at ≤ length s.now }
    ensures { BlanksRead s.now at result }
{
    for i in at..s.len() {
        if !is_of(s, i, Class::Space) {
            return i;
        }
    }
    s.len()
}

// White space, one byte or more.
pub(crate) fn space(s: &[u8], at: usize) -> Result<usize, Stop>
    requires { at ≤ length s.now }
    ensures { SpaceRead s.now at result }
{
    if is_of(s, at, Class::Space) {
        return Ok(blanks(s, at + 1));
    }
    Err(Stop::Bad(at))
}

// '?', '*' or '+', or none.
pub fn mark(s: &[u8], at: usize) -> usize
    ensures { MaybeRead is_mark s.now at result }
{
    if is_of(s, at, Class::Mark) {
        return at + 1;
    }
    at
}

// The bytes of a word, or the first place at which they do not stand.
pub(crate) fn word(s: &[u8], at: usize, w: &[u8]) -> Result<usize, Stop>
    requires { at ≤ length s.now }
    ensures { WordRead s.now w.now at result }
{
    let mut i = at;
    for b in w {
        if !is(s, i, *b) {
            return Err(Stop::Bad(i));
        }
        i += 1;
    }
    Ok(i)
}

// A name whose first byte is one of a name.
fn name_rest(s: &[u8], at: usize) -> Result<usize, Stop>
    requires { Of is_name_start s.now at }
    ensures { NameRead s.now at result }
{
    for i in at + 1..s.len() {
        if !is_of(s, i, Class::Name) {
            return Ok(i);
        }
        if i - at == 32 {
            return Err(Stop::Over(i));
        }
    }
    Ok(s.len())
}

// A name.
pub fn name(s: &[u8], at: usize) -> Result<usize, Stop>
    ensures { NameRead s.now at result }
{
    if is_of(s, at, Class::Start) {
        return name_rest(s, at);
    }
    Err(Stop::Bad(at))
}
