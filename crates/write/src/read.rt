// Reading the words of a code, whatever they are: past the end stands 0. A name is below 65536, optional begins at 393216, positive at 458752.
// Contracts cite specs/Steps/Reading.
ghost use Rattle.std.specs.Prelude.{◌+◌, ◌<◌, get_or, drop};
ghost use Rattle.table.specs.Steps.Reading.{Within};
ghost use Rattle.write.specs.Steps.Reading.{operands_in, own_in, extra_in, star_in, rule_kind_in, need_after, free_after, inner_of};
ghost use Rattle.write.specs.Steps.Reading.{child_in, Numbered, Skipped};

// A word, widened.
pub fn wide(x: u32) -> usize
    ensures { Within 4294967296 x result }
{
    x as usize
}

// The word at c.
pub fn word_at(code: &[u32], c: usize) -> usize
    ensures { Within 4294967296 (get_or code.now c 0) result }
{
    if c < code.len() { wide(code[c]) } else { 0 }
}

// How many operands follow a word.
#[tactic(auto, unfolding(crate::specs::Steps::Reading::operands_in))]
pub fn operands(w: usize) -> usize
    ensures { Within 65536 (operands_in w) result }
{
    if w < 65536 { 0 } else { w % 65536 }
}

// How many types are its own.
#[tactic(auto, unfolding(crate::specs::Steps::Reading::own_in))]
pub fn own(w: usize) -> usize
    ensures { Within 2 (own_in w) result }
{
    if w < 65536 { 0 } else { 1 }
}

// How many types it makes inside.
#[tactic(auto, unfolding(crate::specs::Steps::Reading::extra_in))]
pub fn extra(w: usize) -> usize
    ensures { Within 2 (extra_in w) result }
{
    if w < 393216 { 0 } else { 1 }
}

// How many children the type that it makes inside has.
#[tactic(auto, unfolding(crate::specs::Steps::Reading::star_in))]
pub fn star(w: usize) -> usize
    ensures { Within 2 (star_in w) result }
{
    if w < 458752 { 0 } else { 1 }
}

// The kind of its own type's rule.
#[tactic(auto, unfolding(crate::specs::Steps::Reading::rule_kind_in))]
pub fn rule_kind(w: usize) -> usize
    ensures { Within 5 (rule_kind_in w) result }
{
    if w < 65536 {
        return 0;
    }
    if w < 393216 {
        return w / 65536 - 1;
    }
    3 - star(w)
}

// How many operands are to come behind a word.
pub fn need_after(need: usize, w: usize) -> usize
    requires { need < 4294967296 }
    ensures { Within (need + 65536) (need_after need w) result }
{
    if need == 0 {
        operands(w)
    } else {
        need - 1 + operands(w)
    }
}

// The first number for the types made inside a word.
pub fn inner(need: usize, x: usize, w: usize) -> usize
    requires { x < 4294967296 }
    ensures { Within (x + 2) (inner_of need x w) result }
{
    if need == 0 { x } else { x + own(w) }
}

// The first number that is free behind a word.
pub fn free_after(need: usize, x: usize, w: usize) -> usize
    requires { x < 4294967296 }
    ensures { Within (x + 3) (free_after need x w) result }
{
    inner(need, x, w) + extra(w)
}

// A place in a code, and the first number that is free there.
#[derive(Clone, Copy)]
pub struct Place {
    pub at: usize,
    pub free: usize,
}

// The child that the operand at a place is.
pub fn child(code: &[u32], place: Place) -> usize
    requires { Numbered code.now place.at place.free }
    ensures { Within 65536 (child_in place.free (drop place.at code.now)) result }
{
    let w = word_at(code, place.at);
    if w < 65536 { w } else { place.free }
}

// The place behind it.
pub fn skip(code: &[u32], place: Place) -> Place
    requires { Numbered code.now place.at place.free }
    ensures { Skipped code.now place.at place.free result.at result.free }
{
    let mut need = 1;
    let mut free = place.free;
    for at in place.at..code.len() {
        if need == 0 {
            return Place { at, free };
        }
        let w = wide(code[at]);
        free = free_after(need, free, w);
        need = need_after(need, w);
    }
    Place {
        at: code.len(),
        free,
    }
}
