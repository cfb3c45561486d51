// What is forbidden below a type, grown from what is forbidden below one of its children: only what comes new is walked and counted. Contracts cite
// specs/Steps/Growing.
ghost use Rattle.std.specs.Prelude.{◌≡◌, ◌≤◌, ◌<◌, replicate};
ghost use Rattle.table.specs.Words.{types};
ghost use Rattle.table.specs.HowMany.{Tallied};
ghost use Rattle.table.specs.Privilege.{privileges};
ghost use Rattle.table.specs.Steps.Numbering.{Firsts};
ghost use Rattle.policy.specs.Marks.{Policy};
ghost use Rattle.verdict.specs.Steps.Spoils.{ForbiddenOwn};
ghost use Rattle.editing.specs.Steps.Growing.{no_grown, Together, Reach, Within, Whole};

use table::below::add_kids;
use table::privilege::privileges_at;
use table::rule::children;
use verdict::below::{Tally, add_stretch};

// How many types are listed, and what is forbidden in them.
#[derive(Clone, Copy)]
pub(crate) struct Grown {
    pub listed: usize,
    pub tally: Tally,
}

// Nothing is listed.
pub(crate) fn nothing() -> Grown
    ensures { result ≡ no_grown }
{
    Grown {
        listed: 0,
        tally: Tally {
            lowest: 0,
            count: 0,
        },
    }
}

// What is forbidden of a type's own, by the first privileges.
fn own_tally(words: &[u16], marks: &[u8], firsts: &[u16; 256], t: usize) -> Tally
    requires { Policy words.now marks.now × Firsts words.now (replicate 256 0) firsts.now × (t < types words.now) }
    ensures { Tallied (ForbiddenOwn words.now marks.now t) (privileges words.now) result.lowest result.count }
{
    let from = usize::from(firsts[t]);
    let none = Tally {
        lowest: 0,
        count: 0,
    };
    add_stretch(marks, from, from + privileges_at(words, t), 1, none)
}

// Two tallies of different privileges together.
fn together(a: Tally, b: Tally) -> Tally
    requires { (a.count ≤ 4096) × (b.count ≤ 4096) }
    ensures { Together a b result }
{
    if a.count == 0 {
        return b;
    }
    if b.count == 0 {
        return a;
    }
    Tally {
        lowest: a.lowest.min(b.lowest),
        count: a.count + b.count,
    }
}

// Grows what is listed, all of it below y, to all that is below y, and counts what comes new.
pub(crate) fn grow(
    words: &[u16],
    marks: &[u8],
    firsts: &[u16; 256],
    y: usize,
    flags: &mut [u8; 256],
    list: &mut [u8; 256],
    before: Grown,
) -> Grown
    requires { Policy words.now marks.now × Firsts words.now (replicate 256 0) firsts.now × (y < types words.now) × Reach words.now marks.now flags.old list.old before × Within words.now flags.old list.old before.listed y }
    ensures { Whole words.now marks.now flags.new list.new y result }
{
    let one = [y as u16; 1];
    let mut tally = before.tally;
    let mut head = before.listed;
    let mut n = add_kids(&one, flags, list, head);
    // A while: the list grows on the way.
    while head < n {
        let t = usize::from(list[head]);
        tally = together(tally, own_tally(words, marks, firsts, t));
        n = add_kids(children(words, t), flags, list, n);
        head += 1;
    }
    Grown { listed: n, tally }
}
