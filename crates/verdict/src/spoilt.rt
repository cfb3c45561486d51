// Which types have something forbidden below them, in one pass along the order in which every type comes after its children, and kept: a flag for
// each type. Contracts cite specs/Below, and specs/Steps/Spoils for the parts.
ghost use Rattle.std.specs.Prelude.{◌≡◌, ℕ, ◌≤◌, ◌<◌, length, get_or};
ghost use Rattle.table.specs.Steps.Order.{BottomUp};
ghost use Rattle.policy.specs.Marks.{Legal, Policy};
ghost use Rattle.verdict.specs.Below.{ForbiddenBelow};
ghost use Rattle.verdict.specs.Steps.Spoils.{ForbiddenOwn, Range, Flag, Joined, Flags};

use policy::marks::none_above;
use table::privilege::{gap_of, privileges_in};
use table::rule::children;
use table::words::types;

// 1 if a privilege from one number up to another is forbidden, else 0.
fn flag_from(marks: &[u8], from: usize, until: usize) -> u8
    requires { (from ≤ until) × (until ≤ length marks.now) × ((p : ℕ) → p < until → Legal marks.now p) }
    ensures { Flag (Range marks.now from until) result }
{
    if none_above(&marks[from..until], 1) {
        0
    } else {
        1
    }
}

// Flags each type of which a privilege of its own is forbidden.
fn own_flags(words: &[u16], marks: &[u8], flags: &mut [u8; 256])
    requires { Policy words.now marks.now }
    ensures { Flags words.now (ForbiddenOwn words.now marks.now) flags.old flags.new }
{
    let gap = gap_of(words);
    let e = types(words);
    let mut first = 0;
    for x in 0..e {
        let next = first + privileges_in(words, x, gap);
        flags[x] = flag_from(marks, first, next);
        first = next;
    }
}

// 1 if the flag of a child is, else the type's own.
pub fn flag_over(kids: &[u16], flags: &[u8; 256], own: u8) -> u8
    requires { (i : ℕ) → i < length kids.now → get_or kids.now i 0 < 256 }
    ensures { Joined (length kids.now) kids.now flags.now own result }
{
    let mut flag = own;
    for kid in kids {
        if flags[usize::from(*kid)] == 1 {
            flag = 1;
        }
    }
    flag
}

// Flags each type below which something is forbidden. The order holds each type after its children.
pub fn flag_spoilt(words: &[u16], marks: &[u8], order: &[u8; 256], flags: &mut [u8; 256])
    requires { Policy words.now marks.now × BottomUp words.now order.now }
    ensures { Flags words.now (ForbiddenBelow words.now marks.now) flags.old flags.new }
{
    let e = types(words);
    own_flags(words, marks, flags);
    for t in &order[..e] {
        let x = usize::from(*t);
        let own = flags[x];
        flags[x] = flag_over(children(words, x), flags, own);
    }
}
