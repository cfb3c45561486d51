// The entries of the types that a privilege is below, worked out from the marks along the order of the types. Contracts cite specs/Entries, and
// specs/Steps/Writing for the parts.
ghost use Rattle.std.specs.Prelude.{◌+◌, ◌-◌, ◌*◌, ◌≤◌, ◌<◌, length, replicate};
ghost use Rattle.table.specs.Words.{types, root};
ghost use Rattle.table.specs.Privilege.{privileges};
ghost use Rattle.table.specs.Steps.Found.{Tells};
ghost use Rattle.table.specs.Steps.Order.{BottomUp};
ghost use Rattle.table.specs.Steps.Listed.{Among};
ghost use Rattle.table.specs.Steps.Numbering.{Firsts};
ghost use Rattle.policy.specs.Marks.{Policy};
ghost use Rattle.verdict.specs.Below.{ForbiddenTally};
ghost use Rattle.editing.specs.Entries.{Renewed};
ghost use Rattle.editing.specs.Steps.Writing.{Entered, Blank, Written};

use super::above::{flag_above, place_of, type_of};
use super::growing::{grow, nothing};
use table::privilege::first_privileges;
use table::rule::children;
use table::words::{types, word_at};
use verdict::below::{Tally, add_stretch};

// What is forbidden at all, which is what is forbidden below the root.
fn all_forbidden(words: &[u16], marks: &[u8]) -> Tally
    requires { Policy words.now marks.now }
    ensures { ForbiddenTally words.now marks.now (root words.now) result }
{
    let none = Tally {
        lowest: 0,
        count: 0,
    };
    add_stretch(marks, 0, marks.len(), 1, none)
}

// Are the first n words all 0?
fn is_blank(kept: &[u16], n: usize) -> bool
    requires { n ≤ length kept.now }
    ensures { Tells (Blank n kept.now) result }
{
    let mut blank = true;
    for word in &kept[0..n] {
        blank &= *word == 0;
    }
    blank
}

// Writes the entry of type t.
fn put_entry(kept: &mut [u16], t: usize, entry: Tally)
    requires { (2 * t + 1 < length kept.old) × (t < 256) × (entry.lowest < 65536) × (entry.count < 65536) }
    ensures { Entered t entry kept.old kept.new }
{
    kept[2 * t] = entry.lowest as u16;
    kept[2 * t + 1] = entry.count as u16;
}

// Is y one of the kids?
fn has_child(kids: &[u16], y: usize) -> bool
    ensures { Tells (Among kids.now (length kids.now) y) result }
{
    kids.iter().any(|kid| usize::from(*kid) == y)
}

// Writes the entries of the types above that stand from a place of the order up to the last, which is the root's. What is forbidden below a type is grown
// from what is forbidden below the one before, where that is its child.
fn write_entries(
    words: &[u16],
    marks: &[u8],
    order: &[u8; 256],
    above: &[u8; 256],
    firsts: &[u16; 256],
    place: usize,
    kept: &mut [u16],
)
    requires { Policy words.now marks.now × BottomUp words.now order.now × Firsts words.now (replicate 256 0) firsts.now × (2 * types words.now ≤ length kept.old) }
    ensures { Written words.now marks.now order.now above.now place (types words.now - 1) kept.old kept.new }
{
    let last = types(words) - 1;
    let mut flags = [0u8; 256];
    let mut list = [0u8; 256];
    let mut grown = nothing();
    let mut y = 0;
    for k in place..last {
        let t = usize::from(order[k]);
        if above[t] == 1 {
            if !has_child(children(words, t), y) {
                flags = [0u8; 256];
                grown = nothing();
            }
            grown = grow(words, marks, firsts, t, &mut flags, &mut list, grown);
            put_entry(kept, t, grown.tally);
            y = t;
        }
    }
}

// Renews the entries of the types that privilege p is below. Where nothing is forbidden and nothing is kept there is nothing to write.
pub(crate) fn renew_entries(
    words: &[u16],
    marks: &[u8],
    order: &[u8; 256],
    p: usize,
    kept: &mut [u16],
)
    requires { Policy words.now marks.now × BottomUp words.now order.now × (p < privileges words.now) × (2 * types words.now ≤ length kept.old) }
    ensures { Renewed words.now marks.now p kept.old kept.new }
{
    let all = all_forbidden(words, marks);
    if all.count == 0 && is_blank(kept, 2 * types(words)) {
        return;
    }
    let place = place_of(words, order, type_of(words, p));
    let mut above = [0u8; 256];
    flag_above(words, order, place, &mut above);
    let mut firsts = [0u16; 256];
    first_privileges(words, &mut firsts);
    write_entries(words, marks, order, &above, &firsts, place, kept);
    put_entry(kept, word_at(words, 3), all);
}
