// Which types a privilege is below: its type, where that stands in the order, and a flag for each type that it is below. Contracts cite
// specs/Steps/Aboves.
ghost use Rattle.std.specs.Prelude.{◌≡◌, ◌<◌, get_or, replicate};
ghost use Rattle.table.specs.Words.{types};
ghost use Rattle.table.specs.Privilege.{Belongs, privileges};
ghost use Rattle.table.specs.Check.{Accepted};
ghost use Rattle.table.specs.Steps.Order.{BottomUp};
ghost use Rattle.editing.specs.Steps.Aboves.{StandsAt, Aboves};

use table::privilege::{gap_of, privileges_in};
use table::rule::children;
use table::words::types;
use verdict::spoilt::flag_over;

// The type of privilege p.
pub(crate) fn type_of(words: &[u16], p: usize) -> usize
    requires { Accepted words.now × (p < privileges words.now) }
    ensures { Belongs words.now p result }
{
    let gap = gap_of(words);
    let mut x = 0;
    let mut next = privileges_in(words, 0, gap);
    // A while: p is below V, so the search ends at its type.
    while next <= p {
        x += 1;
        next += privileges_in(words, x, gap);
    }
    x
}

// The place of type x in the order, looked for from its end: types above others stand there.
pub(crate) fn place_of(words: &[u16], order: &[u8; 256], x: usize) -> usize
    requires { Accepted words.now × BottomUp words.now order.now × (x < types words.now) }
    ensures { StandsAt words.now order.now x result }
{
    let mut k = types(words) - 1;
    // A while: each type stands in the order, so the search ends at x.
    while usize::from(order[k]) != x {
        k -= 1;
    }
    k
}

// Flags each type that the type at a place of the order is below.
pub(crate) fn flag_above(words: &[u16], order: &[u8; 256], place: usize, above: &mut [u8; 256])
    requires { Accepted words.now × BottomUp words.now order.now × (place < types words.now) × (above.old ≡ replicate 256 0) }
    ensures { Aboves words.now (get_or order.now place 0) above.new }
{
    above[usize::from(order[place])] = 1;
    for k in place + 1..types(words) {
        let t = usize::from(order[k]);
        above[t] = flag_over(children(words, t), above, 0);
    }
}
