// An order of the types in which every type comes after its children. Contracts cite specs/Steps/Order, and specs/Steps/Counts for the way there.
ghost use Rattle.std.specs.Prelude.{◌≡◌, ◌+◌, ◌≤◌, replicate};
ghost use Rattle.table.specs.Check.{Accepted};
ghost use Rattle.table.specs.Steps.Childed.{Childed};
ghost use Rattle.table.specs.Steps.Counts.{Counts, Filling};
ghost use Rattle.table.specs.Steps.Accepting.{Ordering};
ghost use Rattle.table.specs.Steps.Order.{BottomUp};

use super::rule::children;
use super::words::{entries, stretch, types, word_at};

// Counts for each type the child entries that name it.
pub fn count_parents(words: &[u16], counts: &mut [u16; 256])
    requires { Childed words.now × (counts.old ≡ replicate 256 0) }
    ensures { Counts words.now counts.new }
{
    let a = 8 + 3 * types(words);
    let list = stretch(words, a, a + entries(words));
    for child in list {
        counts[usize::from(*child)] += 1;
    }
}

// Passes the type at a place: takes one from the count of each of its children, and takes those whose count is then 0. The order is filled from its
// last place to its first; those below `free` are empty.
fn pass(
    words: &[u16],
    place: usize,
    counts: &mut [u16; 256],
    order: &mut [u8; 256],
    start: usize,
) -> usize
    requires { Childed words.now × Filling words.now (place + 1) start counts.old order.old × (start ≤ place) }
    ensures { Filling words.now place result counts.new order.new }
{
    let kids = children(words, usize::from(order[place]));
    let mut free = start;
    for kid in kids {
        let child = usize::from(*kid);
        let left = counts[child] - 1;
        counts[child] = left;
        if left == 0 {
            free -= 1;
            order[free] = child as u8;
        }
    }
    free
}

// Is no type on a cycle, and each reached from the root? Types are taken, the root first and each other one when all its parents are passed: where
// all can be taken, they stand in the order.
pub fn is_ordered(words: &[u16], counts: &mut [u16; 256], order: &mut [u8; 256]) -> bool
    requires { Childed words.now × Counts words.now counts.old }
    ensures { Ordering words.now order.new result }
{
    let root = word_at(words, 3);
    if counts[root] != 0 {
        return false;
    }
    let mut place = types(words);
    let mut free = place - 1;
    order[free] = root as u8;
    // A while: the types taken grow in number as they are passed.
    while free < place {
        place -= 1;
        free = pass(words, place, counts, order, free);
    }
    free == 0
}

// Writes the types of a table, each after its children, a byte for each.
pub fn bottom_up(words: &[u16], order: &mut [u8; 256])
    requires { Accepted words.now }
    ensures { BottomUp words.now order.new }
{
    let mut counts = [0u16; 256];
    count_parents(words, &mut counts);
    is_ordered(words, &mut counts, order);
}
