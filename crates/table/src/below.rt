// What is below a type, whether or not there is an order. Contracts cite specs/Below, and specs/Steps/Flags for the way there.
ghost use Rattle.std.specs.Prelude.{◌≡◌, ◌<◌, replicate};
ghost use Rattle.table.specs.Words.{types};
ghost use Rattle.table.specs.Check.{Inside};
ghost use Rattle.table.specs.Steps.Childed.{Childed};
ghost use Rattle.table.specs.Steps.Found.{Tells};
ghost use Rattle.table.specs.Below.{OnCycle};
ghost use Rattle.table.specs.Steps.Flags.{Flags, Added, MarksBelow};

use super::rule::children;

// Marks the kids, and lists those that were not marked before.
pub fn add_kids(kids: &[u16], marks: &mut [u8; 256], order: &mut [u8; 256], listed: usize) -> usize
    requires { Flags listed marks.old order.old × Inside 256 kids.now }
    ensures { Added kids.now marks.old order.old listed marks.new order.new result }
{
    let mut n = listed;
    for kid in kids {
        let child = usize::from(*kid);
        if marks[child] != 1 {
            marks[child] = 1;
            order[n] = child as u8;
            n += 1;
        }
    }
    n
}

// Marks the types that are below one of those given. Each is listed once, and its children are looked at once.
pub fn mark_below(words: &[u16], from: &[u16], marks: &mut [u8; 256])
    requires { Childed words.now × Inside (types words.now) from.now × (marks.old ≡ replicate 256 0) }
    ensures { MarksBelow words.now from.now marks.new }
{
    let mut order = [0u8; 256];
    let mut n = add_kids(from, marks, &mut order, 0);
    let mut head = 0;
    // A while: the list grows as it is passed.
    while head < n {
        let kids = children(words, usize::from(order[head]));
        n = add_kids(kids, marks, &mut order, n);
        head += 1;
    }
}

// Is type t on a cycle?
pub fn is_on_cycle(words: &[u16], t: usize) -> bool
    requires { Childed words.now × (t < types words.now) }
    ensures { Tells (OnCycle words.now t) result }
{
    let mut marks = [0u8; 256];
    mark_below(words, children(words, t), &mut marks);
    marks[t] == 1
}
