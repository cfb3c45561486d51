// One pass from parents to children, in place: each type opens what it passes on, and its marks are decided. Contracts cite specs/Steps/Passes.
ghost use Rattle.std.specs.Prelude.{◌≡◌, length};
ghost use Rattle.table.specs.Rule.{IsChoice, IsStar};
ghost use Rattle.table.specs.Steps.Order.{BottomUp};
ghost use Rattle.policy.specs.Marks.{Allowed, Policy};
ghost use Rattle.completion.specs.Steps.Opens.{Opened};
ghost use Rattle.completion.specs.Steps.Passes.{Visited, Done, HasFirsts, Filled};

use super::open::{open_all, open_cycles};
use super::write::{write_exchange, write_range};
use policy::marks::copy;
use policy::reach::reached;
use policy::renew::is_renewed;
use policy::write::write_choice;
use table::privilege::{numbers_at, privileges_at};
use table::rule::{Rule, children, rule_at};
use table::words::types;

// An opened type: its children are opened, and all its privileges allowed.
fn complete_opened(words: &[u16], x: usize, first: usize, opened: &mut [u8; 256], m: &mut [u8])
    requires { Visited words.now m.old x first opened.old × Opened words.now (Allowed m.old) x }
    ensures { Done words.now m.old x opened.old opened.new m.new }
{
    open_all(opened, children(words, x));
    write_range(m, true, first, first + privileges_at(words, x));
}

// A star that is not opened: it opens its child where it can be renewed, and allows the exchange where insert and delete are allowed.
fn complete_star(words: &[u16], x: usize, first: usize, opened: &mut [u8; 256], m: &mut [u8])
    requires { Visited words.now m.old x first opened.old × (Opened words.now (Allowed m.old) x → ⊥) × IsStar words.now x }
    ensures { Done words.now m.old x opened.old opened.new m.new }
{
    let n = numbers_at(words, x, first);
    if is_renewed(m, n) {
        open_all(opened, children(words, x));
    }
    write_exchange(m, n);
    write_range(m, false, first, first + privileges_at(words, x));
}

// A choice that is not opened: it opens what can be replaced and replaced back, and allows what is reached.
fn complete_choice(words: &[u16], x: usize, first: usize, opened: &mut [u8; 256], m: &mut [u8])
    requires { Visited words.now m.old x first opened.old × (Opened words.now (Allowed m.old) x → ⊥) × IsChoice words.now x }
    ensures { Done words.now m.old x opened.old opened.new m.new }
{
    let n = numbers_at(words, x, first);
    let square = reached(words, m, x, n);
    open_cycles(opened, children(words, x), &square);
    write_choice(m, &square, n);
}

// Type x, whose parents are done.
fn complete_type(words: &[u16], x: usize, first: usize, opened: &mut [u8; 256], m: &mut [u8])
    requires { Visited words.now m.old x first opened.old }
    ensures { Done words.now m.old x opened.old opened.new m.new }
{
    if opened[x] == 1 {
        complete_opened(words, x, first, opened, m);
        return;
    }
    match rule_at(words, x) {
        Rule::Choice { .. } => complete_choice(words, x, first, opened, m),
        Rule::Star { .. } => complete_star(words, x, first, opened, m),
        Rule::Empty | Rule::Text | Rule::Sequence { .. } => {
            write_range(m, false, first, first + privileges_at(words, x))
        }
    }
}

// Completes a policy in place, each type after its parents: the order holds each after its children, and is read backwards. Each type's first privilege is
// given.
pub fn complete_all(words: &[u16], order: &[u8; 256], firsts: &[u16; 256], m: &mut [u8])
    requires { Policy words.now m.old × BottomUp words.now order.now × HasFirsts words.now firsts.now }
    ensures { Filled words.now m.old m.new }
{
    let mut opened = [0u8; 256];
    for k in (0..types(words)).rev() {
        let x = usize::from(order[k]);
        complete_type(words, x, usize::from(firsts[x]), &mut opened, m);
    }
}

// Completes a copy of the marks of a policy.
pub fn complete_copy(
    words: &[u16],
    marks: &[u8],
    order: &[u8; 256],
    firsts: &[u16; 256],
    m: &mut [u8],
)
    requires { Policy words.now marks.now × BottomUp words.now order.now × HasFirsts words.now firsts.now × (length m.old ≡ length marks.now) }
    ensures { Filled words.now marks.now m.new }
{
    copy(marks, m);
    complete_all(words, order, firsts, m);
}
