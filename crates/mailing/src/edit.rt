// The edits at a type, by their number there and by what they name. Contracts cite specs/Steps/Naming.
ghost use Rattle.std.specs.Prelude.{◌≤◌, ◌<◌};
ghost use Rattle.table.specs.Words.{types};
ghost use Rattle.table.specs.Rule.{IsChoice, IsStar};
ghost use Rattle.table.specs.Privilege.{privileges_at};
ghost use Rattle.table.specs.Check.{Accepted};
ghost use Rattle.mailing.specs.Steps.Naming.{EditAt, InColumn};

use table::privilege::gap_of;
use table::rule::{Rule, child_at, children, rule_at};
use table::words::word_at;

// An edit by what it names: its type, and the children: for a replacement the one that goes and the one that comes.
#[derive(Clone, Copy)]
pub(crate) enum Naming {
    Text(usize),
    Insert(usize, usize),
    Delete(usize, usize),
    Replace(usize, usize, usize),
}

// The k-th edit at the star x: insert, delete, and in format 2 the exchange, which replaces the child by its own kind.
fn star_edit(words: &[u16], x: usize, k: usize) -> Naming
    requires { Accepted words.now × IsStar words.now x × (k < privileges_at words.now x) }
    ensures { EditAt words.now x k result }
{
    let child = child_at(words, x, 0);
    match k {
        0 => Naming::Insert(x, child),
        1 => Naming::Delete(x, child),
        _ => Naming::Replace(x, child, child),
    }
}

// The position of the kind that stands in this column of the replacements of the child at i: in format 1 the child's own kind is left out.
fn position(column: usize, i: usize, gap: usize) -> usize
    requires { (column < 65536) × (gap ≤ 1) }
    ensures { InColumn gap i column result }
{
    if column < i { column } else { column + gap }
}

// The k-th edit at the choice x: the replacements of the first child, then those of the next.
fn choice_edit(words: &[u16], x: usize, k: usize) -> Naming
    requires { Accepted words.now × IsChoice words.now x × (k < privileges_at words.now x) }
    ensures { EditAt words.now x k result }
{
    let kids = children(words, x);
    let gap = gap_of(words);
    let width = kids.len() - gap;
    let i = k / width;
    let j = position(k % width, i, gap);
    Naming::Replace(x, word_at(kids, i), word_at(kids, j))
}

// The k-th edit at type x.
pub(crate) fn named_at(words: &[u16], x: usize, k: usize) -> Naming
    requires { Accepted words.now × (x < types words.now) × (k < privileges_at words.now x) }
    ensures { EditAt words.now x k result }
{
    match rule_at(words, x) {
        Rule::Choice { .. } => choice_edit(words, x, k),
        Rule::Star { .. } => star_edit(words, x, k),
        Rule::Empty | Rule::Text | Rule::Sequence { .. } => Naming::Text(x),
    }
}
