// The edit of which a line speaks behind its type's name, by the rule of the type. Contracts cite specs/Steps/Edits.
ghost use Rattle.std.specs.Prelude.{◌≡◌, ◌≤◌, ◌<◌, length};
ghost use Rattle.table.specs.Words.{types};
ghost use Rattle.table.specs.Privilege.{first_privilege};
ghost use Rattle.table.specs.Steps.Found.{Tells};
ghost use Rattle.table.specs.Steps.Numbering.{Positions, ReplaceableIn};
ghost use Rattle.labels.specs.Steps.Booked.{label_in};
ghost use Rattle.reading.specs.Steps.Edits.{EditRead, StarRead, Kinds, ChoiceRead};
ghost use Rattle.reading.specs.Steps.Reading.{Readable};

use super::matching::{Ended, after, after_three, after_two, find_kid};
use labels::Labels;
use table::privilege::{
    Numbering, deletion, exchange, insertion, is_exchangeable, numbers_at, replacement,
};
use table::rule::{Rule, child_at, children, rule_at};

// The edit at a star whose child has this label.
fn star_at(n: Numbering, child: &[u8], l: &[u8], at: usize) -> Option<Ended>
    requires { (n.first ≤ 4096) × (at ≤ length l.now) }
    ensures { StarRead n child.now l.now at result }
{
    if let Some(end) = after_two(l, at, b"insert", child) {
        return Some(Ended {
            number: insertion(n),
            end,
        });
    }
    if let Some(end) = after_two(l, at, b"delete", child) {
        return Some(Ended {
            number: deletion(n),
            end,
        });
    }
    if !is_exchangeable(n) {
        return None;
    }
    let end = after_three(l, at, b"replace", child, child)?;
    Some(Ended {
        number: exchange(n),
        end,
    })
}

// Is there a privilege to replace the child at i by the kind at j?
fn is_replaceable(n: Numbering, i: usize, j: usize) -> bool
    requires { Positions n i j }
    ensures { Tells (ReplaceableIn n i j) result }
{
    i != j || n.gap == 0
}

// The edit at a choice with these kids.
fn choice_at(labels: Labels<'_>, kids: &[u16], n: Numbering, l: &[u8], at: usize) -> Option<Ended>
    requires { Kinds (label_in labels.names.now labels.starts.now) kids.now n × (at ≤ length l.now) }
    ensures { ChoiceRead (label_in labels.entry.names.now labels.entry.starts.now) kids.now n l.now at result }
{
    let verb = after(l, at, b"replace", b' ')?;
    let from = find_kid(labels, kids, n.count, l, verb, b' ')?;
    let to = find_kid(labels, kids, n.count, l, from.end, b'\n')?;
    if !is_replaceable(n, from.number, to.number) {
        return None;
    }
    Some(Ended {
        number: replacement(n, from.number, to.number),
        end: to.end,
    })
}

// The edit at type x, whose first privilege is given.
pub(crate) fn edit_at(
    words: &[u16],
    labels: Labels<'_>,
    x: usize,
    first: usize,
    l: &[u8],
    at: usize,
) -> Option<Ended>
    requires { Readable words.now labels.names.now labels.starts.now × (x < types words.now) × (first ≡ first_privilege words.now x) × (at ≤ length l.now) }
    ensures { EditRead (label_in labels.entry.names.now labels.entry.starts.now) words.now x l.now at result }
{
    let n = numbers_at(words, x, first);
    match rule_at(words, x) {
        Rule::Text => {
            let end = after(l, at, b"text", b'\n')?;
            Some(Ended { number: first, end })
        }
        Rule::Choice { .. } => choice_at(labels, children(words, x), n, l, at),
        Rule::Star { .. } => star_at(n, labels.label(child_at(words, x, 0)), l, at),
        Rule::Empty | Rule::Sequence { .. } => None,
    }
}
