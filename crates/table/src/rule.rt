// A type's rule and its children. Contracts cite specs/Rule, and specs/Steps/Reading for what must stand in the run.
ghost use Rattle.std.specs.Prelude.{◌≡◌};
ghost use Rattle.table.specs.Steps.Reading.{HasRecord, ReadAs, HasChildren};
ghost use Rattle.table.specs.Rule.{rule_of, rule_at, children_at, child_at};

use super::words::{record_word, types, word_at};

// A type's rule, with the index of its first child in the child list and the number of its children.
#[derive(Clone, Copy)]
pub enum Rule {
    Empty,
    Text,
    Sequence { first: usize, count: usize },
    Choice { first: usize, count: usize },
    Star { first: usize, count: usize },
}

#[tactic(auto, using(crate::proofs::Rules::rule_else), unfolding(crate::specs::Rule::rule_of))]
pub(crate) fn rule_of(kind: usize, first: usize, count: usize) -> Rule
    ensures { result ≡ rule_of kind first count }
{
    match kind {
        0 => Rule::Empty,
        1 => Rule::Text,
        2 => Rule::Sequence { first, count },
        3 => Rule::Choice { first, count },
        4 => Rule::Star { first, count },
        _ => Rule::Empty,
    }
}

// The rule of type t.
pub fn rule_at(words: &[u16], t: usize) -> Rule
    requires { HasRecord words.now t }
    ensures { ReadAs (rule_at words.now t) result }
{
    rule_of(
        record_word(words, t, 0),
        record_word(words, t, 2),
        record_word(words, t, 1),
    )
}

// The children of type t, as a part of the words.
pub fn children(words: &[u16], t: usize) -> &[u16]
    requires { HasChildren words.now t }
    ensures { result.now ≡ children_at words.now t }
{
    let a = 8 + 3 * types(words) + record_word(words, t, 2);
    let b = a + record_word(words, t, 1);
    &words[a..b]
}

// The child of type t at position i.
pub fn child_at(words: &[u16], t: usize, i: usize) -> usize
    requires { HasChildren words.now t }
    ensures { result ≡ child_at words.now t i }
{
    word_at(children(words, t), i)
}
