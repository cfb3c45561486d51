// How the replacements at a type are numbered. A star's exchange is one of them: it replaces the only child by its own kind. Contracts cite
// specs/Steps/Placing.
ghost use Rattle.std.specs.Prelude.{◌≡◌, ◌<◌};
ghost use Rattle.table.specs.Words.{types};
ghost use Rattle.table.specs.Privilege.{first_privilege};
ghost use Rattle.table.specs.Check.{Accepted};
ghost use Rattle.carry.specs.Steps.Placing.{ReplacesAs};

use table::privilege::{Numbering, exchange, numbers_at};
use table::rule::{Rule, rule_at};

// How the replacements at type x are numbered, whose first privilege is given.
pub(crate) fn replaces_at(words: &[u16], x: usize, first: usize) -> Numbering
    requires { Accepted words.now × (x < types words.now) × (first ≡ first_privilege words.now x) }
    ensures { ReplacesAs words.now x result }
{
    let n = numbers_at(words, x, first);
    match rule_at(words, x) {
        Rule::Choice { .. } => n,
        Rule::Star { .. } => Numbering {
            first: exchange(n),
            count: 1,
            gap: n.gap,
        },
        Rule::Empty | Rule::Text | Rule::Sequence { .. } => Numbering {
            first,
            count: 0,
            gap: n.gap,
        },
    }
}
