// Mending type by type, in one ascending pass, each until it has no breach. Contracts cite specs/Mends, and specs/Steps/Taking for the parts.
ghost use Rattle.std.specs.Prelude.{◌≡◌, ◌<◌, length};
ghost use Rattle.table.specs.Words.{types};
ghost use Rattle.table.specs.Rule.{IsChoice, IsStar};
ghost use Rattle.table.specs.Privilege.{first_privilege};
ghost use Rattle.table.specs.Steps.Order.{BottomUp};
ghost use Rattle.policy.specs.Marks.{Policy};
ghost use Rattle.mending.specs.Mends.{Mends};
ghost use Rattle.mending.specs.Steps.Taking.{Spoilt, CleanUpTo, Visited, Cleaned};

use super::taking::{next_taken, star_taken};
use policy::marks::copy;
use policy::reach::reached_by;
use policy::renew::is_renewed;
use policy::rows::{read_rows, toggle};
use table::privilege::{Numbering, gap_of, numbers_at, privileges_in, replacement};
use table::rule::{Rule, children, rule_at};
use table::words::types;
use verdict::spoilt::flag_spoilt;

// Mends the star x, whose child can be renewed: what the rule takes is forbidden, and once more if it still has a breach.
fn mend_renewed(
    words: &[u16],
    m: &mut [u8],
    flags: &[u8; 256],
    x: usize,
    kids: &[u16],
    n: Numbering,
) -> usize
    requires { Visited words.now m.old flags.now x kids.now n × IsStar words.now x }
    ensures { Cleaned words.now flags.now x m.old m.new result }
{
    let mut count = 0;
    // A while: one mark goes at a time, until there is no breach.
    while let Some(p) = star_taken(words, m, flags, x, kids, n) {
        m[p] = 2;
        count += 1;
    }
    count
}

// Mends the star x: where its child cannot be renewed it has no breach.
fn mend_star(
    words: &[u16],
    m: &mut [u8],
    flags: &[u8; 256],
    x: usize,
    kids: &[u16],
    n: Numbering,
) -> usize
    requires { Visited words.now m.old flags.now x kids.now n × IsStar words.now x }
    ensures { Cleaned words.now flags.now x m.old m.new result }
{
    if is_renewed(m, n) {
        return mend_renewed(words, m, flags, x, kids, n);
    }
    0
}

// Mends the choice x: what the rule takes is forbidden, again and again until it has no breach.
fn mend_choice(
    words: &[u16],
    m: &mut [u8],
    flags: &[u8; 256],
    x: usize,
    kids: &[u16],
    n: Numbering,
) -> usize
    requires { Visited words.now m.old flags.now x kids.now n × IsChoice words.now x }
    ensures { Cleaned words.now flags.now x m.old m.new result }
{
    let mut allowed = [0u16; 16];
    let mut forbidden = [0u16; 16];
    read_rows(m, n, &mut allowed, &mut forbidden);
    let mut count = 0;
    // A loop: one mark goes at a time, until there is no breach; what is reached is asked anew for each.
    loop {
        let square = reached_by(words, m, x, n, allowed);
        let taken = next_taken(words, m, flags, x, kids, n, &square, &allowed, &forbidden);
        let Some((i, k)) = taken else {
            return count;
        };
        m[replacement(n, i, k)] = 2;
        toggle(&mut allowed, i, k);
        toggle(&mut forbidden, i, k);
        count += 1;
    }
}

// Mends type x, whose first privilege is given.
fn mend_type(words: &[u16], m: &mut [u8], flags: &[u8; 256], x: usize, first: usize) -> usize
    requires { Policy words.now m.old × Spoilt words.now m.old flags.now × (x < types words.now) × CleanUpTo words.now m.old x × (first ≡ first_privilege words.now x) }
    ensures { Cleaned words.now flags.now x m.old m.new result }
{
    match rule_at(words, x) {
        Rule::Empty | Rule::Text | Rule::Sequence { .. } => 0,
        Rule::Choice { .. } => mend_choice(
            words,
            m,
            flags,
            x,
            children(words, x),
            numbers_at(words, x, first),
        ),
        Rule::Star { .. } => mend_star(
            words,
            m,
            flags,
            x,
            children(words, x),
            numbers_at(words, x, first),
        ),
    }
}

// Mends a policy in place, and counts the marks taken. The order holds each type after its children.
pub fn mend_all(words: &[u16], order: &[u8; 256], m: &mut [u8]) -> usize
    requires { Policy words.now m.old × BottomUp words.now order.now }
    ensures { Mends words.now m.old m.new result }
{
    let mut flags = [0u8; 256];
    flag_spoilt(words, m, order, &mut flags);
    let gap = gap_of(words);
    let e = types(words);
    let mut count = 0;
    let mut first = 0;
    for x in 0..e {
        count += mend_type(words, m, &flags, x, first);
        first += privileges_in(words, x, gap);
    }
    count
}

// Mends a copy of the marks of a policy.
pub(crate) fn mend_copy(words: &[u16], marks: &[u8], order: &[u8; 256], m: &mut [u8]) -> usize
    requires { Policy words.now marks.now × BottomUp words.now order.now × (length m.old ≡ length marks.now) }
    ensures { Mends words.now marks.now m.new result }
{
    copy(marks, m);
    mend_all(words, order, m)
}
