// Carrying the marks, type by type: those of a text, the insert and delete of a star, and the replacements. Contracts cite specs/Carries and
// specs/Steps/Moving.
ghost use Rattle.std.specs.Prelude.{◌≡◌, ℕ, ◌<◌, get_or};
ghost use Rattle.table.specs.Words.{types};
ghost use Rattle.table.specs.Privilege.{first_privilege};
ghost use Rattle.carry.specs.Carries.{Carries};
ghost use Rattle.carry.specs.Steps.Scattering.{Scattered};
ghost use Rattle.carry.specs.Steps.Moving.{BecomesBy, TextAt, EndsAt, ReplacesAt, OfType, Moving, MovingAt};

use super::kinds::replaces_at;
use super::places::places;
use super::replaced::carry_rows;
use super::scatter::{lose_all, move_mark};
use table::privilege::{first_privileges, privileges_at};
use table::rule::{Rule, child_at, children, rule_at};
use table::words::{types, word_at};

// A revised schema: the old table with its marks, the new table, and the new number of each old type.
#[derive(Clone, Copy)]
pub(crate) struct Revision<'a> {
    pub words: &'a [u16],
    pub marks: &'a [u8],
    pub new_words: &'a [u16],
    pub numbers: &'a [u16],
}

// An old type and the new one that it becomes, each with its first privilege.
#[derive(Clone, Copy)]
struct Site {
    x: usize,
    first: usize,
    y: usize,
    onto: usize,
}

// Carries the mark of the change of a text, where both are text.
fn carry_text(revision: Revision, site: Site, out: &mut [u8], lost: &mut [u8])
    requires { MovingAt revision.words.now revision.marks.now revision.new_words.now revision.numbers.now out.old lost.old site }
    ensures { Scattered (BecomesBy (TextAt site.x) revision.entry.words.now revision.entry.new_words.now revision.entry.numbers.now) revision.entry.marks.now out.old lost.old out.new lost.new }
{
    let Rule::Text = rule_at(revision.words, site.x) else {
        return;
    };
    let Rule::Text = rule_at(revision.new_words, site.y) else {
        return;
    };
    move_mark(revision.marks, site.first, site.onto, out, lost);
}

// Carries the marks of insert and delete, where both are stars of one child.
fn carry_ends(revision: Revision, site: Site, out: &mut [u8], lost: &mut [u8])
    requires { MovingAt revision.words.now revision.marks.now revision.new_words.now revision.numbers.now out.old lost.old site }
    ensures { Scattered (BecomesBy (EndsAt site.x) revision.entry.words.now revision.entry.new_words.now revision.entry.numbers.now) revision.entry.marks.now out.old lost.old out.new lost.new }
{
    let Rule::Star { .. } = rule_at(revision.words, site.x) else {
        return;
    };
    let Rule::Star { .. } = rule_at(revision.new_words, site.y) else {
        return;
    };
    if word_at(revision.numbers, child_at(revision.words, site.x, 0))
        != child_at(revision.new_words, site.y, 0)
    {
        return;
    }
    move_mark(revision.marks, site.first, site.onto, out, lost);
    move_mark(revision.marks, site.first + 1, site.onto + 1, out, lost);
}

// Carries the marks of the replacements, by the kinds they name.
fn carry_replacements(revision: Revision, site: Site, out: &mut [u8], lost: &mut [u8])
    requires { MovingAt revision.words.now revision.marks.now revision.new_words.now revision.numbers.now out.old lost.old site }
    ensures { Scattered (BecomesBy (ReplacesAt site.x) revision.entry.words.now revision.entry.new_words.now revision.entry.numbers.now) revision.entry.marks.now out.old lost.old out.new lost.new }
{
    let from = replaces_at(revision.words, site.x, site.first);
    if from.count == 0 {
        return;
    }
    let to = replaces_at(revision.new_words, site.y, site.onto);
    let at = places(
        children(revision.words, site.x),
        from.count,
        revision.numbers,
        children(revision.new_words, site.y),
        to.count,
    );
    carry_rows(revision.marks, from, to, &at, out, lost);
}

// Carries the marks of the old type x, whose first privilege is given.
fn carry_type(
    revision: Revision,
    firsts: &[u16; 256],
    x: usize,
    first: usize,
    out: &mut [u8],
    lost: &mut [u8],
)
    requires { Moving revision.words.now revision.marks.now revision.new_words.now revision.numbers.now out.old lost.old × ((y : ℕ) → y < types revision.new_words.now → get_or firsts.now y 0 ≡ first_privilege revision.new_words.now y) × (x < types revision.words.now) × (first ≡ first_privilege revision.words.now x) }
    ensures { Scattered (BecomesBy (OfType x) revision.entry.words.now revision.entry.new_words.now revision.entry.numbers.now) revision.entry.marks.now out.old lost.old out.new lost.new }
{
    let y = word_at(revision.numbers, x);
    if types(revision.new_words) <= y {
        return;
    }
    let onto = word_at(firsts, y);
    let site = Site { x, first, y, onto };
    carry_text(revision, site, out, lost);
    carry_ends(revision, site, out, lost);
    carry_replacements(revision, site, out, lost);
}

// Carries all marks.
pub(crate) fn carry_all(revision: Revision, out: &mut [u8], lost: &mut [u8])
    requires { Moving revision.words.now revision.marks.now revision.new_words.now revision.numbers.now out.old lost.old }
    ensures { Carries revision.entry.words.now revision.entry.marks.now revision.entry.new_words.now revision.entry.numbers.now out.new lost.new }
{
    let mut firsts = [0u16; 256];
    first_privileges(revision.new_words, &mut firsts);
    out.fill(0);
    lose_all(revision.marks, lost);
    let mut first = 0;
    for x in 0..types(revision.words) {
        carry_type(revision, &firsts, x, first, out, lost);
        first += privileges_at(revision.words, x);
    }
}
