// Counting the roles, one after another. Contracts cite specs/Sheets, and specs/Steps/Counting for the parts.
ghost use Rattle.std.specs.Prelude.{◌≡◌, ℕ, ◌+◌, ◌*◌, ◌<◌, length, get_or, replicate};
ghost use Rattle.table.specs.Check.{Accepted};
ghost use Rattle.table.specs.Privilege.{privileges};
ghost use Rattle.table.specs.Steps.Order.{BottomUp};
ghost use Rattle.sheet.specs.Steps.Counting.{Room, FiguresRoom, unbroken, with_role, with_refused, RoleCounted, Counted};

use super::counts::count_marks;
use super::{Figures, no_figures};
use broken::{Broken, broken_in};
use policy::marks::none_above;

// Is no condition broken?
fn is_unbroken(broken: Broken) -> bool
    ensures { result ≡ unbroken broken }
{
    !(broken.insert_delete || broken.chain || broken.cycle)
}

// The figures with a role that breaks these conditions.
fn with_role(figures: Figures, broken: Broken) -> Figures
    requires { FiguresRoom figures }
    ensures { result ≡ with_role figures broken }
{
    Figures {
        clean: figures.clean + u32::from(is_unbroken(broken)),
        insert_delete: figures.insert_delete + u32::from(broken.insert_delete),
        chain: figures.chain + u32::from(broken.chain),
        cycle: figures.cycle + u32::from(broken.cycle),
        ..figures
    }
}

// The figures with a role that is refused.
fn with_refused(figures: Figures) -> Figures
    requires { FiguresRoom figures }
    ensures { result ≡ with_refused figures }
{
    Figures {
        refused: figures.refused + 1,
        ..figures
    }
}

// Counts one role: as refused if a mark is above 2, and else its marks and the conditions that it breaks.
fn count_role(
    words: &[u16],
    marks: &[u8],
    order: &[u8; 256],
    counts: &mut [u32],
    figures: Figures,
) -> Figures
    requires { Accepted words.now × BottomUp words.now order.now × (length marks.now ≡ privileges words.now) × (length counts.old ≡ 3 * privileges words.now) × FiguresRoom figures × ((p k : ℕ) → p < privileges words.now → k < 3 → Room (get_or counts.old (3 * p + k) 0)) }
    ensures { RoleCounted words.now marks.now figures counts.old result counts.new }
{
    if !none_above(marks, 2) {
        return with_refused(figures);
    }
    count_marks(marks, counts);
    with_role(figures, broken_in(words, marks, order))
}

// Counts each role, from counts that are 0.
fn count_each(
    words: &[u16],
    roles: u32,
    marks: &[u8],
    v: usize,
    order: &[u8; 256],
    counts: &mut [u32],
) -> Figures
    requires { Accepted words.now × BottomUp words.now order.now × (v ≡ privileges words.now) × (length marks.now ≡ roles * v) × (counts.old ≡ replicate (3 * v) 0) }
    ensures { Counted words.now roles marks.now result counts.new }
{
    let mut figures = no_figures();
    for r in 0..roles {
        let a = r as usize * v;
        figures = count_role(words, &marks[a..a + v], order, counts, figures);
    }
    figures
}

// Counts all roles. Without privileges every role is the same empty policy, which is clean.
pub fn count_roles(
    words: &[u16],
    roles: u32,
    marks: &[u8],
    v: usize,
    order: &[u8; 256],
    counts: &mut [u32],
) -> Figures
    requires { Accepted words.now × BottomUp words.now order.now × (v ≡ privileges words.now) × (length marks.now ≡ roles * v) × (length counts.old ≡ 3 * v) }
    ensures { Counted words.now roles marks.now result counts.new }
{
    counts.fill(0);
    if v == 0 {
        return Figures {
            clean: roles,
            ..no_figures()
        };
    }
    count_each(words, roles, marks, v, order, counts)
}
