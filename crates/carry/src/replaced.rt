// Moving the marks of a type's replacements: of one row to another, row by row, or side by side. Contracts cite specs/Steps/Placing.
ghost use Rattle.std.specs.Prelude.{◌≡◌, true, ◌<◌};
ghost use Rattle.table.specs.Steps.Numbering.{Small, Positions};
ghost use Rattle.policy.specs.Steps.Squares.{Room};
ghost use Rattle.carry.specs.Steps.Scattering.{Scattered};
ghost use Rattle.carry.specs.Steps.Placing.{Alike, replacements_in, RowAs, SmallRow, ReplacedBy, RowRoom, BothStand, InRow, RowsTo, Replaces};

use super::scatter::{move_mark, move_marks};
use table::privilege::{Numbering, missing, row_at, width};
use table::words::word_at;

// A row, the replacements of one child: its first privilege, the position by which that child cannot be replaced, and how many kinds there are.
#[derive(Clone, Copy)]
struct Row {
    first: usize,
    gap: usize,
    count: usize,
}

// The row of the child at i.
fn row_of(n: Numbering, i: usize) -> Row
    requires { Positions n i i }
    ensures { RowAs n i result }
{
    Row {
        first: row_at(n, i),
        gap: missing(n, i),
        count: n.count,
    }
}

// The privilege to replace the row's child by the kind at j, if there is one.
fn replaced_by(row: Row, j: usize) -> Option<usize>
    requires { SmallRow row }
    ensures { ReplacedBy row j result }
{
    if row.count <= j || j == row.gap {
        return None;
    }
    if j < row.gap {
        return Some(row.first + j);
    }
    Some(row.first + (j - 1))
}

// Moves the mark of the replacement by the kind at j to that by the kind at k, where there are both.
fn carry_replacement(
    marks: &[u8],
    from: Row,
    to: Row,
    j: usize,
    k: usize,
    out: &mut [u8],
    lost: &mut [u8],
)
    requires { RowRoom from marks.now × RowRoom from lost.old × RowRoom to out.old }
    ensures { Scattered (BothStand from to j k) marks.now out.old lost.old out.new lost.new }
{
    let Some(p) = replaced_by(from, j) else {
        return;
    };
    let Some(q) = replaced_by(to, k) else {
        return;
    };
    move_mark(marks, p, q, out, lost);
}

// Moves the marks of the replacements of the child at i, if it has a place.
fn carry_row(
    marks: &[u8],
    from: Numbering,
    to: Numbering,
    at: &[u16; 16],
    i: usize,
    out: &mut [u8],
    lost: &mut [u8],
)
    requires { Room from marks.now × Room from lost.old × Room to out.old × (i < from.count) }
    ensures { Scattered (Replaces from to at.now (InRow i)) marks.now out.old lost.old out.new lost.new }
{
    let place = word_at(at, i);
    if to.count <= place {
        return;
    }
    let old = row_of(from, i);
    let new = row_of(to, place);
    for j in 0..from.count {
        carry_replacement(marks, old, new, j, word_at(at, j), out, lost);
    }
}

// Are the replacements numbered alike, and do the kinds stand at the new type as at the old one?
fn is_alike(from: Numbering, to: Numbering, at: &[u16; 16]) -> bool
    ensures { result ≡ true → Alike from to at.now }
{
    if from.count != to.count || from.gap != to.gap {
        return false;
    }
    for i in 0..from.count {
        if word_at(at, i) != i {
            return false;
        }
    }
    true
}

// How many replacements there are.
fn replacements(n: Numbering) -> usize
    requires { Small n }
    ensures { result ≡ replacements_in n }
{
    if n.count == 0 {
        return 0;
    }
    n.count * width(n)
}

// Moves the marks of all replacements at a type, by where their kinds stand at the new one: all at once if that is where they stood.
pub(crate) fn carry_rows(
    marks: &[u8],
    from: Numbering,
    to: Numbering,
    at: &[u16; 16],
    out: &mut [u8],
    lost: &mut [u8],
)
    requires { Room from marks.now × Room from lost.old × Room to out.old }
    ensures { Scattered (Replaces from to at.now (RowsTo from.count)) marks.now out.old lost.old out.new lost.new }
{
    if is_alike(from, to, at) {
        move_marks(marks, from.first, to.first, replacements(from), out, lost);
        return;
    }
    for i in 0..from.count {
        carry_row(marks, from, to, at, i, out, lost);
    }
}
