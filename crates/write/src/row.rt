// Writing the rows of a table, for every code: what does not fit is left out. Contracts cite specs/Steps/Reading and specs/Steps/Writing.
ghost use Rattle.std.specs.Prelude.{◌+◌, ◌*◌, ◌%◌, ◌≤◌, ◌<◌, ◌≡◌, [], ◌∷◌, length, get_or, drop};
ghost use Rattle.write.specs.Steps.Reading.{rule_kind_in, operands_in, extra_in, star_in, children_in, last_of, row_of, own_due, extra_due, due_of};
ghost use Rattle.write.specs.Steps.Reading.{rows_at, rows_in, Numbered};
ghost use Rattle.write.specs.Steps.Writing.{Puts, Wrote, Low, Small, Formed};

use super::Counts;
use super::read::{
    Place, child, extra, free_after, inner, need_after, operands, rule_kind, skip, star, wide,
    word_at,
};

// Puts a word at a place, if there is one.
fn put(out: &mut [u16; 1800], i: usize, word: usize)
    requires { word < 65536 }
    ensures { Puts out.old i (word ∷ []) out.new }
{
    if i < out.len() {
        out[i] = word as u16;
    }
}

// Puts the record of type t.
fn put_record(out: &mut [u16; 1800], t: usize, kind: usize, count: usize, first: usize)
    requires { (t < 4294967296) × (kind < 65536) }
    ensures { Puts out.old (8 + 3 * t) (kind ∷ count % 65536 ∷ first % 65536 ∷ []) out.new }
{
    let i = 8 + 3 * t;
    put(out, i, kind);
    put(out, i + 1, count % 65536);
    put(out, i + 2, first % 65536);
}

// Puts the children that n operands are.
fn put_children(code: &[u32], from: Place, n: usize, start: usize, out: &mut [u16; 1800])
    requires { Numbered code.now from.at from.free × (n ≤ 65536) × (start < 4294967296) }
    ensures { Puts out.old start (children_in n from.free (drop from.at code.now)) out.new }
{
    let mut place = from;
    for i in 0..n {
        put(out, start + i, child(code, place));
        place = skip(code, place);
    }
}

// Puts the type that is made inside, the one before y, where there is one.
fn put_last(out: &mut [u16; 1800], i: usize, y: usize, extra: usize)
    requires { (extra ≤ y) × (y < 65536) }
    ensures { Puts out.old i (last_of extra y) out.new }
{
    if extra != 0 {
        put(out, i, y - 1);
    }
}

// What a row is made of: its kind, how many operands its children are, and how many types are made inside.
#[derive(Clone, Copy)]
pub struct Form {
    pub kind: usize,
    pub operands: usize,
    pub extra: usize,
}

// The form of a word's own row.
fn own_form(w: usize) -> Form
    ensures { Formed (rule_kind_in w) (operands_in w) (extra_in w) result.kind result.operands result.extra }
{
    Form {
        kind: rule_kind(w),
        operands: operands(w),
        extra: extra(w),
    }
}

// The form of the row of the type that it makes inside.
fn extra_form(w: usize) -> Form
    ensures { Formed (4 * star_in w) (star_in w) 0 result.kind result.operands result.extra }
{
    Form {
        kind: 4 * star(w),
        operands: star(w),
        extra: 0,
    }
}

// Writes a row, where it is due.
fn write_row(
    due: bool,
    code: &[u32],
    from: Place,
    form: Form,
    base: usize,
    at: Counts,
    out: &mut [u16; 1800],
) -> Counts
    requires { Numbered code.now from.at from.free × Small form.kind form.operands form.extra
        × (form.extra ≤ from.free) × Low 2147483648 base at.types at.kids }
    ensures { Wrote base (due_of due (row_of form.kind form.operands form.extra from.free (drop from.at code.now)))
        at.types at.kids out.old result.types result.kids out.new }
{
    if due {
        let first = base + at.kids;
        let count = form.operands + form.extra;
        put_record(out, at.types, form.kind, count, at.kids);
        put_children(code, from, form.operands, first, out);
        put_last(out, first + form.operands, from.free, form.extra);
        return Counts {
            types: at.types + 1,
            kids: at.kids + count,
        };
    }
    at
}

// Is a word's own row due?
#[tactic(auto, unfolding(crate::specs::Steps::Reading::own_due))]
fn own_due(later: bool, need: usize, w: usize) -> bool
    ensures { result ≡ own_due later need w }
{
    w >= 65536 && later == (need != 0)
}

// Is that of the type that it makes inside?
#[tactic(auto, unfolding(crate::specs::Steps::Reading::extra_due))]
fn extra_due(later: bool, w: usize) -> bool
    ensures { result ≡ extra_due later w }
{
    later && w >= 393216
}

// Writes the rows that are due at the word at c, x being the first number that is free.
fn write_word(
    code: &[u32],
    c: usize,
    later: bool,
    need: usize,
    x: usize,
    base: usize,
    at: Counts,
    out: &mut [u16; 1800],
) -> Counts
    requires { (c < length code.now) × Numbered code.now c x × Low 1073741824 base at.types at.kids }
    ensures { Wrote base (rows_at later need x (get_or code.now c 0) (drop (c + 1) code.now))
        at.types at.kids out.old result.types result.kids out.new }
{
    let w = word_at(code, c);
    let y = inner(need, x, w);
    let own = Place {
        at: c + 1,
        free: y + extra(w),
    };
    let next = write_row(
        own_due(later, need, w),
        code,
        own,
        own_form(w),
        base,
        at,
        out,
    );
    let inside = Place {
        at: c + 1,
        free: y + 1,
    };
    write_row(
        extra_due(later, w),
        code,
        inside,
        extra_form(w),
        base,
        next,
        out,
    )
}

// Writes the rows of the declared types, or later of the made ones, x being the first number that is free.
pub fn write_pass(
    code: &[u32],
    later: bool,
    x: usize,
    base: usize,
    start: Counts,
    out: &mut [u16; 1800],
) -> Counts
    requires { (length code.now ≤ 1280) × (x ≤ 256) × Low 536870912 base start.types start.kids }
    ensures { Wrote base (rows_in later 0 x code.now) start.types start.kids out.old
        result.types result.kids out.new }
{
    let mut at = start;
    let mut free = x;
    let mut need = 0;
    for (c, word) in code.iter().enumerate() {
        let w = wide(*word);
        at = write_word(code, c, later, need, free, base, at, out);
        free = free_after(need, free, w);
        need = need_after(need, w);
    }
    at
}
