// One line, put part by part, each function at a place that is low enough for the most that it puts. Contracts cite specs/Steps/Wording.
ghost use Rattle.std.specs.Prelude.{◌∷◌, [], ◌+◌, ◌≤◌, ◌<◌, length};
ghost use Rattle.runs.specs.Putting.{Fits};
ghost use Rattle.labels.specs.Steps.Booked.{label_in};
ghost use Rattle.listing.specs.Line.{sign_of, parts_of, line_of};
ghost use Rattle.mailing.specs.declared.edit.Naming.TheVariants.{Replace};
ghost use Rattle.mailing.specs.Steps.Naming.{named_by};
ghost use Rattle.mailing.specs.Steps.Wording.{after_blank, blanked, Brief, AllBrief};

use super::edit::Naming;
use labels::Labels;
use runs::put;

// Puts a blank and a part.
fn put_spaced(part: &[u8], out: &mut [u8], at: usize) -> usize
    requires { at + 1 + length part.now < 18446744073709551616 }
    ensures { Fits (after_blank part.now) out.old at out.new result }
{
    let begin = put(b" ", out, at);
    put(part, out, begin)
}

// Puts a blank and the label of type x.
fn put_label(labels: Labels<'_>, x: usize, out: &mut [u8], at: usize) -> usize
    requires { Brief labels.names.now labels.starts.now x × (at + 33 ≤ 1048576) }
    ensures { Fits (after_blank (label_in labels.entry.names.now labels.entry.starts.now x)) out.old at out.new result }
{
    put_spaced(labels.label(x), out, at)
}

// Puts the label of type x and a verb.
fn put_verb(labels: Labels<'_>, x: usize, verb: &[u8], out: &mut [u8], at: usize) -> usize
    requires { Brief labels.names.now labels.starts.now x × (length verb.now ≤ 7) × (at + 41 ≤ 1048576) }
    ensures { Fits (blanked (label_in labels.entry.names.now labels.entry.starts.now x ∷ verb.now ∷ [])) out.old at out.new result }
{
    let begin = put_label(labels, x, out, at);
    put_spaced(verb, out, begin)
}

// Puts the label of type x, a verb and the label of a child.
fn put_child(
    labels: Labels<'_>,
    x: usize,
    verb: &[u8],
    child: usize,
    out: &mut [u8],
    at: usize,
) -> usize
    requires { Brief labels.names.now labels.starts.now x × Brief labels.names.now labels.starts.now child × (length verb.now ≤ 7) × (at + 74 ≤ 1048576) }
    ensures { Fits (blanked (label_in labels.entry.names.now labels.entry.starts.now x ∷ verb.now ∷ label_in labels.entry.names.now labels.entry.starts.now child ∷ [])) out.old at out.new result }
{
    let begin = put_verb(labels, x, verb, out, at);
    put_label(labels, child, out, begin)
}

// Puts the label of type x, the verb of a replacement, and the labels of the child that goes and of the one that comes.
fn put_replacement(
    labels: Labels<'_>,
    x: usize,
    from: usize,
    to: usize,
    out: &mut [u8],
    at: usize,
) -> usize
    requires { Brief labels.names.now labels.starts.now x × Brief labels.names.now labels.starts.now from × Brief labels.names.now labels.starts.now to × (at + 107 ≤ 1048576) }
    ensures { Fits (blanked (parts_of (label_in labels.entry.names.now labels.entry.starts.now) (named_by (Replace x from to)))) out.old at out.new result }
{
    let begin = put_child(labels, x, b"replace", from, out, at);
    put_label(labels, to, out, begin)
}

// Puts what a line says of an edit, each part with a blank before it.
fn put_parts(labels: Labels<'_>, edit: Naming, out: &mut [u8], at: usize) -> usize
    requires { AllBrief labels.names.now labels.starts.now edit × (at + 107 ≤ 1048576) }
    ensures { Fits (blanked (parts_of (label_in labels.entry.names.now labels.entry.starts.now) (named_by edit))) out.old at out.new result }
{
    match edit {
        Naming::Text(x) => put_verb(labels, x, b"text", out, at),
        Naming::Insert(x, child) => put_child(labels, x, b"insert", child, out, at),
        Naming::Delete(x, child) => put_child(labels, x, b"delete", child, out, at),
        Naming::Replace(x, from, to) => put_replacement(labels, x, from, to, out, at),
    }
}

// Puts the sign of a set mark.
fn put_sign(mark: u8, out: &mut [u8], at: usize) -> usize
    requires { at + 1 ≤ 1048576 }
    ensures { Fits (sign_of mark) out.old at out.new result }
{
    if mark == 1 {
        return put(b"+", out, at);
    }
    put(b"-", out, at)
}

// Puts the line of an edit with this mark.
pub(crate) fn put_line(
    labels: Labels<'_>,
    edit: Naming,
    mark: u8,
    out: &mut [u8],
    at: usize,
) -> usize
    requires { AllBrief labels.names.now labels.starts.now edit × (at + 109 ≤ 1048576) }
    ensures { Fits (line_of (label_in labels.entry.names.now labels.entry.starts.now) mark (named_by edit)) out.old at out.new result }
{
    let sign = put_sign(mark, out, at);
    let parts = put_parts(labels, edit, out, sign);
    put(b"\n", out, parts)
}
