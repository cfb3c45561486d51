// Writing the lines of a policy. Contracts cite specs/Steps/Putting, and specs/Steps/Continuing for the lines of some privileges.
#![tactic(auto)]

ghost use Rattle.std.specs.Prelude.{◌≡◌, ◌+◌, ◌*◌, ◌≤◌, ◌<◌};
ghost use Rattle.table.specs.Words.{types};
ghost use Rattle.table.specs.Privilege.{first_privilege, Belongs};
ghost use Rattle.labels.specs.Steps.Booked.{label_in};
ghost use Rattle.mailing.specs.Steps.Putting.{Mailable, LinesPut};
ghost use Rattle.mailing.specs.Steps.Continuing.{Continues};

mod edit;
mod line;

use edit::named_at;
use labels::Labels;
use line::put_line;
use table::privilege::privileges_at;
use table::words::types;

// Puts the line of privilege p of type x, whose first privilege is given, if p is set.
#[tactic(auto, using(crate::proofs::Continuing::continues_unset))]
fn put_privilege(
    words: &[u16],
    labels: Labels<'_>,
    marks: &[u8],
    x: usize,
    first: usize,
    p: usize,
    out: &mut [u8],
    at: usize,
) -> usize
    requires { Mailable words.now labels.names.now labels.starts.now marks.now × Belongs words.now p x × (first ≡ first_privilege words.now x) × (at ≤ 109 * p) }
    ensures { Continues (label_in labels.entry.names.now labels.entry.starts.now) words.now marks.now p (p + 1) out.old at out.new result }
{
    let mark = marks[p];
    if mark == 0 {
        return at;
    }
    let edit = named_at(words, x, p - first);
    put_line(labels, edit, mark, out, at)
}

// Puts the lines of the set privileges of type x, whose first privilege and that of the next type are given.
fn put_type(
    words: &[u16],
    labels: Labels<'_>,
    marks: &[u8],
    x: usize,
    first: usize,
    until: usize,
    out: &mut [u8],
    at: usize,
) -> usize
    requires { Mailable words.now labels.names.now labels.starts.now marks.now × (x < types words.now) × (first ≡ first_privilege words.now x) × (until ≡ first_privilege words.now (x + 1)) × (at ≤ 109 * first) }
    ensures { Continues (label_in labels.entry.names.now labels.entry.starts.now) words.now marks.now first until out.old at out.new result }
{
    let mut end = at;
    for p in first..until {
        end = put_privilege(words, labels, marks, x, first, p, out, end);
    }
    end
}

// Puts the lines of a policy's set privileges, ascending, if there is room for them; answers their length either way.
pub fn put_lines(words: &[u16], labels: Labels<'_>, marks: &[u8], out: &mut [u8]) -> usize
    requires { Mailable words.now labels.names.now labels.starts.now marks.now }
    ensures { LinesPut (label_in labels.entry.names.now labels.entry.starts.now) words.now marks.now out.old out.new result }
{
    let mut end = 0;
    let mut first = 0;
    for x in 0..types(words) {
        let until = first + privileges_at(words, x);
        end = put_type(words, labels, marks, x, first, until, out, end);
        first = until;
    }
    end
}
