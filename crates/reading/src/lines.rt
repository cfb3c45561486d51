// One line of a listing. Contracts cite specs/Steps/Edits.
ghost use Rattle.std.specs.Prelude.{◌≤◌, ◌<◌, length};
ghost use Rattle.table.specs.Words.{types};
ghost use Rattle.labels.specs.Steps.Booked.{label_in};
ghost use Rattle.reading.specs.Steps.Edits.{LineRead, FirstsOf};
ghost use Rattle.reading.specs.Steps.Reading.{Readable};

use super::edits::edit_at;
use super::matching::{find_type, sign_at};
use labels::Labels;
use table::words::{types, word_at};

// What a line says: its mark, its type and its privilege; and the place behind it.
#[derive(Clone, Copy)]
pub(crate) struct Line {
    pub mark: u8,
    pub x: usize,
    pub privilege: usize,
    pub end: usize,
}

// The line that stands at a place, its type looked for from the type of the line before on.
pub(crate) fn read_line(
    words: &[u16],
    labels: Labels<'_>,
    firsts: &[u16],
    l: &[u8],
    at: usize,
    near: usize,
) -> Option<Line>
    requires { Readable words.now labels.names.now labels.starts.now × FirstsOf words.now firsts.now × (at ≤ length l.now) × (near < types words.now) }
    ensures { LineRead (label_in labels.entry.names.now labels.entry.starts.now) words.now l.now at result }
{
    let mark = sign_at(l, at)?;
    let named = find_type(labels, types(words), l, at + 2, near)?;
    let x = named.number;
    let edit = edit_at(words, labels, x, word_at(firsts, x), l, named.end)?;
    Some(Line {
        mark,
        x,
        privilege: edit.number,
        end: edit.end,
    })
}
