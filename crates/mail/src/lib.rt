// A listing people can mail: writing one of marks, and reading one into marks, by DTD text and a format. Contracts cite specs/Answers, and specs/Steps/Opened for
// the parts.
// Arrays have a fixed size: nothing here allocates.
#![tactic(auto)]

ghost use Rattle.std.specs.Prelude.{◌≡◌, length};
ghost use Rattle.table.specs.Words.{format_of};
ghost use Rattle.table.specs.Refusals.{number_in, place_in, no_place_in};
ghost use Rattle.labels.specs.Steps.Booked.{label_in};
ghost use Rattle.mailing.specs.Steps.Putting.{Mailable};
ghost use Rattle.reading.specs.Steps.Reading.{Readable};
ghost use Rattle.mail.specs.Answers.{Written, ReadFrom, WriteAnswer, ReadAnswer};
ghost use Rattle.mail.specs.Steps.Opened.{Opened, SchemaRead, Sized};

use dtd::read_format;
use labels::{Labels, put_labels};
use mailing::put_lines;
use policy::marks::check_marks;
use reading::read_lines;
use table::words::{types, word_at};
use table::{Check, Refusal};

// Reads DTD text into a table of the format, whatever they are: V where the table stands at the front of the words, else why there is none.
pub fn read_schema(text: &[u8], format: u16, words: &mut [u16]) -> Result<usize, Refusal>
    requires { length words.old ≡ 1800 }
    ensures { SchemaRead text.now format (number_in result) (place_in result) words.new }
{
    match format {
        1 | 2 => read_format(text, format, words),
        _ => Err(Refusal::Table(Check::Format, 0)),
    }
}

// How long the listing of marks is: its lines are put where there is no room for them.
fn size_of(words: &[u16], labels: Labels<'_>, marks: &[u8]) -> usize
    requires { Mailable words.now labels.names.now labels.starts.now marks.now }
    ensures { Sized (label_in labels.entry.names.now labels.entry.starts.now) words.now marks.now result }
{
    put_lines(words, labels, marks, &mut [])
}

// Writes the listing of marks by a table and the labels of its types.
fn write_by(
    words: &[u16],
    labels: Labels<'_>,
    marks: &[u8],
    out: &mut [u8],
) -> Result<usize, Refusal>
    requires { Readable words.now labels.names.now labels.starts.now }
    ensures { Written (label_in labels.entry.names.now labels.entry.starts.now) words.now marks.now out.old (number_in result) (place_in result) out.new }
{
    check_marks(marks, word_at(words, 7))?;
    let size = size_of(words, labels, marks);
    if out.len() < size {
        return Err(Refusal::ResultLength);
    }
    put_lines(words, labels, marks, out);
    Ok(size)
}

// Reads a listing into marks by a table and the labels of its types.
fn read_by(words: &[u16], labels: Labels<'_>, listing: &[u8], out: &mut [u8]) -> Result<(), Refusal>
    requires { Readable words.now labels.names.now labels.starts.now }
    ensures { ReadFrom (label_in labels.entry.names.now labels.entry.starts.now) words.now listing.now out.old (number_in result) (no_place_in result) out.new }
{
    let mut marks = [0u8; 4096];
    read_lines(words, labels, listing, &mut marks)?;
    let v = word_at(words, 7);
    if out.len() < v {
        return Err(Refusal::ResultLength);
    }
    out[..v].copy_from_slice(&marks[..v]);
    Ok(())
}

// Writes the listing of marks by a schema that was read. Not inlined, so that the labels are on the stack only when the text has been read.
#[inline(never)]
fn write_opened(text: &[u8], words: &[u16], marks: &[u8], out: &mut [u8]) -> Result<usize, Refusal>
    requires { Opened text.now (format_of words.now) words.now }
    ensures { WriteAnswer text.now (format_of words.now) marks.now out.old (number_in result) (place_in result) out.new }
{
    let mut names = [0u8; 8192];
    let mut starts = [0u16; 257];
    put_labels(text, types(words), &mut names, &mut starts);
    let labels = Labels {
        names: &names,
        starts: &starts,
    };
    write_by(words, labels, marks, out)
}

// Reads a listing by a schema that was read. Not inlined either.
#[inline(never)]
fn read_opened(text: &[u8], words: &[u16], listing: &[u8], out: &mut [u8]) -> Result<(), Refusal>
    requires { Opened text.now (format_of words.now) words.now }
    ensures { ReadAnswer text.now (format_of words.now) listing.now out.old (number_in result) (no_place_in result) out.new }
{
    let mut names = [0u8; 8192];
    let mut starts = [0u16; 257];
    put_labels(text, types(words), &mut names, &mut starts);
    let labels = Labels {
        names: &names,
        starts: &starts,
    };
    read_by(words, labels, listing, out)
}

// Writes the listing of marks, whatever they are, by DTD text and a format: refuses with 1, with what the text is refused with, or with 10, 11 or 12, and leaves the
// result as it was; or answers the listing's length, writes it to the front of the result and keeps the rest.
pub fn write_listing(
    text: &[u8],
    format: u16,
    marks: &[u8],
    out: &mut [u8],
) -> Result<usize, Refusal>
    ensures { WriteAnswer text.now format marks.now out.old (number_in result) (place_in result) out.new }
{
    let mut words = [0u16; 1800];
    read_schema(text, format, &mut words)?;
    let n = word_at(&words, 1);
    write_opened(text, &words[..n], marks, out)
}

// Reads a listing, whatever it holds, by DTD text and a format: refuses with 1, with what the text is refused with, or with 25, 26 or 12, and leaves the result as
// it was; or writes the V marks to the front of the result and keeps the rest.
pub fn read_listing(text: &[u8], format: u16, listing: &[u8], out: &mut [u8]) -> Result<(), Refusal>
    ensures { ReadAnswer text.now format listing.now out.old (number_in result) (no_place_in result) out.new }
{
    let mut words = [0u16; 1800];
    read_schema(text, format, &mut words)?;
    let n = word_at(&words, 1);
    read_opened(text, &words[..n], listing, out)
}
