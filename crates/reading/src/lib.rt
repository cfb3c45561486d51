// Reading the lines of a listing. Contracts cite specs/Steps/Reading.
// Arrays have a fixed size: nothing here allocates.
#![tactic(auto)]

ghost use Rattle.std.specs.Prelude.{ℕ, ◌≡◌, get_or};
ghost use Rattle.table.specs.Refusals.{number_in, no_place_in};
ghost use Rattle.labels.specs.Steps.Booked.{label_in};
ghost use Rattle.reading.specs.Steps.Reading.{Readable, LinesRead};

mod edits;
mod lines;
mod matching;

use labels::Labels;
use lines::read_line;
use table::Refusal;
use table::privilege::first_privileges;

// Reads the lines of a listing into marks that are all unset, or refuses with the first byte of the first line at fault.
pub fn read_lines(
    words: &[u16],
    labels: Labels<'_>,
    listing: &[u8],
    marks: &mut [u8; 4096],
) -> Result<(), Refusal>
    requires { Readable words.now labels.names.now labels.starts.now × ((p : ℕ) → get_or marks.old p 0 ≡ 0) }
    ensures { LinesRead (label_in labels.entry.names.now labels.entry.starts.now) words.now listing.now (number_in result) (no_place_in result) marks.new }
{
    let mut firsts = [0u16; 256];
    first_privileges(words, &mut firsts);
    let mut at = 0;
    let mut from = 0;
    let mut near = 0;
    // A while: the place moves on by a line.
    while at < listing.len() {
        let Some(line) = read_line(words, labels, &firsts, listing, at, near) else {
            return Err(Refusal::NoLine(at));
        };
        let p = line.privilege;
        if p < from {
            return Err(Refusal::NotAbove(at));
        }
        marks[p] = line.mark;
        at = line.end;
        from = p + 1;
        near = line.x;
    }
    Ok(())
}
