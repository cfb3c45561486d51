// The names of all types of a DTD text, one after another in a run of bytes: those of the declared types as they stand in the text, and those of
// the made ones. Functions take every text; what they say is said of a text of the grammar. Contracts cite specs/Labels and specs/Steps/Booked.
// Arrays have a fixed size: nothing here allocates.
#![tactic(auto)]

ghost use Rattle.std.specs.Prelude.{◌≡◌, ◌<◌};
ghost use Rattle.labels.specs.Steps.Booked.{label_in, LabelsRead};

mod entering;

use entering::{enter_declared, enter_made};
use runs::part;
use table::words::word_at;

// The labels of types: their bytes one after another, and where each begins.
#[derive(Clone, Copy)]
pub struct Labels<'a> {
    pub names: &'a [u8],
    pub starts: &'a [u16],
}

impl<'a> Labels<'a> {
    // The label of type x.
    pub fn label(self, x: usize) -> &'a [u8]
        requires { x < 256 }
        ensures { result.now ≡ label_in self.entry.names.now self.entry.starts.now x }
    {
        part(
            self.names,
            word_at(self.starts, x),
            word_at(self.starts, x + 1),
        )
    }
}

// Puts the labels of the first e types of a text, one after another, and where each begins.
pub fn put_labels(s: &[u8], e: usize, names: &mut [u8; 8192], starts: &mut [u16; 257])
    ensures { LabelsRead s.now e names.new starts.new }
{
    let last = e.min(256);
    let made = enter_declared(s, names, starts);
    for x in made..last {
        enter_made(names, starts, x);
    }
}
