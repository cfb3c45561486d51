// From a text of the grammar to the code of its declarations. Contracts cite specs/Steps.
// Arrays have a fixed size: nothing here allocates.
#![tactic(auto)]

ghost use Rattle.std.specs.Prelude.{suc, ◌≤◌, ◌<◌, min, ◌≡◌, length};
ghost use Rattle.names.specs.Steps.Shifting.{Shifted};
ghost use Rattle.code.specs.Steps.Holding.{Inserts};
ghost use Rattle.code.specs.Steps.Putting.{MarkPut, AllPut};

use content::put_content;
use names::list::NameList;
use names::walk::{Declared, declaration_from, place_behind};
use scan::bytes::is;

mod content;
mod particle;

// The words of `?`, `*` and `+`: their kinds, 6, 5 and 7, and one operand.
const MAYBE: u32 = 393217;

const ANY: u32 = 327681;

const SEVERAL: u32 = 458753;

// A code in the making: its first 1,280 words, and how many it has, counted up to 1,281.
#[derive(Drop)]
pub struct Code {
    pub words: [u32; 1280],
    pub size: usize,
}

// Moves the words from a place up to another on by one.
fn shift(words: &mut [u32; 1280], low: usize, high: usize)
    requires { high < 1280 }
    ensures { Shifted 1 words.old words.new low high }
{
    if low < high {
        words.copy_within(low..high, low + 1);
    }
}

// One more, up to 1,281.
pub(crate) fn more(size: usize) -> usize
    ensures { result ≡ min (suc size) 1281 }
{
    size.min(1280) + 1
}

impl Code {
    // Puts a word between the words before a place and those behind it; words that do not fit are dropped.
    pub(crate) fn insert(&mut self, at: usize, w: u32)
        ensures { Inserts self.old.words self.old.size at w self.new.words self.new.size }
    {
        if at < 1280 {
            shift(&mut self.words, at, self.size.min(1279));
            self.words[at] = w;
        }
        self.size = more(self.size);
    }

    // Puts a word behind the others.
    pub(crate) fn push(&mut self, w: u32)
        ensures { Inserts self.old.words self.old.size self.old.size w self.new.words self.new.size }
    {
        self.insert(self.size, w);
    }
}

// Puts the word of a mark, if one stands there, before the model whose code begins at start, and answers the place behind the mark.
pub(crate) fn put_mark(s: &[u8], at: usize, code: &mut Code, start: usize) -> usize
    requires { at ≤ length s.now }
    ensures { MarkPut s.now at start code.old.words code.old.size code.new.words result code.new.size }
{
    if is(s, at, b'?') {
        code.insert(start, MAYBE);
        return at + 1;
    }
    if is(s, at, b'*') {
        code.insert(start, ANY);
        return at + 1;
    }
    if is(s, at, b'+') {
        code.insert(start, SEVERAL);
        return at + 1;
    }
    at
}

// The code of a text's declarations.
pub fn put_all(s: &[u8], names: &NameList, code: &mut Code)
    ensures { AllPut s.now names.now.entries names.now.count code.new.words code.new.size }
{
    code.size = 0;
    let mut at = 0;
    // A while: declarations have any length.
    while let Some(Declared { body, .. }) = declaration_from(s, at) {
        put_content(s, body, names, code);
        at = place_behind(s, at, body);
    }
}
