// Reading a lent run of words, for every place: past the end stands 0, and a stretch that runs over the end is shorter. A type's record is read
// where it is known to be there. Contracts cite specs/Words and specs/Steps/Reading.
ghost use Rattle.std.specs.Prelude.{◌≡◌, ◌-◌, ◌<◌, min, take, drop, get_or};
ghost use Rattle.table.specs.Words.{types, entries, record_word};
ghost use Rattle.table.specs.Steps.Reading.{Widened, HasRecord};

fn wide(x: u16) -> usize
    ensures { Widened x result }
{
    usize::from(x)
}

// The word at i, widened.
pub fn word_at(words: &[u16], i: usize) -> usize
    ensures { Widened (get_or words.now i 0) result }
{
    if i < words.len() { wide(words[i]) } else { 0 }
}

// E, the number of types.
pub fn types(words: &[u16]) -> usize
    ensures { Widened (types words.now) result }
{
    word_at(words, 2)
}

// C, the number of child entries.
pub fn entries(words: &[u16]) -> usize
    ensures { Widened (entries words.now) result }
{
    word_at(words, 5)
}

// Word k of the record of type t: its kind, its number of children, the index of its first child.
pub fn record_word(words: &[u16], t: usize, k: usize) -> usize
    requires { HasRecord words.now t × (k < 3) }
    ensures { Widened (record_word words.now t k) result }
{
    wide(words[8 + 3 * t + k])
}

// The lesser of two numbers.
pub fn lesser(a: usize, b: usize) -> usize
    ensures { result ≡ min a b }
{
    a.min(b)
}

// The words from a up to b, as a part of the run.
pub fn stretch(words: &[u16], a: usize, b: usize) -> &[u16]
    ensures { result.now ≡ take (b - a) (drop a words.now) }
{
    let end = lesser(b, words.len());
    let start = lesser(a, end);
    &words[start..end]
}
