// From the words of a table but for its V to the answer.
ghost use Rattle.std.specs.Prelude.{◌+◌, ◌*◌, ◌≤◌, ◌≡◌, List, length};
ghost use Rattle.table.specs.Words.{types};
ghost use Rattle.table.specs.Refusals.{number_in, place_in};
ghost use Rattle.grammar.specs.Tree.{Declaration};
ghost use Rattle.write.specs.Steps.Code.{untotalled};
ghost use Rattle.model.specs.Tables.{table_of};
ghost use Rattle.dtd.specs.Answer.{KnownFormat};
ghost use Rattle.dtd.specs.Steps.Last.{Last, TotalRead, Small};

use table::privilege::privileges_at;
use table::words::{record_word, types};
use table::{Check, Refusal, check_table};

// The lowest type with over 16 children.
#[derive(Clone, Copy)]
struct TooWide {
    element: usize,
}

// V, if no type is too wide.
fn add_up(words: &[u16]) -> Result<usize, TooWide>
    requires { 8 + 3 * types words.now ≤ length words.now }
    ensures { TotalRead words.now result }
{
    let mut v = 0;
    for t in 0..types(words) {
        if record_word(words, t, 1) > 16 {
            return Err(TooWide { element: t });
        }
        v += privileges_at(words, t);
    }
    Ok(v)
}

// The answer for a whole table, which is written to the front of out.
fn answer(words: &[u16], out: &mut [u16]) -> Result<usize, Refusal>
    ensures { Last words.now out.old (number_in result) (place_in result) out.new }
{
    let v = check_table(words)?;
    if out.len() < words.len() {
        return Err(Refusal::ResultLength);
    }
    out[..words.len()].copy_from_slice(words);
    Ok(v)
}

// The answer for a table of a format: lent are its words in format 1, of which word 7 is still to be written.
pub(crate) fn finish(words: &mut [u16], format: u16, out: &mut [u16]) -> Result<usize, Refusal>
    requires { KnownFormat format × ((ds : List Declaration) × Small ds × (words.old ≡ untotalled ds)) }
    ensures { (ds : List Declaration) → Small ds → words.old ≡ untotalled ds → Last (table_of format ds) out.old (number_in result) (place_in result) out.new }
{
    words[0] = format;
    match add_up(words) {
        Ok(v) => {
            words[7] = v as u16;
            answer(words, out)
        }
        Err(TooWide { element }) => Err(Refusal::Table(Check::Count, element)),
    }
}
