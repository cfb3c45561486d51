// Reading DTD text into a table. The contracts of read_format and read_dtd cite specs/Answer; those of their passes cite specs/Steps.
// Arrays have a fixed size: nothing here allocates.
#![tactic(auto)]

ghost use Rattle.std.specs.Prelude.{List};
ghost use Rattle.grammar.specs.Tree.{Declaration};
ghost use Rattle.table.specs.Refusals.{number_in, place_in};
ghost use Rattle.scan.specs.Steps.Scanned.{Read};
ghost use Rattle.model.specs.Tables.{table_of};
ghost use Rattle.dtd.specs.Answer.{KnownFormat, DtdAnswer};
ghost use Rattle.dtd.specs.Steps.Last.{Last};
ghost use Rattle.dtd.specs.Steps.Stages.{Collected, Encoded, Writable};

mod finish;

use code::{Code, put_all};
use finish::finish;
use names::list::NameList;
use names::{collect, first_misnamed};
use scan::{Stop, scan};
use table::Refusal;
use write::{Counts, count, write_rules};

// A table has no more types, and no more child entries.
const MOST_TYPES: usize = 256;

const MOST_KIDS: usize = 1024;

// Writes the table of a code, and answers for it.
fn read_table(
    code: &[u32],
    declared: usize,
    counts: Counts,
    format: u16,
    out: &mut [u16],
) -> Result<usize, Refusal>
    requires { KnownFormat format × ((ds : List Declaration) × Writable ds code.now declared counts.types counts.kids) }
    ensures { (ds : List Declaration) → Writable ds code.now declared counts.types counts.kids
        → Last (table_of format ds) out.old (number_in result) (place_in result) out.new }
{
    let mut words = [0u16; 1800];
    write_rules(code, declared, counts, &mut words);
    let n = 8 + 3 * counts.types + counts.kids;
    finish(&mut words[..n], format, out)
}

// Counts types and child entries, and looks for a name that is declared twice or not at all.
fn read_code(
    text: &[u8],
    names: &NameList,
    code: &[u32],
    format: u16,
    out: &mut [u16],
) -> Result<usize, Refusal>
    requires { KnownFormat format × Encoded text.now names.now.entries names.now.count code.now }
    ensures { DtdAnswer text.now out.old format (number_in result) (place_in result) out.new }
{
    let counts = count(code);
    if counts.types > MOST_TYPES || counts.kids > MOST_KIDS {
        return Err(Refusal::TooLarge(text.len()));
    }
    match first_misnamed(text, names) {
        Some(at) => Err(Refusal::Misnamed(at)),
        None => read_table(code, names.count, counts, format, out),
    }
}

// Puts the declarations into code.
fn read_named(text: &[u8], names: &NameList, format: u16, out: &mut [u16]) -> Result<usize, Refusal>
    requires { KnownFormat format × Collected text.now names.now.entries names.now.count }
    ensures { DtdAnswer text.now out.old format (number_in result) (place_in result) out.new }
{
    let mut code = Code {
        words: [0; 1280],
        size: 0,
    };
    put_all(text, names, &mut code);
    if code.size > 1280 {
        return Err(Refusal::TooLarge(text.len()));
    }
    read_code(text, names, &code.words[..code.size], format, out)
}

// Collects the declared names of a text of the grammar.
fn read_text(text: &[u8], format: u16, out: &mut [u16]) -> Result<usize, Refusal>
    requires { KnownFormat format × Read text.now }
    ensures { DtdAnswer text.now out.old format (number_in result) (place_in result) out.new }
{
    let mut names = NameList {
        entries: [0; 512],
        count: 0,
    };
    collect(text, &mut names);
    if names.count > 256 {
        return Err(Refusal::TooLarge(text.len()));
    }
    read_named(text, &names, format, out)
}

// Reads DTD text, whatever it holds: V where its table of this format, 1 or 2, was written to the front of out, else the refusal.
pub fn read_format(text: &[u8], format: u16, out: &mut [u16]) -> Result<usize, Refusal>
    requires { KnownFormat format }
    ensures { DtdAnswer text.now out.old format (number_in result) (place_in result) out.new }
{
    match scan(text) {
        Ok(_) => read_text(text, format, out),
        Err(Stop::Bad(k)) => Err(Refusal::NoText(k)),
        Err(Stop::Over(k)) => Err(Refusal::TooLarge(k)),
    }
}

// Reads DTD text into a table of format 1.
pub fn read_dtd(text: &[u8], out: &mut [u16]) -> Result<usize, Refusal>
    ensures { DtdAnswer text.now out.old 1 (number_in result) (place_in result) out.new }
{
    read_format(text, 1, out)
}
