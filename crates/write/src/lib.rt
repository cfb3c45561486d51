// From the code of a text's declarations to the words of their table. Contracts cite specs/Steps/Code.
// Arrays have a fixed size: nothing here allocates.
#![tactic(auto)]

ghost use Rattle.std.specs.Prelude.{◌≤◌, List};
ghost use Rattle.grammar.specs.Tree.{Declaration};
ghost use Rattle.write.specs.Steps.Code.{Coded, Counted, Written};
ghost use Rattle.write.specs.Steps.Writing.{Puts, head_of};

mod read;
mod row;

// How many types and child entries a table has.
#[derive(Clone, Copy)]
pub struct Counts {
    pub types: usize,
    pub kids: usize,
}

// How many types and child entries a code makes.
pub fn count(code: &[u32]) -> Counts
    ensures { (ds : List Declaration) → Coded ds code.now → Counted ds result.types result.kids }
{
    if code.len() > 1280 {
        return Counts { types: 0, kids: 0 };
    }
    let mut types = 0;
    let mut kids = 0;
    for word in code {
        let w = read::wide(*word);
        let extra = read::extra(w);
        types += read::own(w) + extra;
        kids += read::operands(w) + extra + read::star(w);
    }
    Counts { types, kids }
}

// Writes the words before the records, word 7 as 0.
fn write_header(counts: Counts, out: &mut [u16; 1800])
    requires { (counts.types ≤ 256) × (counts.kids ≤ 1024) }
    ensures { Puts out.old 0 (head_of counts.types counts.kids) out.new }
{
    let list = 8 + 3 * counts.types;
    out[0] = 1;
    out[1] = (list + counts.kids) as u16;
    out[2] = counts.types as u16;
    out[3] = 0;
    out[4] = 8;
    out[5] = counts.kids as u16;
    out[6] = list as u16;
    out[7] = 0;
}

// Writes the table of the declarations whose code this is, all but its word 7, which is left 0.
pub fn write_rules(code: &[u32], declared: usize, counts: Counts, out: &mut [u16; 1800])
    ensures { Written code.now out.new declared counts.types counts.kids }
{
    if code.len() > 1280 || declared > 256 || counts.types > 256 || counts.kids > 1024 {
        return;
    }
    write_header(counts, out);
    let base = 8 + 3 * counts.types;
    let none = Counts { types: 0, kids: 0 };
    let next = row::write_pass(code, false, declared, base, none, out);
    row::write_pass(code, true, declared, base, next, out);
}
