// Text put into a lent buffer. Contracts cite specs/Text, specs/Steps/Putting and crate runs.
// Arrays have a fixed size: nothing here allocates.
#![tactic(auto)]

ghost use Rattle.std.specs.Prelude.{◌+◌, ◌*◌, ◌≤◌, ◌∷◌, length};
ghost use Rattle.lines.specs.Text.{raised, decimal, numbers, marks_text, line};
ghost use Rattle.runs.specs.Putting.{Puts};
ghost use Rattle.lines.specs.Steps.Putting.{Raisable};

// Puts bytes, each raised by a number: 0 for text, 48 for digits.
fn put(out: &mut [u8], at: usize, bytes: &[u8], by: u8) -> usize
    requires { (at + length bytes.now ≤ length out.old) × Raisable by bytes.now }
    ensures { Puts (raised by bytes.now) out.old at out.new result }
{
    for (k, byte) in bytes.iter().enumerate() {
        out[at + k] = *byte + by;
    }
    at + bytes.len()
}

// Puts the decimal digits of a number.
fn put_number(out: &mut [u8], at: usize, n: usize) -> usize
    requires { at + 20 ≤ length out.old }
    ensures { Puts (decimal n) out.old at out.new result }
{
    let mut digits = [0u8; 20];
    let k = io::decimal(n as u64, &mut digits);
    put(out, at, &digits[..k], 0)
}

// Puts a blank and a number.
fn put_spaced(out: &mut [u8], at: usize, n: usize) -> usize
    requires { at + 21 ≤ length out.old }
    ensures { Puts (32 ∷ decimal n) out.old at out.new result }
{
    let digits = put(out, at, b" ", 0);
    put_number(out, digits, n)
}

// Puts a blank and a number, for each.
fn put_numbers(out: &mut [u8], at: usize, ns: &[usize]) -> usize
    requires { at + 21 * length ns.now ≤ length out.old }
    ensures { Puts (numbers ns.now) out.old at out.new result }
{
    let mut end = at;
    for n in ns {
        end = put_spaced(out, end, *n);
    }
    end
}

// Puts a blank and the marks as digits, or nothing where there is none.
fn put_marks(out: &mut [u8], at: usize, marks: &[u8]) -> usize
    requires { (at + 1 + length marks.now ≤ length out.old) × Raisable 48 marks.now }
    ensures { Puts (marks_text marks.now) out.old at out.new result }
{
    if marks.is_empty() {
        return at;
    }
    let digits = put(out, at, b" ", 0);
    put(out, digits, marks, 48)
}

// Puts a line: a word, the numbers and the marks.
pub fn put_line(out: &mut [u8], at: usize, word: &[u8], ns: &[usize], marks: &[u8]) -> usize
    requires { (at + length word.now + 21 * length ns.now + length marks.now + 2 ≤ length out.old) × Raisable 48 marks.now }
    ensures { Puts (line word.now ns.now marks.now) out.old at out.new result }
{
    let first = put(out, at, word, 0);
    let second = put_numbers(out, first, ns);
    let third = put_marks(out, second, marks);
    put(out, third, b"\n", 0)
}
