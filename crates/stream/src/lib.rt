// Runs of words, bytes and 32-bit numbers from a reader, for the programs cases and random: second/README.md has the form. And as many bytes of a reader as
// there is room for.
// Arrays have a fixed size: nothing here allocates.
#![tactic(auto)]

ghost use Rattle.std.specs.Prelude.{◌≡◌, ◌<◌, ◌≤◌, ℕ, length, take, IfOk, IfErr};
ghost use Rattle.std.specs.Io.KnownBytes.{Consumes, IsAtEnd};
ghost use Rattle.stream.specs.Advances.{Advances};

use std::io;
use std::io::Read;

// Reads until the buffer is full or the reader ends, and answers how many bytes now stand at the buffer's start.
pub fn read_full<R: Read>(reader: &mut R, buffer: &mut [u8]) -> io::Result<usize>
    ensures within { IfOk result (λ n. n ≤ length buffer.new) }
    ensures bytes { IfOk result (λ n. Consumes (R.remaining reader.old) (R.remaining reader.new) (take n buffer.new)) }
    ensures end { IfOk result (λ n. n < length buffer.new → IsAtEnd (R.remaining reader.new)) }
    ensures left { IfErr result (λ _. (n : ℕ) × (n ≤ length buffer.new) × Consumes (R.remaining reader.old) (R.remaining reader.new) (take n buffer.new)) }
    ensures length { length buffer.new ≡ length buffer.old }
{
    let mut filled = 0;
    // A while: the place moves on by as many as a read gave.
    while filled < buffer.len() {
        let n = reader.read(&mut buffer[filled..])?;
        if n == 0 {
            break;
        }
        filled += n;
    }
    Ok(filled)
}

// What a run is made of: a number of one, two or four bytes, low byte first. Behind the end stands 0.
trait Readable: Copy {
    fn next<R: Read>(reader: &mut R) -> io::Result<Self>
        ensures { Advances (R.remaining reader.old) (R.remaining reader.new) };
}

impl Readable for u8 {
    fn next<R: Read>(reader: &mut R) -> io::Result<u8> {
        let mut one = [0u8; 1];
        read_full(reader, &mut one)?;
        Ok(one[0])
    }
}

impl Readable for u16 {
    fn next<R: Read>(reader: &mut R) -> io::Result<u16> {
        let mut two = [0u8; 2];
        read_full(reader, &mut two)?;
        Ok(u16::from_le_bytes(two))
    }
}

impl Readable for u32 {
    fn next<R: Read>(reader: &mut R) -> io::Result<u32> {
        let mut four = [0u8; 4];
        read_full(reader, &mut four)?;
        Ok(u32::from_le_bytes(four))
    }
}

// The kind of the next case, or nothing at the end.
pub fn next_kind<R: Read>(reader: &mut R) -> io::Result<Option<usize>>
    ensures { Advances (R.remaining reader.old) (R.remaining reader.new) }
{
    let mut one = [0u8; 1];
    if read_full(reader, &mut one)? < 1 {
        return Ok(None);
    }
    Ok(Some(usize::from(one[0])))
}

// The length of the next run, or nothing at the end.
pub fn next_run<R: Read>(reader: &mut R) -> io::Result<Option<usize>>
    ensures { Advances (R.remaining reader.old) (R.remaining reader.new) }
{
    let mut four = [0u8; 4];
    if read_full(reader, &mut four)? < 4 {
        return Ok(None);
    }
    Ok(Some(u32::from_le_bytes(four) as usize))
}

// The length of the next run, 0 at the end.
pub fn next_length<R: Read>(reader: &mut R) -> io::Result<usize>
    ensures { Advances (R.remaining reader.old) (R.remaining reader.new) }
{
    Ok(next_run(reader)?.unwrap_or(0))
}

// The next 32-bit number, low byte first, 0 at the end.
pub fn next_number<R: Read>(reader: &mut R) -> io::Result<u32>
    ensures { Advances (R.remaining reader.old) (R.remaining reader.new) }
{
    u32::next(reader)
}

// Reads this many items, or as many as there is room for.
fn read_items<T: Readable, R: Read>(
    reader: &mut R,
    count: usize,
    items: &mut [T],
) -> io::Result<usize>
    ensures within { IfOk result (λ n. n ≤ length items.new) }
    ensures length { length items.new ≡ length items.old }
    ensures read { Advances (R.remaining reader.old) (R.remaining reader.new) }
{
    let n = count.min(items.len());
    for item in items[..n].iter_mut() {
        *item = T::next(reader)?;
    }
    Ok(n)
}

// Reads this many words, or as many as there is room for.
pub fn read_words<R: Read>(reader: &mut R, count: usize, words: &mut [u16]) -> io::Result<usize>
    ensures within { IfOk result (λ n. n ≤ length words.new) }
    ensures length { length words.new ≡ length words.old }
    ensures read { Advances (R.remaining reader.old) (R.remaining reader.new) }
{
    read_items(reader, count, words)
}

// Reads this many 32-bit numbers, or as many as there is room for.
pub fn read_numbers<R: Read>(reader: &mut R, count: usize, numbers: &mut [u32]) -> io::Result<usize>
    ensures within { IfOk result (λ n. n ≤ length numbers.new) }
    ensures length { length numbers.new ≡ length numbers.old }
    ensures read { Advances (R.remaining reader.old) (R.remaining reader.new) }
{
    read_items(reader, count, numbers)
}

// Reads this many bytes, or as many as there is room for.
pub fn read_bytes<R: Read>(reader: &mut R, count: usize, run: &mut [u8]) -> io::Result<usize>
    ensures within { IfOk result (λ n. n ≤ length run.new) }
    ensures length { length run.new ≡ length run.old }
    ensures read { Advances (R.remaining reader.old) (R.remaining reader.new) }
{
    read_items(reader, count, run)
}
