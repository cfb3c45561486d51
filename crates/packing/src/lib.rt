// A table in a file: its words, low byte first, as judge reads them; and the line with which a program refuses its input. Contracts cite specs/Bytes.
// Arrays have a fixed size: nothing here allocates.
#![tactic(auto)]

ghost use Rattle.std.specs.Prelude.{◌+◌, ◌*◌, ◌/◌, ◌%◌, ◌<◌, ◌≤◌, min, ◌≡◌, length, get_or, set, OnOk};
ghost use Rattle.std.specs.Io.KnownBytes.{Appends};
ghost use Rattle.packing.specs.Bytes.{Packed, PutTable, refusal_line};

use std::io;
use std::io::Write;
use table::words::word_at;

// Writes a word as two bytes.
fn put_word(word: u16, at: usize, bytes: &mut [u8])
    requires { at + 1 < length bytes.old }
    ensures { bytes.new ≡ set (set bytes.old at (word % 256)) (at + 1) (word / 256) }
{
    let [low, high] = word.to_le_bytes();
    bytes[at] = low;
    bytes[at + 1] = high;
}

// Writes words as bytes.
pub fn pack(words: &[u16], bytes: &mut [u8])
    requires { 2 * length words.now ≤ length bytes.old }
    ensures { Packed words.now (length words.now) bytes.new }
{
    for (k, word) in words.iter().enumerate() {
        put_word(*word, 2 * k, bytes);
    }
}

// How many words a table has: as many as its word 1 says, and no more than there are.
pub fn words_of(words: &[u16; 1800]) -> usize
    ensures { result ≡ min (get_or words.now 1 0) 1800 }
{
    word_at(words, 1).min(1800)
}

// Writes a table.
pub fn put_table<W: Write>(out: &mut W, words: &[u16; 1800]) -> io::Result<()>
    ensures { OnOk result (PutTable words.now (min (get_or words.now 1 0) 1800) (W.contents out.old) (W.contents out.new)) }
{
    let mut bytes = [0u8; 3600];
    pack(words, &mut bytes);
    let n = words_of(words);
    out.write_all(&bytes[0..2 * n])
}

// Writes a refusal: a word, the number and the place.
pub fn put_refusal<W: Write>(out: &mut W, word: &[u8], number: u8, place: usize) -> io::Result<()>
    ensures { OnOk result (Appends (W.contents out.old) (W.contents out.new) (refusal_line word.now number place)) }
{
    out.write_all(word)?;
    writeln!(out, " {number} {place}")
}
