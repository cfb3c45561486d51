// Writing the decided marks of a choice by a square. Contracts cite specs/Steps/Writing.
ghost use Rattle.std.specs.Prelude.{◌≡◌, true, ◌+◌, ◌-◌, ◌≤◌, ◌<◌, length};
ghost use Rattle.policy.specs.Steps.Squares.{bit, Room};
ghost use Rattle.policy.specs.Steps.Writing.{decision, RangeWritten, RowWritten, ChoiceWritten};

use super::packed::without_gap;
use super::rows::has;
use table::privilege::{Numbering, missing, row_at, width};

// Allowed or forbidden.
pub fn decided(allowed: bool) -> u8
    ensures { result ≡ decision allowed }
{
    if allowed { 1 } else { 2 }
}

// Decides some marks from a place on by the lowest bits of a row. Where there are eight the compiler writes them at once.
fn write_bits(out: &mut [u8], at: usize, bits: u16, size: usize)
    requires { (size ≤ 16) × (0 < size → at + size ≤ length out.old) }
    ensures { RangeWritten (λ p. bit bits (p - at) ≡ true) at (at + size) out.old out.new }
{
    for k in 0..size {
        out[at + k] = decided(has(bits, k));
    }
}

// Decides the replacements of the child at i: where there are eight or more, the first eight and the last eight.
fn write_row(out: &mut [u8], square: &[u16; 16], n: Numbering, i: usize)
    requires { Room n out.old × (i < n.count) }
    ensures { RowWritten n square.now i out.old out.new }
{
    let own = width(n);
    let at = row_at(n, i);
    let bits = without_gap(square[i], missing(n, i));
    if own < 8 {
        write_bits(out, at, bits, own);
        return;
    }
    let last = own - 8;
    write_bits(out, at, bits, 8);
    write_bits(out, at + last, bits >> last, 8);
}

// Decides the replacements of a choice.
pub fn write_choice(out: &mut [u8], square: &[u16; 16], n: Numbering)
    requires { Room n out.old }
    ensures { ChoiceWritten n square.now out.old out.new }
{
    for i in 0..n.count {
        write_row(out, square, n, i);
    }
}
