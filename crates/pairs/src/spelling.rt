// Maps spelled into marks, and marks into maps, a byte of each map at a time. Contracts cite specs/Steps/Spelling.
ghost use Rattle.std.specs.Prelude.{◌≡◌, ℕ, ◌+◌, ◌*◌, ◌/◌, ◌%◌, ◌^◌, ◌≤◌, ◌<◌, length, get_or, List};
ghost use Rattle.policy.specs.Marks.{Legal};
ghost use Rattle.pairs.specs.Maps.{maps, maps_of, Roomy, before};
ghost use Rattle.pairs.specs.Steps.Spelling.{ByteSpelled, Spelled, Unspelled};

use super::check::bytes_for;
use policy::packed::{eight, gathered};

// Bit j of a byte.
fn bit(byte: u8, j: usize) -> u8
    requires { j < 8 }
    ensures { result ≡ byte / 2 ^ j % 2 }
{
    (byte >> j) & 1
}

// Writes the eight marks that a byte of each map spells.
fn spell_byte(marks: &mut [u8; 4096], at: usize, allowed: u8, forbidden: u8)
    requires { at + 8 ≤ 4096 }
    ensures { ByteSpelled allowed forbidden at marks.old marks.new }
{
    for j in 0..8 {
        marks[at + j] = bit(allowed, j) + 2 * bit(forbidden, j);
    }
}

// Writes the marks that two maps spell.
pub fn spell(allowed: &[u8], forbidden: &[u8], marks: &mut [u8; 4096])
    requires { (length allowed.now ≤ 512) × (length forbidden.now ≡ length allowed.now) }
    ensures { Spelled (length allowed.now) (maps allowed.now forbidden.now) marks.old marks.new }
{
    for k in 0..allowed.len() {
        spell_byte(marks, 8 * k, allowed[k], forbidden[k]);
    }
}

// Writes the maps of marks, which are 0, 1 or 2.
fn unspell(marks: &[u8], allowed: &mut [u8], forbidden: &mut [u8])
    requires { (length marks.now ≡ 4096) × ((p : ℕ) → p < 4096 → Legal marks.now p) × (length allowed.old ≤ 512) × (length forbidden.old ≡ length allowed.old) }
    ensures { Unspelled 1 marks.now allowed.new allowed.old × Unspelled 2 marks.now forbidden.new forbidden.old }
{
    for k in 0..allowed.len() {
        let marked = eight(marks, 8 * k);
        allowed[k] = gathered(marked) as u8;
        forbidden[k] = gathered(marked / 2) as u8;
    }
}

// Writes the maps of the first v marks, behind which all are 0, into a result that has room for them.
pub fn write_maps(marks: &[u8], v: usize, allowed: &mut [u8], forbidden: &mut [u8])
    requires { (length marks.now ≡ 4096) × ((p : ℕ) → p < 4096 → Legal marks.now p) × (v ≤ 4096) × Roomy v (maps allowed.old forbidden.old) }
    ensures { (n : List ℕ) → length n ≡ v → ((p : ℕ) → get_or marks.now p 0 ≡ get_or n p 0) → maps allowed.new forbidden.new ≡ before (maps_of n) (maps allowed.old forbidden.old) }
{
    let bytes = bytes_for(v);
    unspell(marks, &mut allowed[0..bytes], &mut forbidden[0..bytes]);
}
