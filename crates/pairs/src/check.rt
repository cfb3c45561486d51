// Checking a pair of maps, and a table with its pair. Contracts cite specs/Maps, and specs/Steps/Checking for the parts.
ghost use Rattle.std.specs.Prelude.{◌≡◌, ℕ, ◌/◌, ◌≤◌, ◌<◌, length, get_or};
ghost use Rattle.std.specs.Int.Bits.{bit_and};
ghost use Rattle.table.specs.Steps.Found.{Lowest, Tells};
ghost use Rattle.table.specs.Refusals.{number_in, place_in};
ghost use Rattle.pairs.specs.Maps.{maps, bytes_for, IsSet, Sized, Apart, Spare, Roomy};
ghost use Rattle.pairs.specs.Faults.{refusal_of, fault_number, fault_place};
ghost use Rattle.pairs.specs.Steps.Checking.{PairAnswer, OrderedMaps};

use table::{Refusal, check_ordered};

// How many bytes a map of v privileges has.
pub(crate) fn bytes_for(v: usize) -> usize
    requires { v ≤ 4096 }
    ensures { result ≡ bytes_for v }
{
    (v + 7) / 8
}

// Is the bit of privilege p set?
fn is_set(map: &[u8], p: usize) -> bool
    requires { p / 8 < length map.now }
    ensures { Tells (IsSet map.now p) result }
{
    (map[p / 8] >> (p % 8)) & 1 == 1
}

// Do two maps share no bit? All bytes are looked at, many at a time: the loop is not left early.
fn none_shared(allowed: &[u8], forbidden: &[u8]) -> bool
    requires { length allowed.now ≤ length forbidden.now }
    ensures { Tells ((k : ℕ) → k < length allowed.now → bit_and (get_or allowed.now k 0) (get_or forbidden.now k 0) ≡ 0) result }
{
    let mut none = true;
    for k in 0..allowed.len() {
        none &= allowed[k] & forbidden[k] == 0;
    }
    none
}

// The lowest of v privileges that has both bits set.
fn lowest_both(allowed: &[u8], forbidden: &[u8], v: usize) -> Option<usize>
    requires { Sized v (maps allowed.now forbidden.now) × (v ≤ 4096) }
    ensures { Lowest (Apart (maps allowed.now forbidden.now)) v result }
{
    if none_shared(allowed, forbidden) {
        return None;
    }
    for p in 0..v {
        if is_set(allowed, p) && is_set(forbidden, p) {
            return Some(p);
        }
    }
    None
}

// Is a spare bit set, one behind those of v privileges?
fn has_spare(map: &[u8], v: usize) -> bool
    requires { (length map.now ≡ bytes_for v) × (v ≤ 4096) }
    ensures { Tells (Spare v map.now) result }
{
    let own = v % 8;
    if own == 0 {
        return false;
    }
    map[v / 8] >> own != 0
}

// Do both maps have the bytes for v privileges?
fn is_sized(allowed: &[u8], forbidden: &[u8], v: usize) -> bool
    requires { v ≤ 4096 }
    ensures { Tells (Sized v (maps allowed.now forbidden.now)) result }
{
    let bytes = bytes_for(v);
    allowed.len() == bytes && forbidden.len() == bytes
}

// Do both maps have room for v privileges?
pub fn is_roomy(allowed: &[u8], forbidden: &[u8], v: usize) -> bool
    requires { v ≤ 4096 }
    ensures { Tells (Roomy v (maps allowed.now forbidden.now)) result }
{
    let bytes = bytes_for(v);
    bytes <= allowed.len() && bytes <= forbidden.len()
}

// What is wrong with a pair of maps: the length of one, a privilege with both bits set, or a spare bit that is set.
#[derive(Clone, Copy, Debug, PartialEq, Eq)]
pub enum PairFault {
    Length,
    Both(usize),
    SpareBit,
}

impl From<PairFault> for Refusal {
    ghost from_gives = { λ fault refusal. refusal ≡ refusal_of fault };

    fn from(fault: PairFault) -> Refusal {
        match fault {
            PairFault::Length => Refusal::MarksLength,
            PairFault::Both(p) => Refusal::BothSet(p),
            PairFault::SpareBit => Refusal::SpareBit,
        }
    }
}

// Checks a pair of maps for v privileges: the lengths, then the bits set in both, then the spare bits.
pub fn check_pair(allowed: &[u8], forbidden: &[u8], v: usize) -> Result<(), PairFault>
    requires { v ≤ 4096 }
    ensures { (off both spare : ℕ) → PairAnswer off both spare v (maps allowed.now forbidden.now) (fault_number off both spare result) (fault_place result) }
{
    if !is_sized(allowed, forbidden, v) {
        return Err(PairFault::Length);
    }
    if let Some(p) = lowest_both(allowed, forbidden, v) {
        return Err(PairFault::Both(p));
    }
    if has_spare(allowed, v) || has_spare(forbidden, v) {
        return Err(PairFault::SpareBit);
    }
    Ok(())
}

// Checks a table, and then a pair of maps for it: V, or the first of the table's numbers, 10, 23 and 24 with its place. With V the order holds the types,
// each after its children.
pub fn check_maps(
    words: &[u16],
    allowed: &[u8],
    forbidden: &[u8],
    order: &mut [u8; 256],
) -> Result<usize, Refusal>
    ensures { OrderedMaps words.now (maps allowed.now forbidden.now) order.new (number_in result) (place_in result) }
{
    let v = check_ordered(words, order)?;
    check_pair(allowed, forbidden, v)?;
    Ok(v)
}
