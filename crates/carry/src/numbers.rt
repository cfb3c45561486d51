// Checking the list of new numbers. Contracts cite specs/Numbers and specs/Steps/Using.
ghost use Rattle.std.specs.Prelude.{◌≤◌, length};
ghost use Rattle.table.specs.Steps.Found.{Lowest, Tells};
ghost use Rattle.table.specs.Refusals.{number_in, no_place_in};
ghost use Rattle.carry.specs.Numbers.{EntryFits};
ghost use Rattle.carry.specs.Steps.Using.{Usable, UsedToo, NumbersAnswer};

use table::Refusal;

// Can the number stand, by those that are used?
fn is_usable(used: &[u8; 256], e: usize, y: usize) -> bool
    requires { e ≤ 256 }
    ensures { Tells (Usable used.now e y) result }
{
    y == 65535 || (y < e && used[y] == 0)
}

// Marks the number as used, unless it is 65,535.
fn use_number(used: &mut [u8; 256], y: usize)
    ensures { UsedToo y used.old used.new }
{
    if y < 256 {
        used[y] = 1;
    }
}

// The lowest old type whose number cannot stand.
fn lowest_off(numbers: &[u16], e: usize) -> Option<usize>
    requires { e ≤ 256 }
    ensures { Lowest (EntryFits numbers.now e) (length numbers.now) result }
{
    let mut used = [0u8; 256];
    for (x, number) in numbers.iter().enumerate() {
        let y = usize::from(*number);
        if !is_usable(&used, e, y) {
            return Some(x);
        }
        use_number(&mut used, y);
    }
    None
}

// Checks a list for some old types and e new ones: its length, then its numbers.
pub(crate) fn check_numbers(numbers: &[u16], types: usize, e: usize) -> Result<(), Refusal>
    requires { e ≤ 256 }
    ensures { NumbersAnswer types e numbers.now (number_in result) (no_place_in result) }
{
    if numbers.len() != types {
        return Err(Refusal::NumbersLength);
    }
    match lowest_off(numbers, e) {
        Some(x) => Err(Refusal::NewNumber(x)),
        None => Ok(()),
    }
}
