// Opening the children of a type: a byte for each type, 1 where it is opened. Contracts cite specs/Steps/Writing.
ghost use Rattle.std.specs.Prelude.{◌≡◌, true, ℕ, ◌≤◌, ◌<◌, length, get_or};
ghost use Rattle.policy.specs.Steps.Squares.{marked};
ghost use Rattle.completion.specs.Steps.Writing.{KidsOpened};

use policy::rows::leads;

// Opens all children.
pub fn open_all(opened: &mut [u8; 256], kids: &[u16])
    requires { (i : ℕ) → i < length kids.now → get_or kids.now i 0 < 256 }
    ensures { KidsOpened (λ i. Unit) kids.now opened.old opened.new }
{
    for &kid in kids {
        opened[usize::from(kid)] = 1;
    }
}

// Opens each child from which the square leads back to it.
pub fn open_cycles(opened: &mut [u8; 256], kids: &[u16], square: &[u16; 16])
    requires { (length kids.now ≤ 16) × ((i : ℕ) → i < length kids.now → get_or kids.now i 0 < 256) }
    ensures { KidsOpened (λ i. marked square.now i i ≡ true) kids.now opened.old opened.new }
{
    for (i, &kid) in kids.iter().enumerate() {
        if leads(square, i, i) {
            opened[usize::from(kid)] = 1;
        }
    }
}
