// Where the kinds of an old type stand among those of a new one. Contracts cite specs/Steps/Placing.
ghost use Rattle.std.specs.Prelude.{◌≤◌};
ghost use Rattle.carry.specs.Steps.Placing.{Place, Places};

use table::words::word_at;

// Where the type stands among the first n kids; n if it is none of them.
fn place_of(kids: &[u16], n: usize, c: usize) -> usize
    ensures { Place kids.now n c result }
{
    for k in 0..n {
        if word_at(kids, k) == c {
            return k;
        }
    }
    n
}

// The same, looked for at one place first.
fn place_near(kids: &[u16], n: usize, c: usize, near: usize) -> usize
    ensures { Place kids.now n c result }
{
    if near < n && word_at(kids, near) == c {
        return near;
    }
    place_of(kids, n, c)
}

// Where the new numbers of the first n kids stand among the first m others. Most stand where they stood.
pub(crate) fn places(kids: &[u16], n: usize, numbers: &[u16], others: &[u16], m: usize) -> [u16; 16]
    requires { (n ≤ 16) × (m ≤ 16) }
    ensures { Places kids.now n numbers.now others.now m result }
{
    let mut at = [0u16; 16];
    for i in 0..n {
        let y = word_at(numbers, word_at(kids, i));
        at[i] = place_near(others, m, y, i) as u16;
    }
    at
}
