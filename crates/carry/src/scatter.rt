// Moving marks: the lost bytes before the first mark is moved, and one mark. Contracts cite specs/Steps/Scattering.
ghost use Rattle.std.specs.Prelude.{◌≡◌, ℕ, ◌+◌, ◌≤◌, ◌<◌, length, get_or};
ghost use Rattle.carry.specs.Steps.Scattering.{Pair, Pairs, Scattered, set_byte};

// 1 if the mark is set, else 0.
fn set_byte(mark: u8) -> u8
    ensures { result ≡ set_byte mark }
{
    if mark == 0 { 0 } else { 1 }
}

// Counts every mark that is set as lost.
pub(crate) fn lose_all(marks: &[u8], lost: &mut [u8])
    requires { length lost.old ≡ length marks.now }
    ensures { (length lost.new ≡ length lost.old) × ((p : ℕ) → p < length lost.old → get_or lost.new p 0 ≡ set_byte (get_or marks.now p 0)) }
{
    for (p, mark) in marks.iter().enumerate() {
        lost[p] = set_byte(*mark);
    }
}

// Moves the mark of the old privilege p to the new one q.
pub(crate) fn move_mark(marks: &[u8], p: usize, q: usize, out: &mut [u8], lost: &mut [u8])
    requires { (p < length marks.now) × (p < length lost.old) × (q < length out.old) }
    ensures { Scattered (Pair p q) marks.now out.old lost.old out.new lost.new }
{
    out[q] = marks[p];
    lost[p] = 0;
}

// Moves as many marks from the old privilege p on to the new ones from q on.
pub(crate) fn move_marks(
    marks: &[u8],
    p: usize,
    q: usize,
    size: usize,
    out: &mut [u8],
    lost: &mut [u8],
)
    requires { 0 < size → (p + size ≤ length marks.now) × (p + size ≤ length lost.old) × (q + size ≤ length out.old) }
    ensures { Scattered (Pairs p q size) marks.now out.old lost.old out.new lost.new }
{
    for k in 0..size {
        move_mark(marks, p + k, q + k, out, lost);
    }
}
