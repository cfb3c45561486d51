// Reaching within a choice: the closure of the allowed replacements. Contracts cite specs/Reached, and specs/Steps/Squares for the rows.
ghost use Rattle.std.specs.Prelude.{◌≤◌};
ghost use Rattle.table.specs.Plus.{Plus};
ghost use Rattle.table.specs.Rule.{IsChoice, count_of};
ghost use Rattle.table.specs.Steps.Numbering.{NumberedAs};
ghost use Rattle.policy.specs.Marks.{Allowed, Policy};
ghost use Rattle.policy.specs.Reached.{Reached};
ghost use Rattle.policy.specs.Steps.Squares.{Marked, Square, StepIn};

use super::rows::{allowed_rows, join};
use table::privilege::Numbering;

// One or more steps of the rows, between the first n positions.
fn close(rows: [u16; 16], n: usize) -> [u16; 16]
    requires { n ≤ 16 }
    ensures { Square n (Plus (Marked n rows)) result }
{
    let mut closed = rows;
    for k in 0..n {
        join(&mut closed, k);
    }
    closed
}

// What is reached from what at the choice x of a policy, by its steps.
pub fn reached_by(
    words: &[u16],
    marks: &[u8],
    x: usize,
    n: Numbering,
    steps: [u16; 16],
) -> [u16; 16]
    requires { Policy words.now marks.now × IsChoice words.now x × NumberedAs words.now x n × Square n.count (StepIn marks.now n) steps }
    ensures { Square (count_of words.now x) (Reached words.now (Allowed marks.now) x) result }
{
    close(steps, n.count)
}

// What is reached from what at the choice x of a policy, by its numbering.
pub fn reached(words: &[u16], marks: &[u8], x: usize, n: Numbering) -> [u16; 16]
    requires { Policy words.now marks.now × IsChoice words.now x × NumberedAs words.now x n }
    ensures { Square (count_of words.now x) (Reached words.now (Allowed marks.now) x) result }
{
    reached_by(words, marks, x, n, allowed_rows(marks, n))
}
