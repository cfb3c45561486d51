// Entries that a store keeps for each type: what is forbidden below it. Contracts cite specs/Kept, and specs/Steps/Reading for the parts.
ghost use Rattle.std.specs.Prelude.{◌≡◌, ◌*◌, ◌≤◌, ◌<◌, length};
ghost use Rattle.table.specs.Words.{types};
ghost use Rattle.verdict.specs.Kept.{entry_of, KeptBelow};
ghost use Rattle.verdict.specs.Steps.Spoils.{Flags};
ghost use Rattle.verdict.specs.Steps.Reading.{FlagOf};

use super::below::Tally;
use table::words::{types, word_at};

// 0 for a count of 0, else 1.
fn flag_of(count: u16) -> u8
    ensures { FlagOf count result }
{
    if count == 0 { 0 } else { 1 }
}

// Flags each type of which the count is not 0.
pub(crate) fn flag_kept(words: &[u16], kept: &[u16], flags: &mut [u8; 256])
    requires { (types words.now ≤ 256) × (2 * types words.now ≤ length kept.now) }
    ensures { Flags words.now (KeptBelow kept.now) flags.old flags.new }
{
    let e = types(words);
    for t in 0..e {
        flags[t] = flag_of(kept[2 * t + 1]);
    }
}

// The entry of type t.
pub(crate) fn entry_at(kept: &[u16], t: usize) -> Tally
    requires { t < 256 }
    ensures { result ≡ entry_of kept.now t }
{
    Tally {
        lowest: word_at(kept, 2 * t),
        count: word_at(kept, 2 * t + 1),
    }
}
