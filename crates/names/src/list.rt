// The list of the declared names in the order of their bytes, so that a name is found in few steps however names begin.
// Contracts cite specs/Steps/Order and specs/Steps/Names.
ghost use Rattle.std.specs.Prelude.{suc, ◌≡◌, List, ℕ, ◌≤◌, ◌<◌, min, length};
ghost use Rattle.scan.specs.Steps.Readers.{Tells};
ghost use Rattle.names.specs.Steps.Walk.{NameAt};
ghost use Rattle.names.specs.Steps.Order.{Upto};
ghost use Rattle.names.specs.Steps.Names.{RankRead, BeforeRead, NumberRead, Entered};
ghost use Rattle.names.specs.Steps.Shifting.{Shifted};

use scan::bytes::{Class, is, is_of};
use table::words::word_at;

// The name at a is that at b, or stands before it.
fn upto(s: &[u8], a: usize, b: usize) -> bool
    ensures { (n m : List ℕ) → NameAt s.now a n → NameAt s.now b m → Tells (Upto n m) result }
{
    let mut j = b;
    for i in a..s.len() {
        if !is_of(s, i, Class::Name) {
            return true;
        }
        if !is(s, j, s[i]) {
            return is_of(s, j, Class::Name) && s[i] < s[j];
        }
        j += 1;
    }
    true
}

// The names of the first 256 declarations, and how many declarations there are. An entry has two words: the place of a name in the text, and its
// number, that of the first declaration with this name.
#[derive(Drop)]
pub struct NameList {
    pub entries: [u16; 512],
    pub count: usize,
}

// Moves the words from a place up to another on by two.
fn shift(entries: &mut [u16; 512], low: usize, high: usize)
    requires { high ≤ 510 }
    ensures { Shifted 2 entries.old entries.new low high }
{
    if low < high {
        entries.copy_within(low..high, low + 2);
    }
}

impl NameList {
    // How many of the entries are the name at a place, or stand before it.
    fn rank(&self, s: &[u8], at: usize) -> usize
        ensures { RankRead s.now self.now.entries (min self.now.count 256) at result }
    {
        let mut low = 0;
        let mut high = self.count.min(256);
        // A while: half of what is left is passed at once.
        while low < high {
            let mid = low + (high - low) / 2;
            if upto(s, word_at(&self.entries, 2 * mid), at) {
                low = mid + 1;
            } else {
                high = mid;
            }
        }
        low
    }

    // The number of the name at a place, whose rank is k, or the count where it has no entry: only the last of those that stand up to it can be
    // its own.
    fn number_before(&self, s: &[u8], k: usize, at: usize) -> usize
        requires { k ≤ 256 }
        ensures { BeforeRead s.now self.now.entries k at self.now.count result }
    {
        if k == 0 {
            return self.count;
        }
        if upto(s, at, word_at(&self.entries, 2 * k - 2)) {
            return word_at(&self.entries, 2 * k - 1);
        }
        self.count
    }

    // The number of the name at a place: of the first declaration with this name, and the count where there is none.
    pub fn number(&self, s: &[u8], at: usize) -> usize
        ensures { NumberRead s.now self.now.entries self.now.count at result }
    {
        let k = self.rank(s, at);
        self.number_before(s, k, at)
    }

    // Enters the name at a place as that of the next declaration, if that is one of the first 256. It is still to be counted.
    pub(crate) fn enter(&mut self, s: &[u8], at: usize)
        ensures { Entered s.now self.old.entries self.old.count at self.new.entries × (self.new.count ≡ self.old.count) }
    {
        if self.count < 256 && at < 65536 {
            let k = self.rank(s, at);
            let n = self.number_before(s, k, at);
            shift(&mut self.entries, 2 * k, 2 * self.count);
            self.entries[2 * k] = at as u16;
            self.entries[2 * k + 1] = n as u16;
        }
    }
}
