// Entering the labels one by one, each behind those so far. Functions take every text; what does not fit is left out. Contracts cite
// specs/Steps/Entered.
ghost use Rattle.std.specs.Prelude.{◌≡◌, ◌%◌, ◌<◌};
ghost use Rattle.labels.specs.Labels.{digit};
ghost use Rattle.labels.specs.Steps.Entered.{made_label, Entered, DeclaredRead};

use names::walk::{Declared, declaration_from, name_end, place_behind};
use runs::{part, put};
use table::words::word_at;

// Enters a name as the label of type x: it stands behind the labels so far, and the next one begins behind it.
fn enter(name: &[u8], names: &mut [u8; 8192], starts: &mut [u16; 257], x: usize)
    ensures { Entered name.now names.old starts.old x names.new starts.new }
{
    if 255 < x {
        return;
    }
    if 32 < name.len() {
        return;
    }
    let end = put(name, names, word_at(starts, x));
    if 8192 < end {
        return;
    }
    starts[x + 1] = end as u16;
}

// The last decimal digit of a number.
fn digit_of(n: usize) -> u8
    ensures { result ≡ digit (n % 10) }
{
    b'0' + (n % 10) as u8
}

// Enters the label of the made type x.
pub(crate) fn enter_made(names: &mut [u8; 8192], starts: &mut [u16; 257], x: usize)
    requires { x < 256 }
    ensures { Entered (made_label x) names.old starts.old x names.new starts.new }
{
    if x < 10 {
        let label = [b'#', digit_of(x)];
        enter(&label, names, starts, x);
        return;
    }
    if x < 100 {
        let label = [b'#', digit_of(x / 10), digit_of(x)];
        enter(&label, names, starts, x);
        return;
    }
    let label = [b'#', digit_of(x / 100), digit_of(x / 10), digit_of(x)];
    enter(&label, names, starts, x);
}

// Enters the names of the declared types, and answers how many there are.
pub(crate) fn enter_declared(s: &[u8], names: &mut [u8; 8192], starts: &mut [u16; 257]) -> usize
    ensures { DeclaredRead s.now names.old starts.old names.new starts.new result }
{
    starts[0] = 0;
    let mut at = 0;
    let mut count = 0;
    // A while: declarations have any length.
    while let Some(Declared { name, body }) = declaration_from(s, at) {
        enter(part(s, name, name_end(s, name)), names, starts, count);
        at = place_behind(s, at, body);
        count += 1;
    }
    count
}
