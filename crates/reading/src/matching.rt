// Looking for the parts of a line in a listing, each with the byte that ends it. Contracts cite specs/Steps/Matching.
ghost use Rattle.std.specs.Prelude.{ℕ, ◌≤◌, ◌<◌, [], ◌∷◌, length, get_or};
ghost use Rattle.labels.specs.Steps.Booked.{label_in};
ghost use Rattle.listing.specs.Line.{spaced};
ghost use Rattle.reading.specs.Steps.Matching.{ended, blanked, Matched, Sought, SignRead};

use labels::Labels;
use runs::is_same;
use table::words::word_at;

// A number by the text that stands for it, and the place behind that text.
#[derive(Clone, Copy)]
pub(crate) struct Ended {
    pub number: usize,
    pub end: usize,
}

// The place behind a word and the byte that ends it, if they stand at a place.
pub(crate) fn after(l: &[u8], at: usize, word: &[u8], stop: u8) -> Option<usize>
    requires { at ≤ length l.now }
    ensures { Matched l.now at (ended word.now stop) result }
{
    if l.len() - at <= word.len() {
        return None;
    }
    let end = at + word.len();
    if l[end] == stop && is_same(&l[at..end], word) {
        Some(end + 1)
    } else {
        None
    }
}

// The same of a line of two parts.
pub(crate) fn after_two(l: &[u8], at: usize, first: &[u8], second: &[u8]) -> Option<usize>
    requires { at ≤ length l.now }
    ensures { Matched l.now at (spaced first.now (second.now ∷ [])) result }
{
    let next = after(l, at, first, b' ')?;
    after(l, next, second, b'\n')
}

// The same of a line of three parts.
pub(crate) fn after_three(
    l: &[u8],
    at: usize,
    first: &[u8],
    second: &[u8],
    third: &[u8],
) -> Option<usize>
    requires { at ≤ length l.now }
    ensures { Matched l.now at (spaced first.now (second.now ∷ third.now ∷ [])) result }
{
    let next = after(l, at, first, b' ')?;
    after_two(l, next, second, third)
}

// The first of the first n kids whose label and the byte that ends it stand at a place.
pub(crate) fn find_kid(
    labels: Labels<'_>,
    kids: &[u16],
    n: usize,
    l: &[u8],
    at: usize,
    stop: u8,
) -> Option<Ended>
    requires { (at ≤ length l.now) × ((k : ℕ) → k < n → get_or kids.now k 0 < 256) }
    ensures { Sought (λ k. ended (label_in labels.entry.names.now labels.entry.starts.now (get_or kids.now k 0)) stop) l.now at 0 n result }
{
    for k in 0..n {
        if let Some(end) = after(l, at, labels.label(word_at(kids, k)), stop) {
            return Some(Ended { number: k, end });
        }
    }
    None
}

// The first of the types between two whose label and a blank stand at a place.
fn find_between(labels: Labels<'_>, from: usize, to: usize, l: &[u8], at: usize) -> Option<Ended>
    requires { (at ≤ length l.now) × (to ≤ 256) }
    ensures { Sought (λ x. blanked (label_in labels.entry.names.now labels.entry.starts.now x)) l.now at from to result }
{
    for x in from..to {
        if let Some(end) = after(l, at, labels.label(x), b' ') {
            return Some(Ended { number: x, end });
        }
    }
    None
}

// The type whose label and a blank stand at a place, looked for from the type of the line before on, which is where it is in an ascending listing.
pub(crate) fn find_type(
    labels: Labels<'_>,
    e: usize,
    l: &[u8],
    at: usize,
    near: usize,
) -> Option<Ended>
    requires { (at ≤ length l.now) × (e ≤ 256) × (near ≤ e) }
    ensures { Sought (λ x. blanked (label_in labels.entry.names.now labels.entry.starts.now x)) l.now at 0 e result }
{
    let behind = find_between(labels, near, e, l, at);
    if behind.is_some() {
        return behind;
    }
    find_between(labels, 0, near, l, at)
}

// The mark of the sign that stands at a place with a blank behind it.
pub(crate) fn sign_at(l: &[u8], at: usize) -> Option<u8>
    requires { at ≤ length l.now }
    ensures { SignRead l.now at result }
{
    if after(l, at, b"+", b' ').is_some() {
        Some(1)
    } else if after(l, at, b"-", b' ').is_some() {
        Some(2)
    } else {
        None
    }
}
