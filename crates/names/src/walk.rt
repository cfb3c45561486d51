// The reader of declarations: the text and the place in it, carried from one declaration to the next. Functions on a slice and a number do the
// work. They take every text; what they say is said of a text of the grammar. Contracts cite specs/Steps.
ghost use Rattle.std.specs.Prelude.{◌≡◌, ◌≤◌, length};
ghost use Rattle.names.specs.Steps.Walk.{NextRead, BehindRead};
ghost use Rattle.names.specs.Steps.Pieces.{NameEnd, RemarkRead, ElementRead};

use scan::bytes::{Class, is, is_of};
use scan::piece::blanks;

// A declaration: the places of its name and of its content.
#[derive(Clone, Copy, PartialEq, Eq)]
pub struct Declared {
    pub name: usize,
    pub body: usize,
}

#[derive(Clone, Copy)]
pub struct Reader<'a> {
    pub text: &'a [u8],
    pub at: usize,
}

// The place behind the bytes of a name, none or more.
pub fn name_end(s: &[u8], at: usize) -> usize
    ensures { NameEnd s.now at result }
{
    for i in at..s.len() {
        if !is_of(s, i, Class::Name) {
            return i;
        }
    }
    at.max(s.len())
}

// The place behind a comment, from behind its '<!--' on.
fn remark_end(s: &[u8], at: usize) -> usize
    ensures { RemarkRead s.now at result }
{
    let mut i = at;
    // A while: a '-' and the byte behind it are passed at once.
    while i < s.len() {
        if is(s, i, b'-') {
            if is(s, i + 1, b'-') {
                return i + 3;
            }
            i += 2;
        } else {
            i += 1;
        }
    }
    i
}

// The declaration at a place, if the text is long enough.
fn declared_at(s: &[u8], at: usize) -> Option<Declared>
    requires { at ≤ length s.now }
    ensures { ElementRead s.now at result }
{
    if s.len() < at + 9 {
        return None;
    }
    let name = blanks(s, at + 9);
    let body = blanks(s, name_end(s, name));
    Some(Declared { name, body })
}

// The first declaration from a place on, if one is left.
fn next_at(s: &[u8], at: usize) -> Option<Declared>
    ensures { NextRead s.now at result }
{
    let mut i = at;
    // A while: comments have any length.
    while i < s.len() {
        if is_of(s, i, Class::Space) {
            i += 1;
        } else if is(s, i + 2, b'-') {
            i = remark_end(s, i + 4);
        } else {
            return declared_at(s, i);
        }
    }
    None
}

// The place behind the declaration whose content stands at a place.
fn behind_at(s: &[u8], body: usize) -> usize
    ensures { BehindRead s.now body result }
{
    for i in body..s.len() {
        if s[i] == b'>' {
            return i + 1;
        }
    }
    body.max(s.len())
}

// The first declaration from the reader's place on.
pub fn next_declaration<'a>(r: Reader<'a>) -> Option<Declared>
    ensures { NextRead r.entry.text.now r.entry.at result }
{
    next_at(r.text, r.at)
}

// The same reader behind the declaration whose content stands at a place.
pub fn behind<'a>(r: Reader<'a>, body: usize) -> Reader<'a>
    ensures { (result.text ≡ r.entry.text) × BehindRead r.entry.text.now body result.at }
{
    let at = behind_at(r.text, body);
    Reader { text: r.text, at }
}

// The first declaration from a place on, by a reader there: a loop passes the text and the place, and makes a reader for each declaration.
pub fn declaration_from(s: &[u8], at: usize) -> Option<Declared>
    ensures { NextRead s.now at result }
{
    next_declaration(Reader { text: s, at })
}

// The place of that reader behind the declaration whose content stands at a place.
pub fn place_behind(s: &[u8], at: usize, body: usize) -> usize
    ensures { BehindRead s.now body result }
{
    let r = behind(Reader { text: s, at }, body);
    r.at
}
