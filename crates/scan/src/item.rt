// Readers of contents (46, 51), declarations (45) and comments (15).
ghost use Rattle.std.specs.Prelude.{◌≤◌, Bool, true, ◌≡◌, length};
ghost use Rattle.scan.specs.Steps.Claims.{NameThen, SpecThen, TextThen, PcdataThen, FromItems, FromEnd, FromNamed};
ghost use Rattle.scan.specs.Steps.Claims.{FromElement, FromKeyword, FromRemark, FromDashes};
ghost use Rattle.scan.specs.Steps.Readers.{Opens, BeginsAny};
ghost use Rattle.scan.specs.Steps.Moves.{Reads};
ghost use Rattle.scan.specs.Steps.Items.{ItemRead, OpenRead, ItemsRead, finish_of};

use crate::Stop;
use crate::bytes::{Class, is, is_of};
use crate::group::group;
use crate::piece::{blanks, name, space, word};

// Behind '#PCDATA' and white space: ')' or ')*'; a '|' begins mixed content.
fn text_end(s: &[u8], at: usize) -> Result<usize, Stop>
    requires { at ≤ length s.now }
    ensures { Reads (TextThen FromEnd) FromEnd s.now at result }
{
    if is(s, at, b')') {
        if is(s, at + 1, b'*') {
            return Ok(at + 2);
        }
        return Ok(at + 1);
    }
    if is(s, at, b'|') {
        return Err(Stop::Over(at));
    }
    Err(Stop::Bad(at))
}

// Text, from its '#' on.
fn text(s: &[u8], at: usize) -> Result<usize, Stop>
    requires { at ≤ length s.now }
    ensures { Reads (PcdataThen FromEnd) FromEnd s.now at result }
{
    let e = word(s, at, b"#PCDATA")?;
    text_end(s, blanks(s, e))
}

// A content that begins with '('.
fn opened(s: &[u8], at: usize) -> Result<usize, Stop>
    requires { Opens s.now at }
    ensures { Reads (SpecThen FromEnd) FromEnd s.now at result }
{
    let b = blanks(s, at + 1);
    if is(s, b, b'#') {
        return text(s, b);
    }
    group(s, b, 15)
}

// A content that begins with 'A'.
fn any(s: &[u8], at: usize) -> Result<usize, Stop>
    requires { BeginsAny s.now at }
    ensures { Reads (SpecThen FromEnd) FromEnd s.now at result }
{
    word(s, at, b"ANY")?;
    Err(Stop::Over(at))
}

// What a declaration holds.
fn content(s: &[u8], at: usize) -> Result<usize, Stop>
    requires { at ≤ length s.now }
    ensures { Reads (SpecThen FromEnd) FromEnd s.now at result }
{
    if is(s, at, b'E') {
        return word(s, at, b"EMPTY");
    }
    if is(s, at, b'A') {
        return any(s, at);
    }
    if is(s, at, b'(') {
        return opened(s, at);
    }
    Err(Stop::Bad(at))
}

// A declaration from its content on.
fn from_content(s: &[u8], at: usize) -> Result<usize, Stop>
    requires { at ≤ length s.now }
    ensures { Reads (SpecThen FromEnd) (FromItems true) s.now at result }
{
    let e = content(s, at)?;
    word(s, blanks(s, e), b">")
}

// A declaration from behind its name on.
fn from_named(s: &[u8], at: usize) -> Result<usize, Stop>
    requires { at ≤ length s.now }
    ensures { Reads FromNamed (FromItems true) s.now at result }
{
    let e = space(s, at)?;
    from_content(s, e)
}

// A declaration from its name on.
fn from_name(s: &[u8], at: usize) -> Result<usize, Stop>
    requires { at ≤ length s.now }
    ensures { Reads (NameThen FromNamed) (FromItems true) s.now at result }
{
    let e = name(s, at)?;
    from_named(s, e)
}

// A declaration from behind its '<!ELEMENT' on.
fn from_element(s: &[u8], at: usize) -> Result<usize, Stop>
    requires { at ≤ length s.now }
    ensures { Reads FromElement (FromItems true) s.now at result }
{
    let e = space(s, at)?;
    from_name(s, e)
}

// A declaration from behind its '<!' on.
fn element(s: &[u8], at: usize) -> Result<usize, Stop>
    requires { at ≤ length s.now }
    ensures { Reads FromKeyword (FromItems true) s.now at result }
{
    let e = word(s, at, b"ELEMENT")?;
    from_element(s, e)
}

// The rest of a comment, from behind its '<!--' on.
fn remark(s: &[u8], at: usize) -> Result<usize, Stop>
    requires { at ≤ length s.now }
    ensures { (seen : Bool) → Reads (FromRemark seen) (FromItems seen) s.now at result }
{
    let mut i = at;
    // A loop: a '-' and the byte behind it are passed at once.
    loop {
        if is(s, i, b'-') {
            if !is_of(s, i + 1, Class::Other) {
                return word(s, i + 1, b"->");
            }
            i += 2;
        } else if is_of(s, i, Class::Other) {
            i += 1;
        } else {
            return Err(Stop::Bad(i));
        }
    }
}

// A comment from behind its '<!' on.
fn comment(s: &[u8], at: usize) -> Result<usize, Stop>
    requires { at ≤ length s.now }
    ensures { (seen : Bool) → Reads (FromDashes seen) (FromItems seen) s.now at result }
{
    let e = word(s, at, b"--")?;
    remark(s, e)
}

// What an item is, and where it ends.
#[derive(Clone, Copy)]
enum Item {
    Declared(usize),
    Remarked(usize),
}

// An item from behind its '<!' on.
fn open_item(s: &[u8], at: usize) -> Result<Item, Stop>
    requires { at ≤ length s.now }
    ensures { OpenRead s.now at result }
{
    if is(s, at, b'-') {
        return Ok(Item::Remarked(comment(s, at)?));
    }
    Ok(Item::Declared(element(s, at)?))
}

// An item.
fn one_item(s: &[u8], at: usize) -> Result<Item, Stop>
    requires { at ≤ length s.now }
    ensures { ItemRead s.now at result }
{
    let e = word(s, at, b"<!")?;
    open_item(s, e)
}

// The end of a text: a declaration was seen, or it comes too early.
fn finish(seen: bool, at: usize) -> Result<usize, Stop>
    ensures { result ≡ finish_of seen at }
{
    if seen { Ok(at) } else { Err(Stop::Bad(at)) }
}

// All items of a text.
pub(crate) fn items(s: &[u8]) -> Result<usize, Stop>
    ensures { ItemsRead s.now result }
{
    let mut i = 0;
    let mut seen = false;
    // A loop: items have any length.
    loop {
        let b = blanks(s, i);
        if b == s.len() {
            return finish(seen, b);
        }
        match one_item(s, b)? {
            Item::Declared(e) => {
                i = e;
                seen = true;
            }
            Item::Remarked(e) => i = e,
        }
    }
}
