//! What a call returns beside its status, and how bytes are written.
ghost use Rattle.std.specs.Prelude.{◌≡◌, length};
ghost use Rattle.ix_ask.specs.EngineRefusals.{area_number};
ghost use Rattle.ix_c.specs.Filling.{Fills};
ghost use Rattle.ix_c.specs.Telling.{HasNoError, IsLinePut, IsTold, IsZero, area_word};

use ix_ask::{Area, EngineRefusal};
use std::fmt::{InlineText, Write};

/// The call did what it was asked for.
const DONE: u32 = 0;

/// The engine returned an error.
const REFUSED: u32 = 1;

/// A text that is to be UTF-8 is not.
const NOT_UTF8: u32 = 2;

/// The handle is closed.
const CLOSED: u32 = 3;

/// The sizes do not sum to that of the bytes.
const SIZES: u32 = 4;

/// How many bytes of a line there is room for: the longest has 58.
const LINE_ROOM: usize = 64;

/// What a call found, or its error.
#[repr(C)]
#[derive(Clone, Copy)]
pub struct Found {
    /// How many names, terms or documents there are; 0 if there are none.
    pub count: usize,
    /// How many bytes there are to be put out.
    pub size: usize,
    /// The area of an error, or of the text that is not UTF-8; else 0.
    pub area: u32,
    /// The number of an error in its area; else 0.
    pub number: u32,
}

/// What a call returns if there is nothing to say.
const NOTHING: Found = Found {
    count: 0,
    size: 0,
    area: 0,
    number: 0,
};

/// Puts the bytes at the front of a buffer, as many as it has room for.
pub(crate) fn fill(out: &mut [u8], bytes: &[u8])
    ensures { Fills bytes.now out.old out.new }
{
    let room = bytes.len().min(out.len());
    out[..room].copy_from_slice(&bytes[..room]);
}

/// Puts out what was found.
pub(crate) fn answer(count: usize, bytes: &[u8], out: &mut [u8], found: &mut Found) -> u32
    ensures status { result ≡ 0 }
    ensures count { found.new.count ≡ count }
    ensures size { found.new.size ≡ length bytes.now }
    ensures filled { Fills bytes.now out.old out.new }
    ensures no_error { HasNoError found.new }
{
    fill(out, bytes);
    *found = Found {
        count,
        size: bytes.len(),
        area: 0,
        number: 0,
    };
    DONE
}

/// Sets the area and number of an error, and writes its line into the buffer.
pub(crate) fn tell(refusal: &EngineRefusal, out: &mut [u8], found: &mut Found) -> u32
    ensures status { result ≡ 1 }
    ensures told { IsTold refusal.now out.old out.new found.new }
{
    let size = put_line(refusal, out);
    *found = Found {
        count: 0,
        size,
        area: refusal.area().number() as u32,
        number: refusal.number() as u32,
    };
    REFUSED
}

/// Writes the line of an error into the buffer, and returns how many bytes it has. Takes no memory.
///
/// A `fmt` may return an error that none of its writes returned. The line is the area's word then: what `fmt` wrote
/// before is not known.
fn put_line(refusal: &EngineRefusal, out: &mut [u8]) -> usize
    ensures { IsLinePut refusal.now out.old out.new result }
{
    let mut line = InlineText::<LINE_ROOM>::new();
    match write!(line, "{refusal}") {
        Ok(()) => put(line.as_str().as_bytes(), out),
        Err(_) => put(area_word(refusal.area()).as_bytes(), out),
    }
}

/// The word that the line of an error begins with.
fn area_word(area: Area) -> &'static str
    ensures { result.now ≡ area_word area }
{
    match area {
        Area::Collection => "collection",
        Area::Stop => "stop",
        Area::Query => "query",
        Area::Pattern => "pattern",
        Area::Index => "index",
        Area::Run => "run",
        Area::Merge => "merge",
        Area::Build => "build",
        Area::Memory => "memory",
    }
}

/// Writes bytes into the buffer, and returns how many there are.
fn put(bytes: &[u8], out: &mut [u8]) -> usize
    ensures size { result ≡ length bytes.now }
    ensures filled { Fills bytes.now out.old out.new }
{
    fill(out, bytes);
    bytes.len()
}

/// Tells that the text of this area is not UTF-8.
pub(crate) fn tell_not_utf8(area: Area, found: &mut Found) -> u32
    ensures status { result ≡ 2 }
    ensures area { found.new.area ≡ area_number area }
    ensures none { found.new.count ≡ 0 }
    ensures no_bytes { found.new.size ≡ 0 }
    ensures no_number { found.new.number ≡ 0 }
{
    *found = Found {
        count: 0,
        size: 0,
        area: area.number() as u32,
        number: 0,
    };
    NOT_UTF8
}

/// Tells that what was asked for is done, and that nothing is put out.
pub(crate) fn tell_done(found: &mut Found) -> u32
    ensures status { result ≡ 0 }
    ensures zero { IsZero found.new }
{
    *found = NOTHING;
    DONE
}

/// Tells that the handle is closed.
pub(crate) fn tell_closed(found: &mut Found) -> u32
    ensures status { result ≡ 3 }
    ensures zero { IsZero found.new }
{
    *found = NOTHING;
    CLOSED
}

/// Tells that the sizes do not sum to that of the bytes.
pub(crate) fn tell_sizes(found: &mut Found) -> u32
    ensures status { result ≡ 4 }
    ensures zero { IsZero found.new }
{
    *found = NOTHING;
    SIZES
}
