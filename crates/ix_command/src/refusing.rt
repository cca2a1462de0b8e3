//! Telling a refusal: one line on the error output, whatever is in it.

ghost use Rattle.std.specs.Prelude.{◌≡◌, ◌<◌, ◌++◌, true, OnErr, OnOk, encode_utf8};
ghost use Rattle.std.specs.Char.{is_control, digit_char};
ghost use Rattle.std.specs.Io.KnownBytes.{Appends};
ghost use Rattle.ix_output.specs.Sinks.{AppendsFront};
ghost use Rattle.ix_command.specs.Refusals.{IsTold, IsToldWhole, NeedsMemory, line_with, shown, shown_char};

use crate::refusal::Refusal;
use ix_output::{WriteError, flush, put_all};
use std::alloc::{AllocError, Global};
use std::io::Write;

/// The command was refused.
const REFUSED: u8 = 2;

/// The line of want of memory.
const OUT_OF_MEMORY: &[u8] = b"ix: memory 1: Memory\n";

/// Prints the line of the refusal on the error output, and answers the exit status. The line of a file needs no memory; if
/// there is none for that of another refusal, it is that of `Memory`.
pub fn refuse<E: Write>(alloc: Global, err: &mut E, refusal: &Refusal<'_>) -> u8
    ensures status { result ≡ 2 }
    ensures told { IsTold refusal.now (E.contents err.old) (E.contents err.new) }
{
    let _ = tell(alloc, err, refusal);
    let _ = flush(err);
    REFUSED
}

/// Writes the line of a refusal.
fn tell<E: Write>(alloc: Global, err: &mut E, refusal: &Refusal<'_>) -> Result<(), WriteError>
    ensures whole { OnOk result
        (IsToldWhole refusal.now (E.contents err.old) (E.contents err.new)) }
    ensures front { OnErr result (IsTold refusal.now (E.contents err.old) (E.contents err.new)) }
{
    match refusal {
        Refusal::Arguments => put_line(err, "arguments refused", "", ""),
        Refusal::Read(path) => put_line(err, "file 1: Read(", path, ")"),
        Refusal::ReadAdded(path) => put_line(err, "file 1: Read(", path.as_str(), ")"),
        Refusal::Write(path) => put_line(err, "file 2: Write(", path, ")"),
        Refusal::NotUtf8(path) => put_line(err, "file 3: NotUtf8(", path, ")"),
        Refusal::Same(path) => put_line(err, "file 4: Same(", path, ")"),
        Refusal::Locked(path) => put_line(err, "file 5: Locked(", path.as_str(), ")"),
        Refusal::Engine(_) => tell_made(alloc, err, refusal),
        Refusal::Script(_) => tell_made(alloc, err, refusal),
        Refusal::Live(_) => tell_made(alloc, err, refusal),
        Refusal::Archive(_) => tell_made(alloc, err, refusal),
    }
}

/// Writes the line of a refusal of which the text is made in memory.
fn tell_made<E: Write>(alloc: Global, err: &mut E, refusal: &Refusal<'_>) -> Result<(), WriteError>
    requires { NeedsMemory refusal.now }
    ensures whole { OnOk result
        (IsToldWhole refusal.now (E.contents err.old) (E.contents err.new)) }
    ensures front { OnErr result (IsTold refusal.now (E.contents err.old) (E.contents err.new)) }
{
    match format!(in alloc; "{refusal}") {
        Ok(text) => put_line(err, text.as_str(), "", ""),
        Err(AllocError) => put_all(err, OUT_OF_MEMORY),
    }
}

/// Writes the line of a text, which is these three one after another.
fn put_line<E: Write>(err: &mut E, head: &str, path: &str, tail: &str) -> Result<(), WriteError>
    ensures whole { OnOk result (Appends (E.contents err.old) (E.contents err.new)
        (line_with (head.now ++ path.now ++ tail.now))) }
    ensures front { OnErr result (AppendsFront (E.contents err.old) (E.contents err.new)
        (line_with (head.now ++ path.now ++ tail.now))) }
{
    put_all(err, b"ix: ")?;
    put_shown(err, head)?;
    put_shown(err, path)?;
    put_shown(err, tail)?;
    put_all(err, b"\n")
}

/// Writes a text with its control characters shown; one without them in one piece.
pub fn put_shown<E: Write>(err: &mut E, text: &str) -> Result<(), WriteError>
    ensures whole { OnOk result
        (Appends (E.contents err.old) (E.contents err.new) (shown text.now)) }
    ensures front { OnErr result
        (AppendsFront (E.contents err.old) (E.contents err.new) (shown text.now)) }
{
    if shows_itself(text) {
        return put_all(err, text.as_bytes());
    }
    for c in text.chars() {
        put_char(err, c)?;
    }
    Ok(())
}

/// Whether no character is a control character.
fn shows_itself(text: &str) -> bool
    ensures { result ≡ true → shown text.now ≡ text.now }
{
    for c in text.chars() {
        if c.is_control() {
            return false;
        }
    }
    true
}

/// Writes a character; a control character as `\x` and two hexadecimal digits.
fn put_char<E: Write>(err: &mut E, c: char) -> Result<(), WriteError>
    ensures whole { OnOk result
        (Appends (E.contents err.old) (E.contents err.new) (shown_char c)) }
    ensures front { OnErr result
        (AppendsFront (E.contents err.old) (E.contents err.new) (shown_char c)) }
{
    let mut bytes = [0; 4];
    if !c.is_control() {
        return put_all(err, c.encode_utf8(&mut bytes).as_bytes());
    }
    let code = c as u32;
    put_all(err, b"\\x")?;
    put_digit(err, code / 16)?;
    put_digit(err, code % 16)
}

/// Writes a hexadecimal digit.
fn put_digit<E: Write>(err: &mut E, digit: u32) -> Result<(), WriteError>
    requires { digit < 16 }
    ensures whole { OnOk result
        (Appends (E.contents err.old) (E.contents err.new) (encode_utf8 (digit_char digit))) }
    ensures front { OnErr result
        (AppendsFront (E.contents err.old) (E.contents err.new) (encode_utf8 (digit_char digit))) }
{
    let mut bytes = [0; 4];
    let c = char::from_digit(digit, 16).unwrap();
    put_all(err, c.encode_utf8(&mut bytes).as_bytes())
}
