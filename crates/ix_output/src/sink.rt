//! Writing bytes whole, and what has been written if a write fails.

ghost use Rattle.std.specs.Prelude.{◌≡◌, ◌≤◌, length, take, IfOk, OnOk, OnErr};
ghost use Rattle.std.specs.Io.KnownBytes.{Appends, Keeps};
ghost use Rattle.ix_output.specs.Sinks.{AppendsFront, write_error_number};

use std::io::{ErrorKind, Write};
use thiserror::Error;

/// Why bytes are not written.
#[derive(Clone, Copy, Debug, PartialEq, Eq, Error)]
pub enum WriteError {
    /// A write or a flush failed, or [`put_all`] gave up.
    #[error("Write")]
    Write,
}

impl WriteError {
    /// The error's number, from 1.
    pub fn number(&self) -> u8
        ensures { result ≡ write_error_number self.now }
    {
        match self {
            WriteError::Write => 1,
        }
    }
}

/// Writes all of `bytes`, without a flush. Retries on `Interrupted`. Calls the writer at most 2^64 - 1 times.
///
/// # Errors
/// `Write` if a write fails or takes no bytes, or if each of those calls was interrupted. Then a prefix of `bytes` has
/// been written.
pub fn put_all<W: Write>(out: &mut W, bytes: &[u8]) -> Result<(), WriteError>
    ensures whole { OnOk result (Appends (W.contents out.old) (W.contents out.new) bytes.now) }
    ensures front { OnErr result
        (AppendsFront (W.contents out.old) (W.contents out.new) bytes.now) }
{
    let mut written = 0;
    for _ in 0..u64::MAX {
        if written == bytes.len() {
            return Ok(());
        }
        written += put_some(out, &bytes[written..])?;
    }
    Err(WriteError::Write)
}

/// Makes one write. Returns how many bytes it took: none if it was interrupted.
fn put_some<W: Write>(out: &mut W, bytes: &[u8]) -> Result<usize, WriteError>
    ensures within { IfOk result (λ count. count ≤ length bytes.now) }
    ensures part { IfOk result
        (λ count. Appends (W.contents out.old) (W.contents out.new) (take count bytes.now)) }
    ensures kept { OnErr result (Keeps (W.contents out.old) (W.contents out.new)) }
{
    match out.write(bytes) {
        Ok(0) => Err(WriteError::Write),
        Ok(count) => Ok(count),
        Err(error) if error.kind() == ErrorKind::Interrupted => Ok(0),
        Err(_) => Err(WriteError::Write),
    }
}

/// Flushes the writer, which writes nothing more. An interrupted flush is an error too.
///
/// # Errors
/// `Write` if the flush fails.
pub fn flush<W: Write>(out: &mut W) -> Result<(), WriteError>
    ensures { Keeps (W.contents out.old) (W.contents out.new) }
{
    match out.flush() {
        Ok(()) => Ok(()),
        Err(_) => Err(WriteError::Write),
    }
}
