//! Writing what was found.
ghost use Rattle.std.specs.Prelude.{OnOk, OnErr};
ghost use Rattle.std.specs.Io.KnownBytes.{Appends};
ghost use Rattle.ix_output.specs.Sinks.{AppendsFront};

use ix_output::{WriteError, flush, put_all};
use std::io::Write;

/// Lines to be printed, and how many there are.
#[derive(Drop)]
pub struct Lines {
    /// The lines, each with its LF.
    pub bytes: Vec<u8>,
    /// How many there are.
    pub count: usize,
}

/// Writes the bytes and flushes. After an error a prefix of the bytes was written.
pub fn write_whole<W: Write>(out: &mut W, bytes: &[u8]) -> Result<(), WriteError>
    ensures whole { OnOk result (Appends (W.contents out.old) (W.contents out.new) bytes.now) }
    ensures front { OnErr result
        (AppendsFront (W.contents out.old) (W.contents out.new) bytes.now) }
{
    put_all(out, bytes)?;
    flush(out)
}
