//! What is left of a reader, buffered.
ghost use Rattle.std.specs.Prelude.{◌≡◌, ◌<◌, ◌≤◌, ◌++◌, ◌+◌, List, ℕ, length, take, drop, vec_len, IfOk, IfErr, IfNone, IfSome, OnErr, OnOk, MatchBool};
ghost use Rattle.std.specs.Io.{ReadsAtMost};
ghost use Rattle.std.specs.Io.KnownBytes.{Consumes, IsAtEnd, Keeps};
ghost use Rattle.std.specs.Option.{option_to_list};
ghost use Rattle.ix_vbyte.specs.Code.{code_of};
ghost use Rattle.ix_run_text.specs.CodeFaults.{IsCodeFault, IsTextFault};
ghost use Rattle.ix_run_text.specs.declared.run_text_error.RunTextError.TheVariants.{Read as ReadRefused};

use crate::RunTextError;
use ix_vbyte::{VbError, decode};
use std::alloc::{AllocError, Global};
use std::io::{ErrorKind, Read};

/// How many bytes the buffer has at first, and by how many it grows.
const BUFFER_BYTES: usize = 1 << 16;

/// A reader with the bytes that it gave and that were not taken yet.
#[derive(Drop)]
pub(crate) struct Input<R> {
    reader: R,
    buffer: Vec<u8>,
    start: usize,
    end: usize,
    ghost ordered: { start ≤ end },
    ghost within: { end ≤ vec_len buffer },
    ghost room: { 0 < vec_len buffer },
}

impl<R: Read> Input<R> {
    ghost use Rattle.ix_run_text.specs.Inputs.{BeginsWith, bytes_held, known_left};

    /// The input that has what the reader has.
    pub(crate) fn new(alloc: Global, reader: R) -> Result<Input<R>, AllocError>
    where
        R: Drop,
        ensures { IfOk result (λ input. known_left R.remaining input ≡ R.remaining reader) }
    {
        Ok(Input {
            reader,
            buffer: vec![in alloc; 0; BUFFER_BYTES]?,
            start: 0,
            end: 0,
        })
    }

    /// Whether a byte is left. Where none is buffered, it reads on.
    fn has_byte(&mut self) -> Result<bool, RunTextError>
        ensures kept { OnOk result (Keeps (known_left R.remaining self.old)
            (known_left R.remaining self.new)) }
        ensures has { IfOk result (λ has.
            MatchBool has (self.new.start < self.new.end)
            (IsAtEnd (known_left R.remaining self.new))) }
        ensures refused { IfErr result (λ error. error ≡ ReadRefused) }
    {
        if self.start < self.end {
            return Ok(true);
        }
        let count = read_some(&mut self.reader, &mut self.buffer)?;
        self.start = 0;
        self.end = count;
        Ok(count > 0)
    }

    /// Takes the next byte. None: the input is at its end.
    pub(crate) fn byte(&mut self) -> Result<Option<u8>, RunTextError>
        ensures taken { IfOk result (λ byte.
            Consumes (known_left R.remaining self.old) (known_left R.remaining self.new)
            (option_to_list byte)) }
        ensures end { IfOk result (λ byte.
            IfNone byte (IsAtEnd (known_left R.remaining self.new))) }
        ensures refused { IfErr result (λ error. error ≡ ReadRefused) }
    {
        if !self.has_byte()? {
            return Ok(None);
        }
        let byte = self.buffer[self.start];
        self.start += 1;
        Ok(Some(byte))
    }

    /// Takes a code of at most `limit` bytes. Returns its number and how many bytes it has.
    ///
    /// # Errors
    /// `ListLength` if that many bytes do not end it; `Number` if it is faulty, or the input ends inside it; `Read`.
    #[inline]
    pub(crate) fn code(&mut self, limit: usize) -> Result<(u32, usize), RunTextError>
        ensures taken { IfOk result (λ found.
            Consumes (known_left R.remaining self.old) (known_left R.remaining self.new)
            (code_of found.0)) }
        ensures size { IfOk result (λ found. (found.1 ≡ length (code_of found.0))
            × (found.1 ≤ limit)) }
        ensures fault { IfErr result (λ error.
            IfSome (known_left R.remaining self.old) (λ bytes. IsCodeFault limit bytes error)) }
    {
        match decode(&self.buffer[self.start..self.end]) {
            Ok((number, count)) if count <= limit => {
                self.start += count;
                Ok((number, count))
            }
            _ => self.code_by_bytes(limit),
        }
    }

    /// The same, if the code is not whole in the buffer, or is faulty: a fault is found at its byte, before a read behind it.
    fn code_by_bytes(&mut self, limit: usize) -> Result<(u32, usize), RunTextError>
        ensures taken { IfOk result (λ found.
            Consumes (known_left R.remaining self.old) (known_left R.remaining self.new)
            (code_of found.0)) }
        ensures size { IfOk result (λ found. (found.1 ≡ length (code_of found.0))
            × (found.1 ≤ limit)) }
        ensures fault { IfErr result (λ error.
            IfSome (known_left R.remaining self.old) (λ bytes. IsCodeFault limit bytes error)) }
    {
        let mut seen = [0; 6];
        for place in 0..6 {
            if place == limit {
                return Err(RunTextError::ListLength);
            }
            let Some(byte) = self.byte()? else {
                return Err(RunTextError::Number(VbError::Cut));
            };
            seen[place] = byte;
            match decode(&seen[..place + 1]) {
                Ok((number, _)) => return Ok((number, place + 1)),
                Err(VbError::LeadingZero) => return Err(RunTextError::Number(VbError::LeadingZero)),
                Err(VbError::TooBig) => return Err(RunTextError::Number(VbError::TooBig)),
                Err(VbError::Cut) => {}
            }
        }
        Err(RunTextError::Number(VbError::TooBig))
    }

    /// The bytes that are buffered and were not taken. Nothing is taken.
    #[inline(always)]
    pub(crate) fn held(&self) -> &[u8]
        ensures { result.now ≡ bytes_held self.now }
    {
        &self.buffer[self.start..self.end]
    }

    /// Takes the first `count` of the buffered bytes, of which there are that many.
    #[inline(always)]
    pub(crate) fn pass(&mut self, count: usize)
        requires { count ≤ length (bytes_held self.old) }
        ensures taken { Consumes (known_left R.remaining self.old) (known_left R.remaining self.new)
            (take count (bytes_held self.old)) }
        ensures held { bytes_held self.new ≡ drop count (bytes_held self.old) }
    {
        self.start += count;
    }

    /// Reads on until `count` bytes are buffered. The buffer grows as bytes come, by 64 KiB at a time: so a forged `count` costs what
    /// the reader has, no more. After an error the bytes that came are buffered.
    ///
    /// # Errors
    /// `Number(Cut)` if the input ends before; `Read`; `Memory`.
    pub(crate) fn fill(&mut self, count: usize) -> Result<(), RunTextError>
        ensures kept { OnOk result (Keeps (known_left R.remaining self.old)
            (known_left R.remaining self.new)) }
        ensures came { IfSome (known_left R.remaining self.old) (λ bytes.
            BeginsWith (bytes_held self.new) bytes) }
        ensures held { OnOk result (count ≤ length (bytes_held self.new)) }
        ensures short { OnErr result (length (bytes_held self.new) < count) }
        ensures fault { IfErr result (λ error.
            IfSome (known_left R.remaining self.old) (λ bytes. IsTextFault count bytes error)) }
    {
        while self.held().len() < count {
            self.read_on()?;
        }
        Ok(())
    }

    /// Buffers some bytes more, at least one.
    ///
    /// # Errors
    /// `Number(Cut)` if there is none; `Read`; `Memory`.
    fn read_on(&mut self) -> Result<(), RunTextError>
        ensures kept { OnOk result (Keeps (known_left R.remaining self.old)
            (known_left R.remaining self.new)) }
        ensures came { IfSome (known_left R.remaining self.old) (λ bytes.
            BeginsWith (bytes_held self.new) bytes) }
        ensures more { OnOk result (length (bytes_held self.old)
            < length (bytes_held self.new)) }
        ensures same { OnErr result (bytes_held self.new ≡ bytes_held self.old) }
        ensures fault { IfErr result (λ error. IfSome (known_left R.remaining self.old) (λ bytes.
            IsTextFault (length (bytes_held self.old) + 1) bytes error)) }
    {
        self.make_room()?;
        let count = read_some(&mut self.reader, &mut self.buffer[self.end..])?;
        if count == 0 {
            return Err(RunTextError::Number(VbError::Cut));
        }
        self.end += count;
        Ok(())
    }

    /// Makes room behind the buffered bytes. The buffer grows only if it is full of them.
    fn make_room(&mut self) -> Result<(), AllocError>
        ensures reader { self.new.reader ≡ self.old.reader }
        ensures held { bytes_held self.new ≡ bytes_held self.old }
        ensures room { OnOk result (self.new.end < vec_len self.new.buffer) }
    {
        self.move_down();
        if self.end == self.buffer.len() {
            self.buffer.resize(self.end + BUFFER_BYTES, 0)?;
        }
        Ok(())
    }

    /// Moves the buffered bytes to the front of the buffer.
    fn move_down(&mut self)
        ensures reader { self.new.reader ≡ self.old.reader }
        ensures held { bytes_held self.new ≡ bytes_held self.old }
    {
        if self.start == 0 {
            return;
        }
        self.buffer.copy_within(self.start..self.end, 0);
        self.end -= self.start;
        self.start = 0;
    }

    /// Takes so many bytes, which `out` then holds alone.
    ///
    /// `Number(Cut)` where the input ends before.
    pub(crate) fn take(&mut self, count: usize, out: &mut Vec<u8>) -> Result<(), RunTextError>
        ensures taken { OnOk result (Consumes (known_left R.remaining self.old)
            (known_left R.remaining self.new) out.new.items) }
        ensures size { OnOk result (length out.new.items ≡ count) }
        ensures fault { IfErr result (λ error.
            IfSome (known_left R.remaining self.old) (λ bytes. IsTextFault count bytes error)) }
    {
        out.clear();
        while out.len() < count {
            self.take_some(count - out.len(), out)?;
        }
        Ok(())
    }

    /// Takes some bytes, at least one and at most so many, and appends them.
    fn take_some(&mut self, most: usize, out: &mut Vec<u8>) -> Result<(), RunTextError>
        requires { 0 < most }
        ensures some { OnOk result ((some : List ℕ) × (0 < length some) × (length some ≤ most)
            × (out.new.items ≡ out.old.items ++ some)
            × Consumes (known_left R.remaining self.old) (known_left R.remaining self.new) some) }
        ensures fault { IfErr result (λ error.
            IfSome (known_left R.remaining self.old) (λ bytes. IsTextFault most bytes error)) }
    {
        if !self.has_byte()? {
            return Err(RunTextError::Number(VbError::Cut));
        }
        let count = most.min(self.end - self.start);
        out.extend_from_slice(&self.buffer[self.start..self.start + count])?;
        self.start += count;
        Ok(())
    }
}

/// Makes one read, and makes it again where it was interrupted.
fn read_some<R: Read>(reader: &mut R, buffer: &mut [u8]) -> Result<usize, RunTextError>
    ensures within { ReadsAtMost result buffer.new }
    ensures taken { IfOk result (λ count.
        Consumes (R.remaining reader.old) (R.remaining reader.new) (take count buffer.new)) }
    ensures end { IfOk result (λ count. count ≡ 0 → 0 < length buffer.old
        → IsAtEnd (R.remaining reader.new)) }
    ensures refused { IfErr result (λ error. error ≡ ReadRefused) }
{
    for _ in 0..u64::MAX {
        match reader.read(buffer) {
            Ok(count) => return Ok(count),
            Err(error) if error.kind() == ErrorKind::Interrupted => {}
            Err(_) => return Err(RunTextError::Read),
        }
    }
    Err(RunTextError::Read)
}
