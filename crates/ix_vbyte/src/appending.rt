//! Texts, gaps and postings at the end of other bytes. Each call fails only if what it appends finds no room. `out` is
//! then as it was.
ghost use Rattle.std.specs.Prelude.{◌≡◌, ◌≤◌, ◌<◌, ◌+◌, ◌-◌, ◌^◌, [], ◌∷◌, ◌++◌, length, take, OnOk, OnErr};
ghost use Rattle.std.specs.Prelude.{vec_capacity, vec_len};
ghost use Rattle.ix_vbyte.specs.Code.{code_of};
ghost use Rattle.ix_vbyte.specs.Gaps.{Ascends, gaps_from};
ghost use Rattle.ix_vbyte.specs.Postings.{codes_of, posting_bytes};
ghost use Rattle.ix_vbyte.specs.Texts.{counted};

use crate::push_code;
use std::alloc::AllocError;

/// Appends a text of less than 2^32 bytes: the code of the number of its bytes, and then these.
///
/// # Errors
/// Out of memory, if they find no room. `out` is then as it was.
#[inline]
pub fn push_counted(out: &mut Vec<u8>, text: &[u8]) -> Result<(), AllocError>
    requires { length text.now < 2 ^ 32 }
    ensures ok { OnOk result (out.new.items ≡ out.old.items ++ counted text.now) }
    ensures err { OnErr result (out.new.items ≡ out.old.items) }
    ensures full { OnErr result (vec_capacity out.old
        < vec_len out.old + length (counted text.now)) }
    ensures capacity { vec_capacity out.old ≤ vec_capacity out.new }
{
    push_code_and(out, text.len() as u32, text)
}

/// Appends the code of a number, and bytes behind it.
///
/// # Errors
/// Out of memory, if they find no room. `out` is then as it was.
#[inline]
pub fn push_code_and(out: &mut Vec<u8>, n: u32, bytes: &[u8]) -> Result<(), AllocError>
    ensures ok { OnOk result (out.new.items ≡ out.old.items ++ (code_of n ++ bytes.now)) }
    ensures err { OnErr result (out.new.items ≡ out.old.items) }
    ensures full { OnErr result
        (vec_capacity out.old < vec_len out.old + length (code_of n ++ bytes.now)) }
    ensures capacity { vec_capacity out.old ≤ vec_capacity out.new }
{
    let start = out.len();
    let pushed = append_code_and(out, n, bytes);
    if pushed.is_err() {
        out.truncate(start);
    }
    pushed
}

/// The same, but an error may leave a beginning of what is appended.
#[inline]
fn append_code_and(out: &mut Vec<u8>, n: u32, bytes: &[u8]) -> Result<(), AllocError>
    ensures ok { OnOk result (out.new.items ≡ out.old.items ++ (code_of n ++ bytes.now)) }
    ensures err { OnErr result (take (length out.old.items) out.new.items ≡ out.old.items) }
    ensures full { OnErr result
        (vec_capacity out.old < vec_len out.old + length (code_of n ++ bytes.now)) }
    ensures capacity { vec_capacity out.old ≤ vec_capacity out.new }
{
    push_code(out, n)?;
    out.extend_from_slice(bytes)
}

/// Appends the codes of the gaps of numbers, where `next` is one above the number before the first, or 0
/// (Introduction to Information Retrieval, 5.3.1). A gap is a number less the one before it, and the numbers
/// ascend strictly, from `next` on and below 2^32 - 1.
///
/// # Errors
/// Out of memory, if they find no room. `out` is then as it was.
#[inline]
pub fn push_gaps(out: &mut Vec<u8>, next: u32, numbers: &[u32]) -> Result<(), AllocError>
    requires { Ascends next (2 ^ 32 - 1) numbers.now }
    ensures ok { OnOk result
        (out.new.items ≡ out.old.items ++ codes_of (gaps_from next numbers.now)) }
    ensures err { OnErr result (out.new.items ≡ out.old.items) }
    ensures full { OnErr result (vec_capacity out.old
        < vec_len out.old + length (codes_of (gaps_from next numbers.now))) }
    ensures capacity { vec_capacity out.old ≤ vec_capacity out.new }
{
    let start = out.len();
    let pushed = append_gaps(out, next, numbers);
    if pushed.is_err() {
        out.truncate(start);
    }
    pushed
}

/// The same, but an error may leave a beginning of what is appended.
#[inline]
fn append_gaps(out: &mut Vec<u8>, next: u32, numbers: &[u32]) -> Result<(), AllocError>
    requires { Ascends next (2 ^ 32 - 1) numbers.now }
    ensures ok { OnOk result
        (out.new.items ≡ out.old.items ++ codes_of (gaps_from next numbers.now)) }
    ensures err { OnErr result (take (length out.old.items) out.new.items ≡ out.old.items) }
    ensures full { OnErr result (vec_capacity out.old
        < vec_len out.old + length (codes_of (gaps_from next numbers.now))) }
    ensures capacity { vec_capacity out.old ≤ vec_capacity out.new }
{
    let mut after = next;
    for &number in numbers {
        push_code(out, number + 1 - after)?;
        after = number + 1;
    }
    Ok(())
}

/// Appends the posting of a document, where `next` is one above the document before it, or 0: the code of
/// the gap, that of the number of positions, and those of the positions' gaps. The document is not below
/// `next`, the positions ascend strictly, and all are below 2^32 - 1.
///
/// # Errors
/// Out of memory, if they find no room. `out` is then as it was.
#[inline]
pub fn push_posting(
    out: &mut Vec<u8>,
    next: u32,
    document: u32,
    positions: &[u32],
) -> Result<(), AllocError>
    requires follows { next ≤ document }
    requires low { document < 2 ^ 32 - 1 }
    requires ascending { Ascends 0 (2 ^ 32 - 1) positions.now }
    ensures ok { OnOk result (out.new.items
        ≡ out.old.items ++ posting_bytes (document + 1 - next) (document, positions.now)) }
    ensures err { OnErr result (out.new.items ≡ out.old.items) }
    ensures full { OnErr result (vec_capacity out.old
        < vec_len out.old
        + length (posting_bytes (document + 1 - next) (document, positions.now))) }
    ensures capacity { vec_capacity out.old ≤ vec_capacity out.new }
{
    let start = out.len();
    let pushed = append_posting(out, document + 1 - next, positions);
    if pushed.is_err() {
        out.truncate(start);
    }
    pushed
}

/// The same under a given gap, but an error may leave a beginning of what is appended.
#[inline]
fn append_posting(out: &mut Vec<u8>, gap: u32, positions: &[u32]) -> Result<(), AllocError>
    requires { Ascends 0 (2 ^ 32 - 1) positions.now }
    ensures ok { OnOk result (out.new.items ≡ out.old.items
        ++ posting_bytes gap (0, positions.now)) }
    ensures err { OnErr result (take (length out.old.items) out.new.items ≡ out.old.items) }
    ensures full { OnErr result (vec_capacity out.old
        < vec_len out.old + length (posting_bytes gap (0, positions.now))) }
    ensures capacity { vec_capacity out.old ≤ vec_capacity out.new }
{
    push_code(out, gap)?;
    push_code(out, positions.len() as u32)?;
    append_gaps(out, 0, positions)
}
