//! Tests of `ix_vbyte`: codes that were worked by hand, and what is coded behind other bytes.
ghost use Rattle.std.specs.Prelude.{◌<◌, ◌^◌, length};

use ix_vbyte::{
    VbError, code_len, decode, encode, push_code, push_counted, push_gaps, push_posting,
};
use std::alloc::{AllocError, Global};
use std::test::Fail;

/// Numbers and their codes.
const CODES: [(u32, &[u8]); 8] = [
    (0, b"\x80"),
    (5, b"\x85"),
    (127, b"\xff"),
    (128, b"\x01\x80"),
    (16384, b"\x01\x00\x80"),
    (824, b"\x06\xb8"),
    (214577, b"\x0d\x0c\xb1"),
    (4294967295, b"\x0f\x7f\x7f\x7f\xff"),
];

/// The numbers around each change of width, and the last ones.
const EDGES: [u32; 10] = [
    (1 << 7) - 1,
    1 << 7,
    (1 << 14) - 1,
    1 << 14,
    (1 << 21) - 1,
    1 << 21,
    (1 << 28) - 1,
    1 << 28,
    u32::MAX - 1,
    u32::MAX,
];

/// Bytes that begin with no code, and why.
const REFUSED: [(&[u8], VbError); 7] = [
    (b"\x00\x81", VbError::LeadingZero),
    (b"\x10\x00\x00\x00\x80", VbError::TooBig),
    (b"\x06", VbError::Cut),
    (b"", VbError::Cut),
    (b"\x10\x00\x00\x00", VbError::Cut),
    (b"\x0f\x7f\x7f\x7f\x7f\x80", VbError::TooBig),
    (b"\x0f\x7f\x7f\x7f\x7f", VbError::Cut),
];

/// The code of a number, and how many bytes it has by its length.
fn encoded(alloc: Global, n: u32) -> Result<(Vec<u8>, usize), AllocError> {
    Ok((encode(n).as_bytes().to_vec(alloc)?, code_len(n)))
}

/// These bytes, and the code of a number behind them.
fn appended(alloc: Global, bytes: &[u8], n: u32) -> Result<Vec<u8>, AllocError> {
    let mut out = bytes.to_vec(alloc)?;
    push_code(&mut out, n)?;
    Ok(out)
}

/// The number whose code the bytes begin with, and how many bytes it has.
fn decoded(bytes: &[u8]) -> Result<(u32, usize), VbError> {
    decode(bytes)
}

#[test]
fn worked_codes_and_refusals(rt: HostRuntime) -> Result<(), Fail> {
    for (number, code) in CODES {
        let (coded, len) = encoded(rt.alloc(), number)?;
        assert!(rt; coded.as_slice() == code && len == code.len(), "{number}");
        assert_eq!(rt; decoded(code), Ok((number, code.len())));
        let behind = appended(rt.alloc(), b"x", number)?;
        assert_eq!(rt; behind.strip_prefix(b"x"), Some(code));
    }
    for number in EDGES {
        let code = appended(rt.alloc(), b"", number)?;
        assert_eq!(rt; decoded(&code), Ok((number, code.len())));
    }
    for (bytes, error) in REFUSED {
        assert_eq!(rt; decoded(bytes), Err(error));
    }
    Ok(())
}

/// These bytes, and a text behind them, counted.
fn counted(alloc: Global, bytes: &[u8], text: &[u8]) -> Result<Vec<u8>, AllocError>
    requires { length text.now < 2 ^ 32 }
{
    let mut out = bytes.to_vec(alloc)?;
    push_counted(&mut out, text)?;
    Ok(out)
}

/// The gaps of 829 and 215406, behind 824.
fn gaps_behind_others(alloc: Global) -> Result<Vec<u8>, AllocError> {
    let mut out = Vec::new(alloc);
    push_gaps(&mut out, 825, &[829, 215406])?;
    Ok(out)
}

/// Document 0 with the positions 1 and 3, and document 4 with the position 0.
fn two_postings(alloc: Global) -> Result<Vec<u8>, AllocError> {
    let mut out = Vec::new(alloc);
    push_posting(&mut out, 0, 0, &[1, 3])?;
    push_posting(&mut out, 1, 4, &[0])?;
    Ok(out)
}

#[test]
fn appended_behind_others(rt: HostRuntime) -> Result<(), Fail> {
    let texts = counted(rt.alloc(), b"x", b"ab")?;
    assert_eq!(rt; texts.as_slice(), b"x\x82ab".as_slice());
    let gaps = gaps_behind_others(rt.alloc())?;
    assert_eq!(rt; gaps.as_slice(), b"\x85\x0d\x0c\xb1".as_slice());
    let postings = two_postings(rt.alloc())?;
    assert_eq!(rt;
        postings.as_slice(),
        b"\x81\x82\x82\x82\x84\x81\x81".as_slice()
    );
    Ok(())
}
