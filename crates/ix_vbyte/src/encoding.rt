//! The code of a number, as bytes held in place and at the end of others.
ghost use Rattle.std.specs.Prelude.{◌≡◌, ◌≤◌, ◌<◌, ◌+◌, ◌%◌, ◌/◌, ◌++◌, length, OnOk, OnErr, vec_capacity, vec_len};
ghost use Rattle.std.specs.Int.Digits.{digits_of};
ghost use Rattle.arrayvec.specs.ArrayVec.{array_vec_len};
ghost use Rattle.ix_vbyte.specs.Code.{IsCode, code_of};

use arrayvec::ArrayVec;
use std::alloc::AllocError;
use std::marker::Model;

/// The code of one number: one to five bytes, held in place.
#[derive(Debug, Drop, Eq, PartialEq)]
pub struct Code {
    bytes: ArrayVec<u8, 5>,
}

impl Model for Code {
    ghost use Rattle.std.specs.Prelude.{ℕ, List};

    ghost Value = { List ℕ };

    ghost view = { λ c. c.bytes.items };

    ghost inverse = { λ bytes. record { bytes = record { items = bytes } } };
}

impl Code {
    /// The bytes of the code.
    #[inline]
    pub fn as_bytes(&self) -> &[u8]
        ensures value { result.now ≡ self.now }
        ensures fits { length result.now ≤ 5 }
    {
        self.bytes.as_slice()
    }

    /// How many bytes the code has.
    #[inline]
    pub fn len(&self) -> usize
        ensures value { result ≡ length self.now }
        ensures fits { result ≤ 5 }
    {
        self.bytes.len()
    }
}

/// The low seven bits of `n`, as a byte that does not end a code.
#[inline]
fn group(n: u32) -> u8
    ensures { result ≡ n % 128 }
{
    (n % 128) as u8
}

/// The low seven bits of `n`, as the byte that ends its code.
#[inline]
fn last(n: u32) -> u8
    ensures { result ≡ 128 + n % 128 }
{
    128 + (n % 128) as u8
}

/// Appends the last digit of `number` in base 128 to its others, or nothing if it is 0.
#[inline]
fn push_digit(digits: &mut ArrayVec<u8, 5>, number: u32)
    requires room { array_vec_len digits.old < 5 }
    requires others { digits.old.items ≡ digits_of 128 (number / 128) }
    ensures { digits.new.items ≡ digits_of 128 number }
{
    if number > 0 {
        digits.push(group(number));
    }
}

/// The code of a number (Introduction to Information Retrieval, 5.3.1).
pub fn encode(n: u32) -> Code
    ensures is_code { IsCode n result }
    ensures value { result ≡ code_of n }
    ensures size { (0 < length result) × (length result ≤ 5) }
{
    let mut bytes = ArrayVec::new();
    push_digit(&mut bytes, n >> 28);
    push_digit(&mut bytes, n >> 21);
    push_digit(&mut bytes, n >> 14);
    push_digit(&mut bytes, n >> 7);
    bytes.push(last(n));
    Code { bytes }
}

/// How many bytes the code of a number has, without making it.
#[inline]
pub fn code_len(n: u32) -> usize
    ensures value { result ≡ length (code_of n) }
    ensures size { (0 < result) × (result ≤ 5) }
{
    match n {
        0..=0x7f => 1,
        0x80..=0x3fff => 2,
        0x4000..=0x1f_ffff => 3,
        0x20_0000..=0xfff_ffff => 4,
        _ => 5,
    }
}

/// Appends the code of a number.
///
/// # Errors
/// Out of memory, if the code finds no room. `out` is then as it was.
#[inline]
#[tactic(auto, using(crate::proofs::Widths::widths))]
pub fn push_code(out: &mut Vec<u8>, n: u32) -> Result<(), AllocError>
    ensures ok { OnOk result (out.new.items ≡ out.old.items ++ code_of n) }
    ensures err { OnErr result (out.new.items ≡ out.old.items) }
    ensures full { OnErr result (vec_capacity out.old < vec_len out.old + length (code_of n)) }
    ensures capacity { vec_capacity out.old ≤ vec_capacity out.new }
{
    if n < 128 {
        out.push(last(n))?;
        Ok(())
    } else {
        push_long(out, n)
    }
}

/// Appends a code of two bytes or more.
#[tactic(auto, using(crate::proofs::Widths::widths))]
fn push_long(out: &mut Vec<u8>, n: u32) -> Result<(), AllocError>
    requires { 128 ≤ n }
    ensures ok { OnOk result (out.new.items ≡ out.old.items ++ code_of n) }
    ensures err { OnErr result (out.new.items ≡ out.old.items) }
    ensures full { OnErr result (vec_capacity out.old < vec_len out.old + length (code_of n)) }
    ensures capacity { vec_capacity out.old ≤ vec_capacity out.new }
{
    let low = [group(n >> 14), group(n >> 7), last(n)];
    if n < 1 << 14 {
        out.extend_from_slice(&low[1..])
    } else if n < 1 << 21 {
        out.extend_from_slice(&low)
    } else if n < 1 << 28 {
        out.extend_from_slice(&[group(n >> 21), low[0], low[1], low[2]])
    } else {
        out.extend_from_slice(&[group(n >> 28), group(n >> 21), low[0], low[1], low[2]])
    }
}
