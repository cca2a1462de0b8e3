//! Lexemes: what the text of a query is cut into.

ghost use Rattle.std.specs.Prelude.{◌≡◌, ◌<◌, drop, length, map, position, slice_index, option_map};
ghost use Rattle.std.specs.Prelude.{[], ◌++◌, IfOk, IfErr, OnOk, IsCharBoundary};
ghost use Rattle.std.specs.List.{before_first, position_or_len};
ghost use Rattle.ix_query_text.specs.Lexemes.{sign_of, lexeme_of, front_of, ends_run, near_reading};
ghost use Rattle.ix_query_text.specs.Lexemes.{run_reading, run_front, quoted_reading, front_reading};
ghost use Rattle.ix_query_text.specs.Lexemes.{with_sign, lexemes_of};
ghost use Rattle.ix_query_text.specs.QueryErrors.{Gives};

use crate::error::QueryError;
use std::alloc::Global;

/// A lexeme, and the offset of its first byte in the text.
#[derive(Clone, Copy, Debug)]
pub struct Lexeme<'a> {
    /// In bytes, from 0.
    pub offset: usize,
    /// What it is.
    pub sign: Sign<'a>,
}

/// What a lexeme is.
#[derive(Clone, Copy, Debug)]
pub enum Sign<'a> {
    /// `(`
    Open,
    /// `)`
    Close,
    /// The run `AND`.
    And,
    /// The run `OR`.
    Or,
    /// The run `NOT`.
    Not,
    /// The run `NEAR/n`, with n from 1 to 65535.
    Near(u32),
    /// The text between two quotation marks.
    Quoted(&'a str),
    /// Any other run: a longest stretch without U+0020, `"`, `(` and `)`.
    Run(&'a str),
}

// What stands at the front of a text: nothing where it is a space, and how many bytes it takes.
#[derive(Clone, Copy)]
struct Front<'a> {
    sign: Option<Sign<'a>>,
    taken: usize,
}

fn ends_run(byte: u8) -> bool
    ensures { result ≡ ends_run byte }
{
    byte == b' ' || byte == b'"' || byte == b'(' || byte == b')'
}

fn run_end(bytes: &[u8]) -> Option<usize>
    ensures { result ≡ position ends_run bytes.now }
{
    bytes.iter().position(|byte| ends_run(*byte))
}

// The keyword NEAR with the distance that these digits write.
#[tactic(auto, unfolding(crate::specs::Lexemes::near_reading))]
fn near(digits: &str) -> Result<Sign<'_>, QueryError>
    ensures { Gives sign_of result (near_reading digits.now) }
{
    match digits.as_bytes() {
        [b'1'..=b'9', ..] => match digits.parse::<u16>() {
            Ok(distance) => Ok(Sign::Near(u32::from(distance))),
            Err(_) => Err(QueryError::BadNear),
        },
        _ => Err(QueryError::BadNear),
    }
}

#[tactic(auto, unfolding(crate::specs::Lexemes::run_reading))]
fn run_sign(run: &str) -> Result<Sign<'_>, QueryError>
    ensures { Gives sign_of result (run_reading run.now) }
{
    match run {
        "AND" => Ok(Sign::And),
        "OR" => Ok(Sign::Or),
        "NOT" => Ok(Sign::Not),
        _ => match run.strip_prefix("NEAR/") {
            Some(digits) => near(digits),
            None => Ok(Sign::Run(run)),
        },
    }
}

// The run at the front, which goes on to the first byte that ends it.
fn first_run(text: &str) -> &str
    ensures value { result.now ≡ before_first ends_run text.now }
    ensures len { length result.now ≡ position_or_len ends_run text.now }
    ensures cut { IsCharBoundary text.now (length result.now) }
{
    let end = run_end(text.as_bytes()).unwrap_or(text.len());
    let (run, _) = text.split_at(end);
    run
}

// What the run at the front is.
#[tactic(auto, unfolding(crate::specs::Lexemes::run_front))]
fn read_run(text: &str) -> Result<Front<'_>, QueryError>
    ensures reading { Gives front_of result (run_front text.now) }
    ensures cut { IfOk result (λ front. IsCharBoundary text.now front.taken) }
    ensures progress { IfOk result (λ front. front.taken ≡ position_or_len ends_run text.now) }
{
    let run = first_run(text);
    let sign = run_sign(run)?;
    Ok(Front {
        sign: Some(sign),
        taken: run.len(),
    })
}

// The quoted text at the front. It goes to the next quotation mark.
fn read_quoted(text: &str) -> Result<Front<'_>, QueryError>
    requires some { 0 < length text.now }
    requires mark { slice_index text.now 0 ≡ 34 }
    ensures reading { Gives front_of result (quoted_reading (drop 1 text.now)) }
    ensures cut { IfOk result (λ front. IsCharBoundary text.now front.taken) }
    ensures progress { IfOk result (λ front. 0 < front.taken) }
{
    let (_, inside) = text.split_at(1);
    match inside.split_once('"') {
        Some((quoted, _)) => Ok(Front {
            sign: Some(Sign::Quoted(quoted)),
            taken: quoted.len() + 2,
        }),
        None => Err(QueryError::OpenQuote),
    }
}

#[tactic(auto, unfolding(crate::specs::Lexemes::front_reading))]
fn read_front(text: &str) -> Result<Front<'_>, QueryError>
    requires { 0 < length text.now }
    ensures reading { Gives front_of result
        (front_reading (slice_index text.now 0) (drop 1 text.now)) }
    ensures cut { IfOk result (λ front. IsCharBoundary text.now front.taken) }
    ensures progress { IfOk result (λ front. 0 < front.taken) }
{
    match text.as_bytes()[0] {
        b' ' => Ok(Front {
            sign: None,
            taken: 1,
        }),
        b'(' => Ok(Front {
            sign: Some(Sign::Open),
            taken: 1,
        }),
        b')' => Ok(Front {
            sign: Some(Sign::Close),
            taken: 1,
        }),
        b'"' => read_quoted(text),
        _ => read_run(text),
    }
}

// Puts a sign that was read at an offset to the lexemes.
fn keep<'a>(
    found: &mut Vec<Lexeme<'a>>,
    offset: usize,
    sign: Option<Sign<'a>>,
) -> Result<(), QueryError>
    ensures kept { OnOk result
        (map lexeme_of found.new.items
        ≡ map lexeme_of found.old.items ++ with_sign offset (option_map sign_of sign.entry) []) }
    ensures memory { IfErr result (λ error. error ≡ QueryError.Memory) }
{
    if let Some(sign) = sign {
        found.push(Lexeme { offset, sign })?;
    }
    Ok(())
}

/// The lexemes of a text, from the left.
///
/// # Errors
/// The first lexical fault: `OpenQuote` or `BadNear`; or `Memory`.
pub fn lexemes<'a>(alloc: Global, text: &'a str) -> Result<Vec<Lexeme<'a>>, QueryError>
    ensures { Gives (λ found. map lexeme_of found.items) result (lexemes_of text.now) }
{
    let mut found = Vec::new(alloc);
    let mut rest = text;
    let mut offset = 0;
    while !rest.is_empty() {
        let front = read_front(rest)?;
        keep(&mut found, offset, front.sign)?;
        let (_, after) = rest.split_at(front.taken);
        rest = after;
        offset += front.taken;
    }
    Ok(found)
}
