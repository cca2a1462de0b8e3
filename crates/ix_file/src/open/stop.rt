//! The stop terms of an index text.
ghost use Rattle.std.specs.Prelude.{◌≡◌, ◌≢◌, ◌↔◌, ◌⊎◌, ℕ, ◌∷◌, [], ◌++◌, List, map, IsTrue, MatchOption, ⊤, IfOk, IfErr, OnOk, string_bytes};
ghost use Rattle.ix_vbyte.specs.Texts.{counted};
ghost use Rattle.ix_text.specs.ByteOrder.{IsAscending};
ghost use Rattle.ix_text.specs.StopSets.{IsStopSet};
ghost use Rattle.ix_index_text.specs.Sections.{stop_section};
ghost use Rattle.ix_file.specs.declared.open_error.OpenError.TheVariants.{Memory};

use crate::open::front::read_text;
use crate::{OpenError, Section};
use ix_text::{MAX_STOP_TERMS, StopList};
use std::alloc::Global;

/// How many more stop terms there may be than a fourth of the bytes of STOP: 128 texts have one byte and 18,304 have
/// two, which stand there in two and in three, and all others in four or more.
const MORE_SHORT: usize = 4640;

/// Reads STOP: the stop terms, ascending, each behind the number of its bytes, at most 2^28 of them.
///
/// `Number`, `TermSize` and `Text` of a term, in this order; `StopOrder` if it is not above the one
/// before it; `TooLarge` if there are more than 2^28; or `Memory`.
pub(crate) fn read_stop(alloc: Global, section: &[u8]) -> Result<StopList, OpenError>
    ensures terms { IfOk result (λ stop. IsStopSet stop × (section.now ≡ stop_section stop)) }
    ensures refused { IfErr result (λ error. (error ≡ Memory)
        ⊎ ((stop : List (List ℕ)) → IsStopSet stop → section.now ≢ stop_section stop)) }
{
    // asked for once: a table that grows is there twice while it moves
    let room = (section.len() / 4 + MORE_SHORT).min(section.len() / 2);
    let mut terms = Vec::with_capacity(alloc, room)?;
    let mut left = section;
    while !left.is_empty() {
        left = push_term(alloc, &mut terms, left)?;
    }
    Ok(StopList::from_sorted(terms))
}

/// Adds the term that what is left of STOP begins with, and returns what follows it.
fn push_term<'a>(
    alloc: Global,
    terms: &mut Vec<String>,
    left: &'a [u8],
) -> Result<&'a [u8], OpenError>
    requires { IsStopSet (map string_bytes terms.old.items) }
    ensures term { IfOk result (λ rest. (term : List ℕ)
        × (map string_bytes terms.new.items ≡ map string_bytes terms.old.items ++ term ∷ [])
        × (left.now ≡ counted term ++ rest.now)) }
    ensures lawful { OnOk result (IsStopSet (map string_bytes terms.new.items)) }
    ensures refused { IfErr result (λ error. (error ≡ Memory)
        ⊎ ((term rest : List ℕ) → IsStopSet (map string_bytes terms.old.items ++ term ∷ []) →
        left.now ≢ counted term ++ rest)) }
{
    let (term, rest) = read_text(Section::Stop, OpenError::TermSize, left)?;
    if !is_above(term, terms.last()) {
        return Err(OpenError::StopOrder);
    }
    if terms.len() >= MAX_STOP_TERMS as usize {
        return Err(OpenError::TooLarge);
    }
    terms.push(String::from_str(alloc, term)?)?;
    Ok(rest)
}

/// Whether a term is above the one before it, if there is one.
pub(crate) fn is_above(term: &str, before: Option<&String>) -> bool
    ensures { IsTrue result ↔ MatchOption before.entry ⊤
        (λ b. IsAscending (string_bytes b.now ∷ term.now ∷ [])) }
{
    match before {
        None => true,
        Some(before) => before.as_str() < term,
    }
}
