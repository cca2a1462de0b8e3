ghost use Rattle.std.specs.Prelude.{◌≡◌, ℕ, ◌+◌, ◌<◌, ◌≤◌, ◌&&◌, not, List, [], ◌∷◌, ◌++◌, All, map, take, length, option_map, string_bytes, vec_len, IsUtf8, IfOk, OnOk, Some, None, if◌then◌else◌};
ghost use Rattle.ix_text.specs.CollectionText.{IsCollectionText};
ghost use Rattle.ix_text.specs.Collections.{NamedText, collection_of, IsLawful, IsLawfulEntry};
ghost use Rattle.ix_text.specs.Sizes.{SlicesAreSmall, TokensAreNoMoreThanBytes};
ghost use Rattle.ix_text.specs.StopSets.{IsStopSet};
ghost use Rattle.ix_text.specs.Terms.{term_of_word};
ghost use Rattle.ix_text.specs.TokenLists.{entry_of_term, is_stop_term, is_term_size, token_list};

use crate::term::write_term;
use crate::{MAX_TERM_BYTES, Memory, StopList};
use std::alloc::Global;
use unicode_segmentation::UnicodeSegmentation;

/// The token list of a text: for each of its words (UAX #29), in order, its term, or nothing where that is among the
/// stop terms or is empty or longer than 255 bytes. An entry's place, from 0, is its position (IIR 2.4.2). Fails where
/// memory is refused.
pub fn tokens(alloc: Global, text: &str, stop: &StopList) -> Result<Vec<Option<String>>, Memory>
    ensures { IfOk result
        (λ list. map (option_map string_bytes) list.items ≡ token_list stop.now text.now) }
{
    let mut list = Vec::new(alloc);
    let count = write_tokens(alloc, &mut list, text, stop)?;
    list.truncate(count);
    Ok(list)
}

/// Writes the token list of the text over the front of the list, and answers how many entries that are. What follows
/// is left from earlier texts: one list serves text after text, and its strings are written over, so that few are
/// allocated. After `Memory` no entry is known.
pub fn write_tokens(
    alloc: Global,
    list: &mut Vec<Option<String>>,
    text: &str,
    stop: &StopList,
) -> Result<usize, Memory>
    ensures within { IfOk result (λ count. count ≤ vec_len list.new) }
    ensures front { IfOk result (λ count.
        map (option_map string_bytes) (take count list.new.items) ≡ token_list stop.now text.now) }
{
    let mut spare = Vec::new(alloc);
    let mut count = 0;
    for word in text.unicode_words() {
        write_entry_at(alloc, list, &mut spare, count, word, stop)?;
        count += 1;
    }
    Ok(count)
}

/// Makes the entry at the place, or behind the last one, that of the word. The spare strings are as in `write_entry`.
fn write_entry_at(
    alloc: Global,
    list: &mut Vec<Option<String>>,
    spare: &mut Vec<String>,
    place: usize,
    word: &str,
    stop: &StopList,
) -> Result<(), Memory>
    requires { place ≤ vec_len list.old }
    ensures within { OnOk result (place < vec_len list.new) }
    ensures entry { OnOk result (map (option_map string_bytes) (take (place + 1) list.new.items)
        ≡ map (option_map string_bytes) (take place list.old.items)
        ++ entry_of_term stop.now (term_of_word word.now) ∷ []) }
{
    if place == list.len() {
        list.push(entry_of(alloc, spare, word, stop)?)?;
        return Ok(());
    }
    write_entry(alloc, &mut list[place], spare, word, stop)
}

/// Makes the entry that of the word. Where that is nothing, the string that it had becomes a spare one.
fn write_entry(
    alloc: Global,
    entry: &mut Option<String>,
    spare: &mut Vec<String>,
    word: &str,
    stop: &StopList,
) -> Result<(), Memory>
    ensures { OnOk result
        (option_map string_bytes entry.new ≡ entry_of_term stop.now (term_of_word word.now)) }
{
    let Some(term) = entry else {
        *entry = entry_of(alloc, spare, word, stop)?;
        return Ok(());
    };
    if write_token(alloc, term, word, stop)? {
        return Ok(());
    }
    keep(spare, entry.take())?;
    Ok(())
}

/// Makes the text the term of the word, over what it held, and answers whether a token list has it: not where it is
/// among the stop terms or is empty or longer than 255 bytes. After `Memory` the text is anything.
pub fn write_token(
    alloc: Global,
    term: &mut String,
    word: &str,
    stop: &StopList,
) -> Result<bool, Memory>
    ensures { IfOk result (λ kept. entry_of_term stop.now (term_of_word word.now)
        ≡ (if kept then Some (string_bytes term.new) else None)) }
{
    write_term(alloc, term, word)?;
    Ok(is_kept(term, stop))
}

/// Adds the string of an entry to the spare ones.
fn keep(spare: &mut Vec<String>, entry: Option<String>) -> Result<(), Memory> {
    if let Some(term) = entry {
        spare.push(term)?;
    }
    Ok(())
}

/// The entry of the word. Its string is a spare one where there is one, and where the term is not kept it stays spare:
/// so a stop word costs no allocation.
fn entry_of(
    alloc: Global,
    spare: &mut Vec<String>,
    word: &str,
    stop: &StopList,
) -> Result<Option<String>, Memory>
    ensures { IfOk result (λ entry.
        option_map string_bytes entry ≡ entry_of_term stop.now (term_of_word word.now)) }
{
    let mut term = spare.pop().unwrap_or(String::new(alloc));
    if write_token(alloc, &mut term, word, stop)? {
        return Ok(Some(term));
    }
    spare.push(term)?;
    Ok(None)
}

/// Whether a token list keeps the term.
fn is_kept(term: &str, stop: &StopList) -> bool
    ensures { result ≡ (is_term_size term.now && not (is_stop_term stop.now term.now)) }
{
    has_term_size(term) && !stop.contains(term)
}

/// Whether the term has 1 to 255 bytes.
pub(crate) fn has_term_size(term: &str) -> bool
    ensures { result ≡ is_term_size term.now }
{
    0 < term.len() && term.len() <= MAX_TERM_BYTES as usize
}

/// A law: what a token list holds may stand in a lawful collection; it has at most as many entries as its text has
/// bytes; and the collection of a collection text under a stop set is lawful.
pub fn lawful_collection()
    ensures entries { (stop : List (List ℕ)) (text : List ℕ) → IsUtf8 text
        → All (IsLawfulEntry stop) (token_list stop text) }
    ensures short { (stop : List (List ℕ)) (text : List ℕ) → IsUtf8 text
        → length (token_list stop text) ≤ length text }
    ensures collection { (stop : List (List ℕ)) (bytes : List ℕ) (texts : List NamedText)
        → IsStopSet stop → IsCollectionText bytes texts → IsLawful (collection_of stop texts) }
{}

/// A law: under each stop set, named texts have at most as many tokens as bytes; and some of small texts are small.
pub fn tokens_are_no_more_than_bytes()
    ensures tokens { TokensAreNoMoreThanBytes }
    ensures slices { SlicesAreSmall }
{}
