//! The windows of three characters of a term between two marks, which are its grams.
ghost use Rattle.std.specs.Prelude.{◌≡◌, chars};
ghost use Rattle.std.specs.Iterator.{YieldsFirst, item_count};
ghost use Rattle.ix_index_text.specs.TermWindows.{read_chars, windows_of_term};

use std::marker::Model;

/// What stands before the first and behind the last character of a term in its windows.
const MARK: char = '$';

/// Three characters in a row of a term. Their order is that of their UTF-8 bytes.
#[derive(Clone, Copy, PartialEq, Eq, PartialOrd, Ord, Hash)]
pub struct Gram {
    /// The first character.
    pub first: char,
    /// The second character.
    pub second: char,
    /// The third character.
    pub third: char,
}

/// A gram of a term, and the term's number: proofs of the writer speak of such pairs, and a reader counts them. The order
/// of the characters is that of their UTF-8 bytes.
#[derive(Clone, Copy, PartialEq, Eq, PartialOrd, Ord)]
pub struct GramPair {
    /// The first character.
    pub first: char,
    /// The second character.
    pub second: char,
    /// The third character.
    pub third: char,
    /// The number of the term.
    pub number: u32,
}

/// The windows of a term that are left, in order.
#[derive(Drop)]
pub struct Windows<'a> {
    // of the next window
    first: char,
    // none where no window is left
    second: Option<char>,
    // what follows the second
    rest: &'a str,
}

impl<'a> Model for Windows<'a> {
    ghost use Rattle.std.specs.Prelude.{List};
    ghost use Rattle.ix_index_text.specs.TermWindows.{windows_left};
    ghost use Rattle.ix_index_text.specs.declared.windows.Gram.{Gram as WindowGram};

    ghost Value = { List WindowGram };

    ghost view = { λ windows. windows_left windows.first windows.second windows.rest.now };
}

/// The windows of a term between two marks: none of a term without a character. It takes no memory.
#[inline]
pub fn windows_of(term: &str) -> Windows<'_>
    ensures { result ≡ windows_of_term term.now }
{
    let (second, rest) = split_char(term);
    Windows {
        first: MARK,
        second,
        rest,
    }
}

impl<'a> Iterator for Windows<'a> {
    type Item = Gram;

    ghost next_gives = { YieldsFirst (λ windows. windows) };

    ghost remaining = { item_count (λ windows. windows) };

    #[inline]
    fn next(&mut self) -> Option<Gram> {
        let second = self.second?;
        let (third, rest) = split_char(self.rest);
        let gram = Gram {
            first: self.first,
            second,
            third: third.unwrap_or(MARK),
        };
        self.first = second;
        self.second = third;
        self.rest = rest;
        Some(gram)
    }
}

/// The first character of a text, if there is one, and what follows it.
#[inline]
fn split_char(text: &str) -> (Option<char>, &str)
    ensures { chars text.now ≡ read_chars result.0 result.1.now }
{
    let mut chars = text.chars();
    let Some(first) = chars.next() else {
        return (None, text);
    };
    (Some(first), chars.as_str())
}
