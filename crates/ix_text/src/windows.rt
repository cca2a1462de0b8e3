//! The windows of three characters of a text: its trigrams (IIR 3.2.2).
ghost use Rattle.std.specs.Prelude.{◌≡◌, [], ◌∷◌, IfNone, IfSome};
ghost use Rattle.std.specs.Iterator.{YieldsFirstRef, item_count};
ghost use Rattle.ix_text.specs.WindowLaws.{TrigramsStandByPlace};
ghost use Rattle.ix_text.specs.Windows.{trigram_list};

use std::marker::Model;

/// The windows of three characters of a text, in order, each a slice of the text.
#[derive(Drop)]
pub struct TrigramWindows<'a> {
    // from the first character of the next window on
    rest: &'a str,
}

impl<'a> Model for TrigramWindows<'a> {
    ghost use Rattle.std.specs.Prelude.{List, ℕ};
    ghost use Rattle.ix_text.specs.Windows.{trigram_list};

    ghost Value = { List (List ℕ) };

    ghost view = { λ grams. trigram_list grams.rest.now };
}

/// The windows of three characters (Unicode scalar values) of a text, in order: none where it has fewer. It takes no
/// memory.
pub fn trigrams(text: &str) -> TrigramWindows<'_>
    ensures { result ≡ trigram_list text.now }
{
    TrigramWindows { rest: text }
}

/// A law: the trigram at a place is the text's three characters from there on.
pub fn trigrams_stand_by_place()
    ensures { TrigramsStandByPlace }
{}

impl<'a> Iterator for TrigramWindows<'a> {
    type Item = &'a str;

    ghost next_gives = { YieldsFirstRef (λ grams. grams) };

    ghost remaining = { item_count (λ grams. grams) };

    fn next(&mut self) -> Option<&'a str> {
        let (window, next) = first_window(self.rest)?;
        self.rest = next;
        Some(window)
    }
}

/// The first window of a text, and the text from its second character on.
fn first_window(text: &str) -> Option<(&str, &str)>
    ensures none { IfNone result (trigram_list text.now ≡ []) }
    ensures first { IfSome result
        (λ found. trigram_list text.now ≡ found.0.now ∷ trigram_list found.1.now) }
{
    let mut chars = text.chars();
    chars.next()?;
    let next = chars.as_str();
    chars.next()?;
    chars.next()?;
    let window = &text[..text.len() - chars.as_str().len()];
    Some((window, next))
}
