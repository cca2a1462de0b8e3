//! Grams by their keys, and those on one side of a key.
ghost use Rattle.std.specs.Prelude.{◌≡◌, ◌≢◌, IfSome, IfNone};
ghost use Rattle.ix_index_text.specs.GramTables.{text_of};
ghost use Rattle.ix_index_text.specs.declared.windows.Gram.{Gram as SeenGram};
ghost use Rattle.ix_file.specs.GramSides.{AreChars, gram_key};

use ix_index_text::Gram;

/// The grams whose keys are below a key, or those of all other keys.
#[derive(Clone, Copy)]
pub(crate) enum Side {
    Below(u64),
    From(u64),
}

impl Side {
    ghost use Rattle.std.specs.Prelude.{◌↔◌, IsTrue};
    ghost use Rattle.ix_file.specs.GramSides.{IsOn};

    /// Whether the gram of a key is on this side.
    #[inline]
    pub(crate) fn has(self, key: u64) -> bool
        ensures { IsTrue result ↔ IsOn self key }
    {
        match self {
            Side::Below(end) => key < end,
            Side::From(start) => start <= key,
        }
    }
}

/// The key of a gram: a number that no other gram has. Keys ascend as the grams do.
#[inline]
pub(crate) fn key_of(gram: Gram) -> u64
    ensures key { result ≡ gram_key gram }
    ensures chars { AreChars gram }
{
    let first = u64::from(gram.first);
    let second = u64::from(gram.second);
    let third = u64::from(gram.third);
    (first * 0x20_0000 + second) * 0x20_0000 + third
}

/// The gram of a text of three characters, or none if the text has another number of them.
pub(crate) fn gram_of(text: &str) -> Option<Gram>
    ensures some { IfSome result (λ gram. text_of gram ≡ text.now) }
    ensures none { IfNone result ((gram : SeenGram) → text_of gram ≢ text.now) }
{
    let mut chars = text.chars();
    let first = chars.next()?;
    let second = chars.next()?;
    let third = chars.next()?;
    if let Some(_) = chars.next() {
        return None;
    }
    Some(Gram {
        first,
        second,
        third,
    })
}
