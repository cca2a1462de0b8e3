//! The words of a block that were looked up last, with the numbers of their tokens: most words of a text are among some
//! thousands, and of these none is folded and looked up in the dictionary again.

ghost use Rattle.std.specs.Prelude.{◌≡◌, ◌+◌, ◌^◌, ◌<◌, ◌≤◌, IfOk, IfSome, length};
ghost use Rattle.ix_run.specs.SeenWords.{AreHeldWith, AreNoWords, IsHeld, IsKeyOf, number_of_bytes};

use ix_text::Memory;
use std::alloc::Global;

/// How many places there are for words at most, and for how many bytes of text one: a short text is not worth many. A
/// word has one place, and there the last one stands that had it.
const PLACES: usize = 4096;

const PLACE_BYTES: usize = 32;

/// A word of more bytes has no key.
const MOST_BYTES: usize = 16;

/// How many bytes a number of a key has at most.
const HALF: usize = 8;

/// An odd number near 2^64 divided by the golden ratio: the top bits of a product with it depend on all bits.
const SPREAD: u64 = 0x9e37_79b9_7f4a_7c15;

/// A word of 1 to 16 bytes, as two numbers: these are compared in place of texts.
#[derive(Clone, Copy, PartialEq, Eq)]
pub(crate) struct WordKey {
    /// The first eight bytes, the first counting least.
    pub(crate) front: u64,
    /// The others.
    pub(crate) back: u64,
    /// How many bytes there are.
    pub(crate) size: u32,
}

/// A word with the number of its token.
#[derive(Clone, Copy)]
pub(crate) struct SeenWord {
    pub(crate) key: WordKey,
    pub(crate) number: u32,
}

impl WordKey {
    /// The key of a word, where it has one.
    #[inline]
    pub(crate) fn of(word: &str) -> Option<WordKey>
        ensures { IfSome result (λ key. IsKeyOf key word.now) }
    {
        let bytes = word.as_bytes();
        if bytes.is_empty() || bytes.len() > MOST_BYTES {
            return None;
        }
        let (front, back) = bytes.split_at(bytes.len().min(HALF));
        Some(WordKey {
            front: number_of_bytes(front),
            back: number_of_bytes(back),
            size: bytes.len() as u32,
        })
    }

    /// The place of its word among so many.
    #[inline]
    fn place(self, count: usize) -> usize {
        let mixed = (self.front ^ self.back).wrapping_mul(SPREAD);
        ((mixed >> 32).wrapping_mul(count as u64) >> 32) as usize
    }
}

/// The number that some bytes make, the first counting least.
#[inline]
fn number_of_bytes(bytes: &[u8]) -> u64
    requires { length bytes.now ≤ 8 }
    ensures { result ≡ number_of_bytes bytes.now }
{
    let mut number = 0;
    for place in (0..bytes.len()).rev() {
        number = number * 256 + u64::from(bytes[place]);
    }
    number
}

/// The places of the words of texts that have so many bytes together, of which none was seen yet.
pub(crate) fn no_words(alloc: Global, bytes: usize) -> Result<Vec<SeenWord>, Memory>
    ensures { IfOk result (λ words. AreNoWords words.items) }
{
    let none = SeenWord {
        key: WordKey {
            front: 0,
            back: 0,
            size: 0,
        },
        number: 0,
    };
    let places = PLACES.min(bytes / PLACE_BYTES);
    let mut words = Vec::with_capacity(alloc, places)?;
    for _ in 0..places {
        words.push(none)?;
    }
    Ok(words)
}

/// The number of the token of the word with this key, if the word was seen and not replaced since.
#[inline]
pub(crate) fn seen_number(words: &[SeenWord], key: WordKey) -> Option<u32>
    ensures { IfSome result (λ number. IsHeld words.now (record { key = key; number = number })) }
{
    match words.get(key.place(words.len())) {
        Some(word) if word.key == key => Some(word.number),
        _ => None,
    }
}

/// Notes the number of the token of the word with this key.
pub(crate) fn note_number(words: &mut [SeenWord], key: WordKey, number: u32)
    ensures { AreHeldWith words.old words.new (record { key = key; number = number }) }
{
    let place = key.place(words.len());
    if place < words.len() {
        words[place] = SeenWord { key, number };
    }
}
