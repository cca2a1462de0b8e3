//! Laws of codes, gaps and coded lists.
ghost use Rattle.std.specs.Prelude.{◌≡◌, ◌↔◌, ℕ, ◌+◌, ◌<◌, ◌≤◌, ◌^◌, ◌*◌, ◌++◌, List, length, slice_index, sum_by, All, zip, flat_map};
ghost use Rattle.std.specs.List.Sorted.{IsStrictlyIncreasing};
ghost use Rattle.ix_vbyte.specs.Code.{IsCode, code_of};
ghost use Rattle.ix_vbyte.specs.Gaps.{Ascends, gaps_of, numbers_of};
ghost use Rattle.ix_vbyte.specs.Postings.{Posting, documents_of, LiesBelow, ArePostings, posting_bytes, list_bytes};
ghost use Rattle.ix_vbyte.specs.Texts.{counted};

/// A number below 2^32 has exactly one code.
pub fn one_code()
    ensures { (n : ℕ) (bytes : List ℕ) → n < 2 ^ 32 → (IsCode n bytes ↔ (bytes ≡ code_of n)) }
{}

/// No code begins another: where two stand at the front of one text, they are one code of one number,
/// and what follows is the same.
pub fn codes_apart()
    ensures relation { (m n : ℕ) (code other xs ys : List ℕ) → IsCode m code → IsCode n other
        → code ++ xs ≡ other ++ ys → (m ≡ n) × (code ≡ other) × (xs ≡ ys) }
    ensures function { (m n : ℕ) (xs ys : List ℕ) → code_of m ++ xs ≡ code_of n ++ ys
        → (m ≡ n) × (xs ≡ ys) }
{}

/// What it is for a list to ascend from a number on and below another.
pub fn ascending()
    ensures { (low top : ℕ) (xs : List ℕ) → Ascends low top xs
        ↔ (IsStrictlyIncreasing xs × All (λ x. (low ≤ x) × (x < top)) xs) }
{}

/// The gaps of an ascending list are its differences, -1 standing before the first number.
pub fn gaps_are_differences()
    ensures len { (xs : List ℕ) → length (gaps_of xs) ≡ length xs }
    ensures first { (xs : List ℕ) → 0 < length xs
        → slice_index (gaps_of xs) 0 ≡ slice_index xs 0 + 1 }
    ensures later { (top : ℕ) (xs : List ℕ) → Ascends 0 top xs → (k : ℕ) → k + 1 < length xs
        → slice_index (gaps_of xs) (k + 1) + slice_index xs k ≡ slice_index xs (k + 1) }
{}

/// From the gaps the list comes back, and from a list of gaps of at least 1 the gaps.
pub fn gaps_come_back()
    ensures numbers { (top : ℕ) (xs : List ℕ) → Ascends 0 top xs → numbers_of (gaps_of xs) ≡ xs }
    ensures gaps { (gaps : List ℕ) → All (λ gap. 0 < gap) gaps → gaps_of (numbers_of gaps) ≡ gaps }
    ensures positive { (top : ℕ) (xs : List ℕ) → Ascends 0 top xs
        → All (λ gap. 0 < gap) (gaps_of xs) }
{}

/// What it is for postings to ascend from 0 and below a number.
pub fn postings_ascending()
    ensures { (top : ℕ) (postings : List Posting) → ArePostings 0 top postings
        ↔ (IsStrictlyIncreasing (documents_of postings)
        × All (λ posting. (0 < length posting.1) × IsStrictlyIncreasing posting.1) postings
        × All (LiesBelow top) postings) }
{}

/// A coded list has at most 15 bytes a position: five each for the gap, the count and the position's gap.
pub fn list_is_short()
    ensures { (top : ℕ) (postings : List Posting) → ArePostings 0 top postings → top < 2 ^ 32
        → length (list_bytes postings) ≤ 15 * sum_by (λ posting. length posting.1) postings }
{}

/// The coded list of postings has for each document, in order, the bytes of its posting.
pub fn list_is_its_postings()
    ensures { (postings : List Posting)
        → list_bytes postings ≡ flat_map (λ pair.
        posting_bytes pair.0 pair.1) (zip (gaps_of (documents_of postings)) postings) }
{}

/// From a coded list and its number of documents the postings come back: the bytes stand for one list
/// at most, whatever follows them.
pub fn postings_come_back()
    ensures { (top : ℕ) (postings others : List Posting) (xs ys : List ℕ)
        → ArePostings 0 top postings → ArePostings 0 top others → length postings ≡ length others
        → list_bytes postings ++ xs ≡ list_bytes others ++ ys → (postings ≡ others) × (xs ≡ ys) }
{}

/// From a counted text the text comes back, and from counted texts and their number the list of them,
/// whatever follows.
pub fn counted_texts_come_back()
    ensures one { (text other xs ys : List ℕ) → counted text ++ xs ≡ counted other ++ ys
        → (text ≡ other) × (xs ≡ ys) }
    ensures many { (texts others : List (List ℕ)) (xs ys : List ℕ) → length texts ≡ length others
        → flat_map counted texts ++ xs ≡ flat_map counted others ++ ys
        → (texts ≡ others) × (xs ≡ ys) }
{}
