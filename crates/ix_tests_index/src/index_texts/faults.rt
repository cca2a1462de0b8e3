//! Why texts with faulty sections are refused, in the order in which their faults are found.
//!
//! A case is a line: the sections in their order, with `|` between them, the numbers of documents and terms, ` = `, and
//! why the text is refused, or `opened`.
use super::opening::{name_of, refusal};
use super::written::{bytes_of, number_of, question_of};
use crate::plain::{check_same, framed_text};
use ix_file::Volume;
use std::alloc::Global;
use std::test::Fail;
use std::thread::Threads;

/// The text of a version with these sections and numbers.
fn text_of(alloc: Global, version: u8, case: &str) -> Result<Vec<u8>, Fail> {
    let Some((sections, counts)) = case.rsplit_once('|') else {
        return Err("a case has sections and numbers")?;
    };
    let Some((documents, terms)) = counts.trim().split_once(' ') else {
        return Err("two numbers have a space between them")?;
    };
    let counts = [number_of(documents)?, number_of(terms)?];
    let mut written = Vec::new(alloc);
    for section in sections.split('|') {
        written.push(bytes_of(alloc, section)?)?;
    }
    Ok(framed_text(alloc, version, &written, counts)?)
}

/// What a text is answered, with a second answer where it is answered otherwise when it is checked in threads side by
/// side.
fn answer_to(rt: &(impl Threads + Sync), alloc: Global, text: Vec<u8>) -> Result<String, Fail> {
    let mut answer = refusal(alloc, &text)?;
    let beside = name_of(alloc, Volume::open_beside(rt, alloc, text).err())?;
    if answer != beside {
        answer.push_str(" and ")?;
        answer.push_str(&beside)?;
    }
    Ok(answer)
}

/// The three names that are cut end within the number of their bytes, within the name, and behind it; 268435456 is
/// 2^28.
const STOP_AND_DOCS: &str = "\
| 80 | | | | 0 0 = TermSize
| 02 80 'b' | | | | 0 0 = TermSize
| 82 'b' | | | | 0 0 = Number(STOP, Cut)
| 81 ff | | | | 0 0 = Text
| 81 'b' 81 'a' | | | | 0 0 = StopOrder
| 80 | 80 | | | 0 0 = TermSize
| | 82 'a' 09 80 | | | 1 0 = Name
| | 82 'a' 0a 80 | | | 1 0 = Name
| | 02 80 | | | 1 0 = Name
| | 81 ff 80 | | | 1 0 = Text
| | 01 | | | 1 0 = Number(DOCS, Cut)
| | 82 'd' | | | 1 0 = Number(DOCS, Cut)
| | 81 'd' | | | 1 0 = Number(DOCS, Cut)
| | 81 'd' 00 81 | | | 1 0 = Number(DOCS, LeadingZero)
| | 81 'd' 80 | | | 268435456 0 = Counts
| | 81 'd' 80 | | | 268435457 0 = TooLarge
| | 81 'd' 80 | | | 1 268435456 = Counts
| | 81 'd' 01 00 00 00 80 81 'e' 81 | | | 2 0 = TooLarge
| | 81 'd' 01 00 00 00 80 81 'e' 80 | | | 2 0 = opened
| | 81 'd' 80 | | | 1 0 = opened
";

/// Refused in both versions: the first term stands whole.
const DICTIONARIES: &str = "\
81 81 81 | 82 'to' | 81 'd' 83 | 00 81 'a' 81 83 | | 1 1 = Number(DICTIONARY, LeadingZero)
81 81 81 | 82 'to' | 81 'd' 83 | 80 ff 80 | | 1 1 = TermSize
81 81 81 | 82 'to' | 81 'd' 83 | 02 80 'a' | | 1 1 = TermSize
81 81 81 | 82 'to' | 81 'd' 83 | 82 ff | | 1 1 = Number(DICTIONARY, Cut)
81 81 81 | 82 'to' | 81 'd' 83 | 81 ff 80 | | 1 1 = Text
81 81 81 | 82 'to' | 81 'd' 83 | 82 'to' 80 | | 1 1 = StopIndexed
81 81 81 | 82 'to' | 81 'd' 83 | 81 'a' 80 00 | | 1 1 = Zero
81 81 81 | 82 'to' | 81 'd' 83 | 81 'a' | | 1 1 = Number(DICTIONARY, Cut)
81 81 81 | 82 'to' | 81 'd' 83 | 81 'a' 81 | | 1 1 = Number(DICTIONARY, Cut)
81 81 81 | 82 'to' | 81 'd' 83 | 81 'a' 81 00 83 | | 1 1 = Number(DICTIONARY, LeadingZero)
81 81 81 | 82 'to' | 81 'd' 83 | 81 'a' 81 84 | | 1 2 = Counts
81 81 81 | 82 'to' | 81 'd' 83 | 81 'a' 81 84 | | 1 0 = Counts
81 81 81 | 82 'to' | 81 'd' 83 | 81 'a' 81 84 | | 1 1 = ListLength
81 81 81 | 82 'to' | 81 'd' 83 | 81 'a' 81 82 | | 1 1 = ListLength
| 82 'to' | 81 'd' 83 | | | 1 1 = Counts
81 | 82 'to' | 81 'd' 83 | | | 1 0 = ListLength
";

/// Refused in version 1.
const PLAIN_DICTIONARIES: &str = "\
81 81 81 81 81 82 | 82 'to' | 81 'd' 83 | 81 'a' 81 83 81 'a' 80 | | 1 2 = TermOrder
81 81 81 81 81 82 81 81 83 | 82 'to' | 81 'd' 83 | 82 'ab' 81 83 82 'to' 81 83 81 'b' 80 | | 1 3 = StopIndexed
81 81 81 81 81 82 | 82 'to' | 81 'd' 83 | 82 'tp' 81 83 82 'to' 81 83 | | 1 2 = TermOrder
";

/// Refused in version 2.
const FRONT_CODED_DICTIONARIES: &str = "\
81 81 81 81 81 82 | 82 'to' | 81 'd' 83 | 81 'a' 81 83 80 82 'ab' 81 83 | | 1 2 = Front
81 81 81 81 81 82 | 82 'to' | 81 'd' 83 | 81 'a' 81 83 82 81 'b' 81 83 | | 1 2 = Front
81 81 81 81 81 82 | 82 'to' | 81 'd' 83 | 81 'a' 81 83 81 80 81 83 | | 1 2 = Front
81 81 81 81 81 82 | 82 'to' | 81 'd' 83 | 81 'a' 81 83 81 80 | | 1 2 = Front
81 81 81 81 81 82 | 82 'to' | 81 'd' 83 | 81 'a' 81 83 80 81 | | 1 2 = Number(DICTIONARY, Cut)
81 81 81 81 81 82 | 82 'to' | 81 'd' 83 | 81 'a' 81 83 81 01 ff 'b' | | 1 2 = TermSize
81 81 81 81 81 82 | 82 'to' | 81 'd' 83 | 81 'a' 81 83 81 01 fe 'b' | | 1 2 = Number(DICTIONARY, Cut)
81 81 81 81 81 82 | 82 'to' | 81 'd' 83 | 81 'a' 81 83 81 81 ff 80 | | 1 2 = Text
81 81 81 81 81 82 | 82 'to' | 81 'd' 83 | 82 c3 a8 81 83 81 82 a9 a9 80 | | 1 2 = Text
81 81 81 81 81 82 | 82 'to' | 81 'd' 83 | 81 'b' 81 83 80 81 'a' 80 | | 1 2 = TermOrder
81 81 81 81 81 82 | 82 'to' | 81 'd' 83 | 82 'ta' 81 83 81 81 'o' 80 | | 1 2 = StopIndexed
81 81 81 81 81 82 | 82 'to' | 81 'd' 83 | 81 'a' 81 83 81 81 'b' 80 | | 1 2 = Zero
";

/// Fronts that are longer than the term before, or than its longest, and one with nothing behind it.
const FRONTS: &str = "\
81 81 81 81 81 82 81 81 83 | | 81 'd' 83 | 83 'red' 81 83 84 81 'o' 81 83 82 85 'tired' 81 83 | | 1 3 = Front
81 81 81 81 81 82 81 81 83 | | 81 'd' 83 | 83 'red' 81 83 83 80 81 83 82 85 'tired' 81 83 | | 1 3 = Front
81 81 81 81 81 82 81 81 83 | | 81 'd' 83 | 83 'red' 81 83 82 82 'do' 81 83 82 85 'tired' 81 83 | | 1 3 = Front
";

/// One list. The last but one of the gaps between documents is beyond 32 bits with the document before, and the last
/// just within them; the last row has such a gap between positions.
const LISTS: &str = "\
81 82 81 82 | | 81 'd' 82 | 81 'a' 81 84 | 83 '$a$' 81 81 | 1 1 = PositionRange
81 81 81 81 | | 81 'd' 82 | 81 'a' 81 84 | 83 '$a$' 81 81 | 1 1 = ListLength
10 00 00 00 80 | | 81 'd' 82 | 81 'a' 81 85 | 83 '$a$' 81 81 | 1 1 = Number(POSTINGS, TooBig)
10 00 00 00 | | 81 'd' 82 | 81 'a' 81 84 | 83 '$a$' 81 81 | 1 1 = ListLength
81 81 81 82 81 81 | | 81 'd' 81 81 'e' 81 | 81 'a' 82 86 | 83 '$a$' 81 81 | 2 1 = DocRange
81 81 81 81 81 81 | | 81 'd' 81 81 'e' 81 | 81 'a' 82 86 | 83 '$a$' 81 81 | 2 1 = opened
81 81 81 81 81 81 0f 7f 7f 7f ff 81 81 | | 81 'd' 81 81 'e' 81 | 81 'a' 83 8d | 83 '$a$' 81 81 | 2 1 = DocRange
81 81 81 0f 7f 7f 7f ff 81 81 | | 81 'd' 81 81 'e' 81 | 81 'a' 82 8a | 83 '$a$' 81 81 | 2 1 = DocRange
81 82 81 0f 7f 7f 7f ff | | 81 'd' 82 | 81 'a' 81 88 | 83 '$a$' 81 81 | 1 1 = PositionRange
";

/// Lengths of lists whose sum would wrap in 32 bits.
const LENGTHS: &str = "\
81 81 81 | | 81 'd' 82 | 81 'a' 81 0f 7f 7f 7f ff 81 'b' 81 84 | | 1 2 = ListLength
";

/// Two terms at one position, also where the document has far more tokens than the file has bytes.
const TWO_TERMS: &str = "\
81 81 81 81 81 81 | | 81 'd' 81 | 81 'a' 81 83 81 'b' 81 83 | 83 '$a$' 81 81 83 '$b$' 81 82 | 1 2 = Doubled
81 81 81 81 81 81 | | 81 'd' 01 00 00 00 80 | 81 'a' 81 83 81 'b' 81 83 | 83 '$a$' 81 81 83 '$b$' 81 82 | 1 2 = Doubled
81 81 81 81 81 81 | | 81 'd' 81 | 81 'a' 81 83 81 'b' 81 83 | | 1 2 = Doubled
81 81 81 81 81 82 | | 81 'd' 81 | 81 'a' 81 83 81 'b' 81 83 | 83 '$a$' 81 81 83 '$b$' 81 82 | 1 2 = PositionRange
81 81 81 81 81 82 | | 81 'd' 82 | 81 'a' 81 83 81 'b' 81 83 | 83 '$a$' 81 81 83 '$b$' 81 82 | 1 2 = opened
81 81 81 81 81 82 | | 81 'd' 01 00 00 00 80 | 81 'a' 81 83 81 'b' 81 83 | 83 '$a$' 81 81 83 '$b$' 81 82 | 1 2 = opened
";

/// Postings of several positions that share one, and two such of three.
const SEVERAL_POSITIONS: &str = "\
81 82 81 81 81 81 82 | | 81 'd' 82 | 81 'a' 81 84 81 'b' 81 83 | 83 '$a$' 81 81 83 '$b$' 81 82 | 1 2 = Doubled
81 83 81 81 81 81 83 81 81 81 | | 81 'd' 83 | 81 'a' 81 85 81 'b' 81 85 | 83 '$a$' 81 81 83 '$b$' 81 82 | 1 2 = Doubled
";

/// Lists of two threads: a fault in both, where that of the first is told, one in the second alone, and none.
const TWO_THREADS: &str = "\
81 83 84 81 81 81 83 81 81 80 | | 81 'd' 83 | 81 'a' 81 85 81 'b' 81 85 | 83 '$a$' 81 81 83 '$b$' 81 82 | 1 2 = PositionRange
81 83 81 81 80 81 83 84 81 81 | | 81 'd' 83 | 81 'a' 81 85 81 'b' 81 85 | 83 '$a$' 81 81 83 '$b$' 81 82 | 1 2 = Zero
81 83 81 81 81 81 83 81 81 80 | | 81 'd' 83 | 81 'a' 81 85 81 'b' 81 85 | 83 '$a$' 81 81 83 '$b$' 81 82 | 1 2 = Zero
81 83 81 81 81 81 83 84 81 81 | | 81 'd' 86 | 81 'a' 81 85 81 'b' 81 85 | 83 '$a$' 81 81 83 '$b$' 81 82 | 1 2 = opened
";

const TERMS_AND_GRAMS: &str = "\
81 81 81 81 81 82 81 81 83 | | 81 'd' 83 | 81 'b' 81 83 81 'a' 81 83 81 'c' 81 83 | | 1 3 = TermOrder
81 81 81 81 81 82 81 81 83 | 81 'b' | 81 'd' 83 | 81 'a' 81 83 81 'b' 81 83 81 'c' 81 83 | | 1 3 = StopIndexed
81 81 81 | | 81 'd' 81 | 81 'a' 81 83 | | 1 1 = Grams
81 81 81 | | 81 'd' 81 | 81 'a' 81 83 | 83 '$a$' 81 81 80 | 1 1 = Grams
81 81 81 | | 81 'd' 81 | 81 'a' 81 83 | 83 '$a$' 81 00 | 1 1 = Grams
81 81 81 | | 81 'd' 81 | 81 'a' 81 83 | 83 '$a$' 81 81 83 '$b$' 81 81 | 1 1 = Grams
";

/// The grams of two terms, which two threads share, and a wrong number under the first and under the second of them.
const GRAMS_OF_TWO: &str = "\
81 81 81 81 81 82 | | 81 'd' 82 | 81 'a' 81 83 81 'b' 81 83 | 83 '$a$' 81 81 83 '$b$' 81 82 | 1 2 = opened
81 81 81 81 81 82 | | 81 'd' 82 | 81 'a' 81 83 81 'b' 81 83 | 83 '$a$' 81 82 83 '$b$' 81 82 | 1 2 = Grams
81 81 81 81 81 82 | | 81 'd' 82 | 81 'a' 81 83 81 'b' 81 83 | 83 '$a$' 81 81 83 '$b$' 81 81 | 1 2 = Grams
";

/// The grams of the two terms; `$aa`, `aa$` and `aaa`, which stands twice in its term; and none of no term.
const GRAMS: &str = "\
81 81 81 81 81 82 | | 81 'd' 82 | 81 'x' 81 83 81 'y' 81 83 | 83 '$x$' 81 81 83 '$y$' 81 82 | 1 2 = opened
81 81 81 | | 81 'd' 81 | 84 'aaaa' 81 83 | 83 '$aa' 81 81 83 'aa$' 81 81 83 'aaa' 81 81 | 1 1 = opened
| | | | | 0 0 = opened
";

/// The index of one document without its grams.
const WITHOUT_GRAMS: &str = "\
81 82 81 81 | | 81 'd' 82 | 81 'a' 81 84 | | 1 1 = Grams
";

/// Versions of texts, and cases.
const CASES: [(u8, &str); 17] = [
    (b'1', STOP_AND_DOCS),
    (b'2', STOP_AND_DOCS),
    (b'1', DICTIONARIES),
    (b'2', DICTIONARIES),
    (b'1', PLAIN_DICTIONARIES),
    (b'2', FRONT_CODED_DICTIONARIES),
    (b'2', FRONTS),
    (b'1', LISTS),
    (b'1', LENGTHS),
    (b'1', TWO_TERMS),
    (b'1', SEVERAL_POSITIONS),
    (b'1', TWO_THREADS),
    (b'1', TERMS_AND_GRAMS),
    (b'1', GRAMS_OF_TWO),
    (b'1', GRAMS),
    (b'1', WITHOUT_GRAMS),
    (b'2', WITHOUT_GRAMS),
];

#[test]
fn faults_of_sections(rt: HostRuntime) -> Result<(), Fail> {
    for (version, cases) in CASES {
        for line in cases.lines() {
            let case = question_of(line)?;
            let answer = answer_to(&rt, rt.alloc(), text_of(rt.alloc(), version, case)?)?;
            let answered = format!(in rt.alloc(); "{case} = {answer}")?;
            check_same(&rt, &answered, line);
        }
    }
    Ok(())
}

/// Sections of `x y` but for the grams, the grams, and the number of documents and terms.
const TWO: &str = "81 81 81 81 81 82 | | 81 'd' 82 | 81 'x' 81 83 81 'y' 81 83";

const GRAMS_OF_XY: &str = "83 '$x$' 81 81 83 '$y$' 81 82";

#[test]
fn any_other_grams_are_refused(rt: HostRuntime) -> Result<(), Fail> {
    let alloc = rt.alloc();
    let grams = bytes_of(alloc, GRAMS_OF_XY)?;
    for place in 0..grams.len() {
        let mut digits = String::new(alloc);
        for (at, byte) in grams.iter().enumerate() {
            let byte = if at == place { byte ^ 1 } else { *byte };
            digits.push_str(&format!(in alloc; "{byte:02x} ")?)?;
        }
        let changed = format!(in alloc; "{TWO} | {digits} | 1 2")?;
        let front = digits.get(..place.wrapping_mul(3)).ok_or("a front")?;
        let front = format!(in alloc; "{TWO} | {front} | 1 2")?;
        for case in [changed, front] {
            let text = text_of(alloc, b'1', &case)?;
            check_same(&rt, &answer_to(&rt, alloc, text)?, "Grams");
        }
    }
    Ok(())
}
