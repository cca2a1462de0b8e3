//! Why run texts are refused, and long ones that are read in pieces.

use super::pieces::{Pieces, Sizes};
use super::plain::reread;
use super::{bytes_of, expect, expect_bytes, run_of, text_of, written};
use std::alloc::Global;
use std::test::Fail;

/// Whole texts.
const TEXTS: &str = r"
PIIXRUN2\0\0\0\0\0\0\0\0\x80                                 Magic
PIIXRUN1\xff\xff\xff\x0f\x02\0\0\0\x80                       TooLarge
PIIXRUN1\xff\xff\xff\xff\xff\xff\xff\xff\x80                 TooLarge
PIIXRUN1\x03\0\0\0\x02\0\0\0\x82\x82of\x82to\x81a\x82\x82bc\x80\x80  end end
PIIXRUN1\0\0\0\0\x01\0\0\0\x81\x81x\x81a\x82\x81x            StopIndexed Failed
";

/// Behind the first number and the number of documents, which is 0.
const NO_DOCUMENT: &str = r"
\x00\x81          Number(LeadingZero)
\x10\0\0\0\x80    Number(TooBig)
\x01\0\0\0\x81    TooLarge
\x81\x80          TermSize
\x81\x02\x80      TermSize
\x81\x81\xff      Text
\x82\x81b\x81a    StopOrder
\x82\x81a\x81a    StopOrder
";

/// Behind a head of one document, before its name.
const ONE_DOCUMENT: &str = r"
\x80\x80                  Name
\x02\x80                  Name
\x81\xff                  Text
\x83a\x09b\x80            Name
\x83a\x0ab\x80            Name
\x81a\x01\0\0\0\x80\x80   end end
\x81a\x01\0\0\0\x81       TooLarge
";

/// The same of two documents.
const TWO_DOCUMENTS: &str = r"
\x81a\x01\0\0\0\x80\x81b\x80\x80     end end
\x81a\x01\0\0\0\x80\x81b\x81         TooLarge
\x81a\x81\x81b\x01\0\0\0\x80         TooLarge
";

/// Behind the head of a run of two documents, of two tokens and of one.
const TERMS: &str = r"
\x80                                             end end
\x80\x80                                         Extra Failed
\x02\x80                                         TermSize Failed
\x81\xff                                         Text Failed
\x81x\x80                                        Zero Failed
\x81x\x81\x83\x80                                Zero Failed
\x81x\x81\x83\x83                                DocRange Failed
\x81x\x81\x83\x00                                Number(LeadingZero) Failed
\x81x\x81\x83\x10\0\0\0\x80                      ListLength Failed
\x81x\x81\x85\x10\0\0\0\x80                      Number(TooBig) Failed
\x81x\x81\x83\x81\x80                            Zero Failed
\x81x\x81\x83\x81\x81\x80                        Zero Failed
\x81x\x81\x83\x81\x81\x83                        PositionRange Failed
\x81x\x81\x83\x82\x81\x82                        PositionRange Failed
\x81x\x81\x82\x81\x81\x81                        ListLength Failed
\x81x\x81\x84\x81\x81\x81\x81                    ListLength Failed
\x81x\x81\xff\x81\x81\x81                        ListLength Failed
\x81x\x82\x83\x81\x81\x81                        ListLength Failed
\x81x\x82\x83\x81\x81\x81\x0f\x7f                ListLength Failed
\x81x\x82\x8a\x81\x81\x81\x0f\x7f\x7f\x7f\xff\x81\x81  DocRange Failed
\x81x\x81\x88\x81\x82\x81\x0f\x7f\x7f\x7f\xff    PositionRange Failed
\x81y\x81\x83\x81\x81\x81\x81x                   TermOrder Failed
\x81x\x81\x83\x81\x81\x81\x81x                   TermOrder Failed
\x81x\x81\x83\x81\x81\x81\x81y\x81\x83\x81\x81\x81      Doubled Failed
\x81x\x81\x83\x81\x81\x82\x81y\x81\x84\x81\x82\x81\x81  Doubled Failed
\x81x\x81\x84\x81\x82\x81\x81\x81y\x81\x83\x81\x81\x82  Doubled Failed
\x81x\x81\x83\x81\x81\x81\x81y\x81\x83\x81\x81\x82\x80  end end
";

/// Behind the same head, lists that end too soon: the fault in the bytes that came is told first, also if the list is said
/// to have 4 GiB.
const CUT_LISTS: &str = r"
\x81x\x82\x8a\x81\x81\x81\x80                    Zero Failed
\x81x\x82\x8a\x81\x81\x81\x82                    DocRange Failed
\x81x\x82\x8a\x81\x81\x83                        PositionRange Failed
\x81x\x81\x0f\x7f\x7f\x7f\xff\x83                DocRange Failed
\x81x\x82\x0f\x7f\x7f\x7f\xff\x81\x81\x81\x00    Number(LeadingZero) Failed
\x81x\x81\x83\x81\x81\x81\x81y\x82\x8a\x81\x81\x81  Doubled Failed
\x81x\x82\x0f\x7f\x7f\x7f\xff\x81\x81\x81\x81    Number(Cut) Failed
\x81x\x82\x86\x81\x81                            Number(Cut) Failed
";

/// Reads the texts of the rows behind a front, each from the whole of it and from its bytes one at a time. If `cut`, a text
/// is also read whose next read is refused: that is told where only the end would be.
fn expect_rows(alloc: Global, front: &str, rows: &str, cut: bool) -> Result<(), Fail> {
    let mut again = Vec::new(alloc);
    for row in rows.trim().lines() {
        let (back, want) = row.split_once(' ').ok_or("no row")?;
        let want = want.trim();
        let mut text = bytes_of(alloc, front)?;
        text.extend_from_slice(&bytes_of(alloc, back)?)?;
        expect(row, &reread(alloc, text.as_slice(), &mut again)?, want)?;
        let slow = Pieces::new(text.as_slice(), Sizes::Single(text.len() + 1));
        expect(row, &reread(alloc, slow, &mut again)?, want)?;
        if cut {
            let refused = Pieces::new(text.as_slice(), Sizes::Single(text.len()));
            let told = reread(alloc, refused, &mut again)?;
            if want == "Number(Cut) Failed" {
                expect(row, &told, "Read Failed")?;
            } else {
                expect(row, &told, want)?;
            }
        }
    }
    Ok(())
}

#[test]
fn first_faults(rt: HostRuntime) -> Result<(), Fail> {
    let alloc = rt.alloc();
    expect_rows(alloc, "", TEXTS, false)?;
    expect_rows(alloc, r"PIIXRUN1\0\0\0\0\0\0\0\0", NO_DOCUMENT, false)?;
    expect_rows(
        alloc,
        r"PIIXRUN1\0\0\0\0\x01\0\0\0\x80",
        ONE_DOCUMENT,
        false,
    )?;
    expect_rows(
        alloc,
        r"PIIXRUN1\0\0\0\0\x02\0\0\0\x80",
        TWO_DOCUMENTS,
        false,
    )?;
    let head = r"PIIXRUN1\0\0\0\0\x02\0\0\0\x80\x81a\x82\x81b\x81";
    expect_rows(alloc, head, TERMS, false)?;
    expect_rows(alloc, head, CUT_LISTS, true)
}

/// Reads a run text in pieces of this size, each behind an interruption.
fn expect_in_pieces(alloc: Global, text: &[u8], sizes: Sizes) -> Result<(), Fail> {
    let mut again = Vec::new(alloc);
    let told = reread(alloc, Pieces::new(text, sizes), &mut again)?;
    expect("in pieces", &told, "end end")?;
    expect_bytes("in pieces", &again, text)
}

#[test]
fn many_short_documents(rt: HostRuntime) -> Result<(), Fail> {
    let alloc = rt.alloc();
    let mut documents = String::new(alloc);
    for number in 0..300_000u32 {
        let line = format!(in alloc; "n{number}\tx{} y z{}\n", number % 7, number % 1000)?;
        documents.push_str(&line)?;
    }
    let run = run_of(alloc, &documents, "z5\n", 7)?;
    let text = text_of(alloc, &run)?;
    let (answer, uneven) = written(alloc, &run, Sizes::Uneven);
    assert!(rt; answer.is_ok() && uneven == text);
    expect_in_pieces(alloc, &text, Sizes::Uneven)?;
    let head = run.into_head();
    assert!(rt; head.first == 7 && head.docs.len() == 300_000);
    Ok(())
}

#[test]
fn more_than_a_million_documents(rt: HostRuntime) -> Result<(), Fail> {
    let alloc = rt.alloc();
    let mut text = bytes_of(alloc, r"PIIXRUN1\0\0\0\0\x41\x42\x0f\0\x80")?;
    for _ in 0..1_000_001 {
        text.extend_from_slice(b"\x81a\x80")?;
    }
    text.push(0x80)?;
    let mut again = Vec::new(alloc);
    expect(
        "a million",
        &reread(alloc, text.as_slice(), &mut again)?,
        "end end",
    )?;
    expect_bytes("a million", &again, &text)
}

/// Documents with long names, whose lists have postings of one position, of two and of several hundred, and codes of one
/// byte and of two: their run text is longer than 64 KiB.
fn documents_with_long_names(alloc: Global) -> Result<String, Fail> {
    let name = "document ".repeat(alloc, 28)?;
    let mut text = String::new(alloc);
    for _ in 0..249 {
        text.push_str(&name)?;
        text.push_str("\ta b a c\n")?;
    }
    text.push_str("last\tonce twice")?;
    text.push_str(&" far".repeat(alloc, 300)?)?;
    text.push_str(" twice c once\n")?;
    Ok(text)
}

// Small pieces end at every place of names, terms, codes and postings; larger ones at other places of a list.
#[test]
fn reads_of_each_size(rt: HostRuntime) -> Result<(), Fail> {
    let alloc = rt.alloc();
    let documents = documents_with_long_names(alloc)?;
    let text = text_of(alloc, &run_of(alloc, &documents, "the\n", 5)?)?;
    assert!(rt; text.len() > 65_636);
    for most in 1..33 {
        expect_in_pieces(alloc, &text, Sizes::Interrupted(most))?;
    }
    for most in [4097, 8191, 16382, 32764, 65531, 65535, 65536, 65537, 65540] {
        expect_in_pieces(alloc, &text, Sizes::Interrupted(most))?;
    }
    Ok(())
}
