//! Writing the run text, piece by piece.

ghost use Rattle.std.specs.Prelude.{◌^◌, ◌<◌, ◌++◌, [], All, map, length, flat_map, codes, string_bytes};
ghost use Rattle.std.specs.Int.{to_le_bytes, w32};
ghost use Rattle.ix_text.specs.Parts.{row_bytes};
ghost use Rattle.ix_vbyte.specs.Code.{code_of};
ghost use Rattle.ix_vbyte.specs.Texts.{counted};
ghost use Rattle.ix_run_text.specs.Heads.{row_of_doc};
ghost use Rattle.ix_run.specs.Runs.{IsShort, front_bytes, head_value, run_bytes, term_shown, value_bytes};
ghost use Rattle.ix_run.specs.Writing.{Writes};

use crate::coded_terms::{CodedTerm, CodedTerms};
use ix_output::{WriteError, put_all};
use ix_run_text::{RunDoc, RunHead};
use ix_vbyte::encode;
use std::io::Write;

/// Writes bytes.
fn put<W: Write>(out: &mut W, bytes: &[u8]) -> Result<(), WriteError>
    ensures { Writes result (W.contents out.old) (W.contents out.new) bytes.now }
{
    put_all(out, bytes)
}

/// Writes the code of a number.
fn put_code<W: Write>(out: &mut W, number: u32) -> Result<(), WriteError>
    ensures { Writes result (W.contents out.old) (W.contents out.new) (code_of number) }
{
    put(out, encode(number).as_bytes())
}

/// Writes a text behind the number of its bytes.
fn put_counted<W: Write>(out: &mut W, text: &[u8]) -> Result<(), WriteError>
    requires { length text.now < 2 ^ 32 }
    ensures { Writes result (W.contents out.old) (W.contents out.new) (counted text.now) }
{
    put_code(out, text.len() as u32)?;
    put(out, text)
}

/// Writes a document's row.
fn put_row<W: Write>(out: &mut W, doc: &RunDoc) -> Result<(), WriteError>
    requires { IsShort (string_bytes doc.now.name) }
    ensures { Writes result (W.contents out.old) (W.contents out.new)
        (row_bytes code_of (row_of_doc doc.now)) }
{
    put_counted(out, doc.name.as_bytes())?;
    put_code(out, doc.tokens)
}

/// Writes the rows of documents.
fn put_rows<W: Write>(out: &mut W, docs: &[RunDoc]) -> Result<(), WriteError>
    requires { All (λ doc. IsShort (string_bytes doc.name)) docs.now }
    ensures { Writes result (W.contents out.old) (W.contents out.new)
        (flat_map (row_bytes code_of) (map row_of_doc docs.now)) }
{
    for doc in docs {
        put_row(out, doc)?;
    }
    Ok(())
}

/// Writes stop terms.
fn put_texts<W: Write>(out: &mut W, texts: &[String]) -> Result<(), WriteError>
    requires { All (λ text. IsShort (string_bytes text)) texts.now }
    ensures { Writes result (W.contents out.old) (W.contents out.new)
        (flat_map counted (map string_bytes texts.now)) }
{
    for text in texts {
        put_counted(out, text.as_bytes())?;
    }
    Ok(())
}

/// Writes a term with its list.
fn put_term<W: Write>(out: &mut W, term: CodedTerm<'_>) -> Result<(), WriteError>
    requires term { IsShort term.term.now }
    requires list { IsShort term.list.now }
    ensures { Writes result (W.contents out.old) (W.contents out.new)
        (value_bytes (term_shown term.entry)) }
{
    put_counted(out, term.term.as_bytes())?;
    put_code(out, term.documents)?;
    put_counted(out, term.list)
}

/// Writes terms with their lists.
fn put_terms<W: Write>(out: &mut W, terms: &CodedTerms) -> Result<(), WriteError>
    requires terms { All (λ term. IsShort term.term) terms.now }
    requires lists { All (λ term. IsShort term.list) terms.now }
    ensures { Writes result (W.contents out.old) (W.contents out.new)
        (flat_map value_bytes terms.now) }
{
    let mut walk = terms.walk();
    while let Some(term) = walk.next() {
        put_term(out, term)?;
    }
    Ok(())
}

/// Writes the magic and the two numbers.
fn put_numbers<W: Write>(out: &mut W, first: u32, count: u32) -> Result<(), WriteError>
    ensures { Writes result (W.contents out.old) (W.contents out.new)
        (codes "PIIXRUN1" ++ to_le_bytes w32 first ++ to_le_bytes w32 count) }
{
    put(out, b"PIIXRUN1")?;
    put(out, &first.to_le_bytes())?;
    put(out, &count.to_le_bytes())
}

/// Writes a head.
fn put_head<W: Write>(out: &mut W, head: &RunHead) -> Result<(), WriteError>
    requires few { length head.now.docs.items < 2 ^ 32 }
    requires names { All (λ doc. IsShort (string_bytes doc.name)) head.now.docs.items }
    ensures { Writes result (W.contents out.old) (W.contents out.new)
        (front_bytes (head_value head.now [])) }
{
    let docs = head.docs.as_slice();
    put_numbers(out, head.first, docs.len() as u32)?;
    let stop = head.stop.terms();
    put_code(out, stop.len() as u32)?;
    put_texts(out, stop)?;
    put_rows(out, docs)
}

/// Writes a run: the head, the terms and the end mark.
pub(crate) fn put_run<W: Write>(
    out: &mut W,
    head: &RunHead,
    terms: &CodedTerms,
) -> Result<(), WriteError>
    requires few { length head.now.docs.items < 2 ^ 32 }
    requires names { All (λ doc. IsShort (string_bytes doc.name)) head.now.docs.items }
    requires terms { All (λ term. IsShort term.term) terms.now }
    requires lists { All (λ term. IsShort term.list) terms.now }
    ensures { Writes result (W.contents out.old) (W.contents out.new)
        (run_bytes (head_value head.now terms.now)) }
{
    put_head(out, head)?;
    put_terms(out, terms)?;
    put(out, &[0x80])
}
