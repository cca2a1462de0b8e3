//! What goes out to the sink, and when.
ghost use Rattle.std.specs.Prelude.{◌≡◌, ◌++◌, ◌⊎◌, ℕ, List, [], Option, None, Some, OnOk, OnErr, IfErr};
ghost use Rattle.std.specs.Io.KnownBytes.{Appends, Keeps};
ghost use Rattle.ix_text.specs.Parts.{GramEntry, terms_of};
ghost use Rattle.ix_output.specs.Sinks.{AppendsFront};
ghost use Rattle.ix_index_text.specs.Endings.{IsFinished};
ghost use Rattle.ix_index_text.specs.Grams.{AreGramsOfTerms};
ghost use Rattle.ix_index_text.specs.IndexText.{layout};
ghost use Rattle.ix_index_text.specs.SectionSteps.{KeepsTold};
ghost use Rattle.ix_index_text.specs.Sections.{FrontCoded};
ghost use Rattle.ix_index_text.specs.Telling.{IsTold, Spells, IsClosable, CanClose};
ghost use Rattle.ix_index_text.specs.Told.{Told, entries_of, parts_of};

use crate::sections::FULL;
use crate::{PutError, WriterSections};
use ix_output::{WriteError, flush, put_all};
use std::io::Write;

/// Writes what is pending, if it is enough to be worth a write.
#[inline]
pub(crate) fn send_if_full<W: Write>(
    out: &mut W,
    sections: &mut WriterSections,
) -> Result<(), PutError>
    ensures kept { KeepsTold sections.old sections.new }
    ensures refusal { sections.new.refusal ≡ sections.old.refusal }
    ensures sent { (before : Option (List ℕ)) (text : List ℕ) →
        Spells before (W.contents out.old) sections.old.pending.items text →
        OnOk result (Spells before (W.contents out.new) sections.new.pending.items text) }
    ensures front { (before : Option (List ℕ)) (text : List ℕ) →
        Spells before (W.contents out.old) sections.old.pending.items text →
        OnErr result (AppendsFront before (W.contents out.new) text) }
    ensures error { IfErr result (λ error. error ≡ PutError.Write) }
{
    if sections.pending.len() < FULL {
        return Ok(());
    }
    send(out, sections)
}

/// Has coded postings pending, or writes them behind what is pending, so that many bytes are not copied.
pub(crate) fn put_coded<W: Write>(
    out: &mut W,
    sections: &mut WriterSections,
    bytes: &[u8],
) -> Result<(), PutError>
    ensures kept { KeepsTold sections.old sections.new }
    ensures refusal { sections.new.refusal ≡ sections.old.refusal }
    ensures sent { (before : Option (List ℕ)) (text : List ℕ) →
        Spells before (W.contents out.old) sections.old.pending.items text →
        OnOk result (Spells before (W.contents out.new) sections.new.pending.items
        (text ++ bytes.now)) }
    ensures front { (before : Option (List ℕ)) (text : List ℕ) →
        Spells before (W.contents out.old) sections.old.pending.items text →
        OnErr result (AppendsFront before (W.contents out.new) (text ++ bytes.now)) }
    ensures error { IfErr result (λ error. (error ≡ PutError.Write) ⊎ (error ≡ PutError.Memory)) }
    ensures memory { IfErr result (λ error. error ≡ PutError.Memory →
        Keeps (W.contents out.old) (W.contents out.new)) }
{
    if bytes.len() < FULL {
        sections.pending.extend_from_slice(bytes)?;
        return send_if_full(out, sections);
    }
    send(out, sections)?;
    put_all(out, bytes)?;
    Ok(())
}

/// Writes what is pending.
fn send<W: Write>(out: &mut W, sections: &mut WriterSections) -> Result<(), PutError>
    ensures kept { KeepsTold sections.old sections.new }
    ensures refusal { sections.new.refusal ≡ sections.old.refusal }
    ensures empty { OnOk result (sections.new.pending.items ≡ []) }
    ensures sent { (before : Option (List ℕ)) (text : List ℕ) →
        Spells before (W.contents out.old) sections.old.pending.items text →
        OnOk result (Spells before (W.contents out.new) sections.new.pending.items text) }
    ensures front { (before : Option (List ℕ)) (text : List ℕ) →
        Spells before (W.contents out.old) sections.old.pending.items text →
        OnErr result (AppendsFront before (W.contents out.new) text) }
    ensures error { IfErr result (λ error. error ≡ PutError.Write) }
{
    put_all(out, sections.pending.as_slice())?;
    sections.pending.clear();
    Ok(())
}

/// Finishes the entry at hand, writes what is not written yet, STOP, DOCS, DICTIONARY, GRAMS and the trailer,
/// and flushes.
pub(crate) fn complete<W: Write>(out: &mut W, sections: &mut WriterSections) -> Result<(), PutError>
    requires may { sections.old.refusal ≡ None → CanClose sections.old }
    ensures told { (before : Option (List ℕ)) (told : Told) →
        IsTold before (W.contents out.old) sections.old told → IsClosable told →
        OnOk result (IsFinished before (W.contents out.new) told) }
    ensures front { (before : Option (List ℕ)) (told : Told) →
        IsTold before (W.contents out.old) sections.old told → IsClosable told →
        (grams : List GramEntry) → AreGramsOfTerms (terms_of (entries_of told)) grams →
        OnErr result (AppendsFront before (W.contents out.new)
        (layout FrontCoded (parts_of told) grams)) }
    ensures error { sections.old.refusal ≡ None →
        IfErr result (λ error. (error ≡ PutError.Write) ⊎ (error ≡ PutError.Memory)) }
    ensures failed { (error : PutError) → sections.old.refusal ≡ Some error → (result ≡ Err error)
        × Keeps (W.contents out.old) (W.contents out.new) }
    ensures memory { IfErr result (λ error. error ≡ PutError.Memory →
        Keeps (W.contents out.old) (W.contents out.new)) }
{
    sections.take_up()?;
    sections.close()?;
    let ending = sections.ending()?;
    send(out, sections)?;
    put_tail(out, sections, ending.as_slice())?;
    flush(out)?;
    Ok(())
}

/// Writes STOP, DOCS and DICTIONARY, and the ending behind them.
fn put_tail<W: Write>(
    out: &mut W,
    sections: &WriterSections,
    ending: &[u8],
) -> Result<(), WriteError>
    ensures whole { OnOk result (Appends (W.contents out.old) (W.contents out.new)
        (sections.now.stop.items ++ sections.now.documents.items
        ++ sections.now.dictionary.bytes.items ++ ending.now)) }
    ensures front { OnErr result (AppendsFront (W.contents out.old) (W.contents out.new)
        (sections.now.stop.items ++ sections.now.documents.items
        ++ sections.now.dictionary.bytes.items ++ ending.now)) }
{
    put_all(out, sections.stop.as_slice())?;
    put_all(out, sections.documents.as_slice())?;
    put_all(out, sections.dictionary.bytes.as_slice())?;
    put_all(out, ending)?;
    Ok(())
}
