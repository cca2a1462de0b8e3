//! A run text read to its end.
ghost use Rattle.std.specs.Prelude.{◌≡◌, [], List, IsSome, IfOk, IfErr};
ghost use Rattle.ix_text.specs.Parts.{DictionaryEntry, Posting};
ghost use Rattle.ix_run_text.specs.Reading.{Faces, HasRead, IsDrained, term_of};
ghost use Rattle.ix_run.specs.RunFiles.{GivesTerm, HasBegun, ReadsAll};
ghost use Rattle.ix_run_text.specs.RunReaders.{heading_read};
ghost use Rattle.ix_run_text.specs.RunTextErrors.{IsRefusal};
ghost use Rattle.ix_run.specs.RunFiles.{read_shown};
ghost use Rattle.ix_run_text.specs.Sources.{IsUnread};

use crate::coded_terms::{CodedTerm, CodedTerms};
use crate::run::Run;
use ix_run_text::{RunReader, RunTextError, Source};
use ix_vbyte::push_posting;
use std::alloc::Global;
use std::io::Read;

impl Run {
    ghost use Rattle.std.specs.Prelude.{ℕ, Some, MatchResult};
    ghost use Rattle.ix_text.specs.Collections.{Collection};
    ghost use Rattle.ix_run_text.specs.RunText.{IsRunText};
    ghost use Rattle.ix_run.specs.Runs.{IsRunOf, run_bytes};

    /// Reads a run text to its end and keeps it in memory, its lists coded.
    ///
    /// The errors are those of [`RunReader::open`], and of its `next_term` and `next_posting`, in the order of the
    /// bytes.
    pub fn read<R: Read + Drop>(alloc: Global, reader: R) -> Result<Run, RunTextError>
        // The run has the bytes that were read as its run text.
        ensures exact { (bytes : List ℕ) → R.remaining reader ≡ Some bytes
            → IfOk result (λ run. run_bytes run ≡ bytes) }

        // Of a run text of a lawful collection it is the run of that collection, unless a read or memory is refused.
        ensures accepted { (first : ℕ) (collection : Collection) (bytes : List ℕ)
            → IsRunText first collection bytes → R.remaining reader ≡ Some bytes
            → MatchResult result (λ run. IsRunOf run first collection) IsRefusal }
    {
        let mut reader = RunReader::open(alloc, reader)?;
        let terms = read_terms(alloc, &mut reader)?;
        Ok(Run::new(reader.into_head(), terms))
    }
}

/// A term that was read, with its list coded anew.
#[derive(Drop)]
struct ReadTerm {
    term: String,
    documents: u32,
    last: u32,
    list: Vec<u8>,
}

/// Takes all terms of a reader that has given nothing.
fn read_terms<R: Read + Drop>(
    alloc: Global,
    reader: &mut RunReader<R>,
) -> Result<CodedTerms, RunTextError>
    requires unread { IsUnread HasRead reader.old }
    requires drained { IsDrained reader.old }
    ensures heading { heading_read reader.new ≡ heading_read reader.old }
    ensures read { IfOk result (λ terms.
        ReadsAll R.remaining reader.old terms) }
    ensures refused { (entries : List DictionaryEntry) → Faces R.remaining reader.old [] entries
        → IfErr result IsRefusal }
{
    let mut terms = CodedTerms::with_room(alloc, 0)?;
    let mut positions = Vec::new(alloc);
    while reader.next_term()? {
        let read = read_term(alloc, reader, &mut positions)?;
        terms.push(CodedTerm {
            term: read.term.as_str(),
            documents: read.documents,
            last: read.last,
            list: read.list.as_slice(),
        })?;
    }
    Ok(terms.fit())
}

/// Takes the term at hand with all its postings, none of which was given yet. `positions` is where they are read into.
fn read_term<R: Read + Drop>(
    alloc: Global,
    reader: &mut RunReader<R>,
    positions: &mut Vec<u32>,
) -> Result<ReadTerm, RunTextError>
    requires begun { HasBegun reader.old }
    requires at_hand { IsSome (term_of reader.old) }
    ensures heading { heading_read reader.new ≡ heading_read reader.old }
    ensures given { IfOk result (λ term.
        GivesTerm R.remaining reader.old reader.new (read_shown term)) }
    ensures refused { (postings : List Posting) (entries : List DictionaryEntry)
        → Faces R.remaining reader.old postings entries → IfErr result IsRefusal }
{
    let term = String::from_str(alloc, reader.term())?;
    let mut documents = 0;
    let mut next = 0;
    let mut list = Vec::new(alloc);
    while let Some(document) = reader.next_posting(positions)? {
        push_posting(&mut list, next, document, positions)?;
        next = document + 1;
        documents += 1;
    }
    Ok(ReadTerm {
        term,
        documents,
        last: next.saturating_sub(1),
        list,
    })
}
