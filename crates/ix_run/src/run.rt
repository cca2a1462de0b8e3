//! Runs: a block of documents inverted and sorted (IIR 4.3).

use crate::coded_terms::CodedTerms;
use crate::run_source::RunSource;
use crate::write::put_run;
use ix_output::WriteError;
use ix_run_text::RunHead;
use std::io::Write;
use std::marker::Model;

/// A block of documents, inverted: what single-pass in-memory indexing leaves of it (IIR 4.3).
#[derive(Drop)]
pub struct Run {
    head: RunHead,
    terms: CodedTerms,
}

impl Model for Run {
    ghost use Rattle.ix_run.specs.Runs.{RunValue, IsRun, head_value};

    ghost Value = { RunValue };

    ghost view = { λ run. head_value run.head run.terms };

    ghost invariant = { λ run. IsRun (head_value run.head run.terms) };
}

impl Run {
    ghost use Rattle.std.specs.Prelude.{◌≡◌, ℕ, [], List, OnOk, OnErr};
    ghost use Rattle.std.specs.Io.KnownBytes.{Appends};
    ghost use Rattle.ix_text.specs.Collections.{Collection};
    ghost use Rattle.ix_output.specs.Sinks.{AppendsFront};
    ghost use Rattle.ix_text.specs.Parts.{ArePartsOf, DictionaryEntry};
    ghost use Rattle.ix_run_text.specs.Heads.{heading_of, parts_with};
    ghost use Rattle.ix_run.specs.RunSources.{HasGiven, HasLeft, heading_shown, unread};
    ghost use Rattle.ix_run_text.specs.RunText.{IsRunText};
    ghost use Rattle.ix_run_text.specs.Sources.{IsUnread};
    ghost use Rattle.ix_run.specs.Runs.{IsRun, IsRunOf, head_value, run_bytes};

    /// The run of these parts.
    pub(crate) fn new(head: RunHead, terms: CodedTerms) -> Run
        requires { IsRun (head_value head terms) }
        ensures { result ≡ head_value head terms }
    {
        Run { head, terms }
    }

    /// Writes the run text, without a flush. Takes no memory.
    ///
    /// After a refusal, which is `Write`, a beginning of the text is out.
    pub fn write_to<W: Write>(&self, out: &mut W) -> Result<(), WriteError>
        ensures whole { OnOk result (Appends (W.contents out.old) (W.contents out.new)
            (run_bytes self.now)) }
        ensures front { OnErr result (AppendsFront (W.contents out.old) (W.contents out.new)
            (run_bytes self.now)) }
        ensures text { (first : ℕ) (collection : Collection) → IsRunOf self.now first collection
            → IsRunText first collection (run_bytes self.now) }
    {
        put_run(out, &self.head, &self.terms)
    }

    /// The run as a source of which nothing was asked yet. Takes no memory.
    pub fn source(&self) -> RunSource<'_>
        ensures value { result ≡ unread self.now }
        ensures unread { IsUnread HasGiven result }
        ensures yields { (first : ℕ) (collection : Collection) → IsRunOf self.now first collection
            → (entries : List DictionaryEntry) → HasLeft result [] entries
            → ArePartsOf collection (parts_with result.heading entries) }
    {
        RunSource::new(&self.head, self.terms.walk())
    }

    /// The head that the run's source has. Takes no memory.
    pub fn into_head(self) -> RunHead
        ensures { heading_of result ≡ heading_shown self }
    {
        self.head
    }
}
