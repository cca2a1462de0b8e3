//! The names of documents, as they are printed.
ghost use Rattle.std.specs.Prelude.{◌≡◌, ◌<◌, ◌++◌, All, length, map, Some, IfOk, OnOk};
ghost use Rattle.ix_file.specs.Opened.{IsIndexOf, names_of};
ghost use Rattle.ix_file.specs.Sections.{Version};
ghost use Rattle.ix_text.specs.Collections.{Collection};
ghost use Rattle.ix_text.specs.Docs.{named_text};
ghost use Rattle.ix_ask.specs.NameLines.{AreAllNames, name_line, name_lines, names_read};

use crate::output::Lines;
use ix_file::Index;
use ix_text::Doc;
use std::alloc::{AllocError, Global};

/// The names of the documents of these numbers, each with LF.
pub fn name_lines_of(
    alloc: Global,
    documents: &[Doc<'_>],
    numbers: &[u32],
) -> Result<Vec<u8>, AllocError>
    requires { All (λ number. number < length documents.now) numbers.now }
    ensures { IfOk result (λ lines.
        lines.items ≡ name_lines (names_read (map named_text documents.now)) numbers.now) }
{
    let mut lines = Vec::new(alloc);
    for &number in numbers {
        push_name_line(&mut lines, documents[number as usize].name)?;
    }
    Ok(lines)
}

/// The names of the documents of an index that have these numbers, each with LF.
pub fn name_lines_in(
    alloc: Global,
    index: &Index<'_>,
    numbers: &[u32],
) -> Result<Vec<u8>, AllocError>
    requires { All (λ number. number < length index.now.parts.rows) numbers.now }
    ensures { IfOk result (λ lines.
        lines.items ≡ name_lines (names_of index.now.parts.rows) numbers.now) }
{
    let mut lines = Vec::new(alloc);
    for &number in numbers {
        push_name_line(&mut lines, index.name(number))?;
    }
    Ok(lines)
}

/// The names of all documents of an index, each with LF, in the order of the documents.
pub fn list_names(alloc: Global, index: &Index<'_>) -> Result<Lines, AllocError>
    ensures { IfOk result (λ names. (version : Version) (collection : Collection)
        → IsIndexOf index.now version collection
        → AreAllNames collection.documents names.bytes.items names.count) }
{
    let count = index.doc_count();
    let mut bytes = Vec::new(alloc);
    for number in 0..count {
        push_name_line(&mut bytes, index.name(number))?;
    }
    Ok(Lines {
        bytes,
        count: count as usize,
    })
}

/// Adds the line of a name.
fn push_name_line(lines: &mut Vec<u8>, name: &str) -> Result<(), AllocError>
    ensures { OnOk result
        (lines.new.items ≡ lines.old.items ++ name_line (Some name.now)) }
{
    lines.extend_from_slice(name.as_bytes())?;
    lines.push(b'\n')?;
    Ok(())
}
