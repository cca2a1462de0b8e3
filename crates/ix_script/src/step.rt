//! The steps of a script.

use ix_query::Query;

/// What a line of a script asks for. Each text is a part of the line.
#[derive(Debug, Drop)]
pub enum Step<'t> {
    /// `add PATH`: the documents of the collection file of this path are added.
    Add(&'t str),
    /// `publish`: all that was added and removed is published.
    Publish,
    /// `ask QUERY`: the query, by its text, is answered.
    Ask(&'t str, Query),
    /// `remove D`: the document of this number, from 0, is removed.
    Remove(u32),
}
