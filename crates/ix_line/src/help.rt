//! What the program says of itself.

ghost use Rattle.std.specs.Prelude.{◌≡◌, IfOk};
ghost use Rattle.ix_line.specs.Help.{as_flag, help_of, help_on_command};
ghost use Rattle.ix_line.specs.Lines.{texts_of};

use std::alloc::{AllocError, Global};

/// What `ix --help` prints.
pub const HELP: &str = "\
Finds the documents of a collection that answer a query.

Usage: ix COMMAND ..

Commands, in the order in which they are met:
  ask       prints the names of the documents of a collection that answer a query
            ix ask examples/mail.txt 'contract AND NOT hotel'
  build     builds an index of a collection, to be searched as often as one likes
            ix build examples/mail.txt mail.ix
  search    prints the names of the documents of an index or an archive that answer a query
            ix search mail.ix 'contract AND NOT hotel'
  terms     prints the terms of an index that match a pattern
            ix terms mail.ix 'contr*'
  add       adds the documents of a collection to an archive, a folder that grows
            ix add mail.archive examples/mail.txt
  remove    removes documents from an archive, by their names
            ix remove mail.archive 2026-03-06/anna-3
  check     looks for damage in index files, and prints what it finds
            ix check mail.ix
  run       inverts a part of a collection into a run file, to be merged elsewhere
            ix run examples/mail.txt mail.run
  merge     merges run files, in any order, and index files into an index
            ix merge mail.ix mail.run
  upgrade   writes an index anew, in the newest version of the format
            ix upgrade mail.ix mail-2.ix
  live      carries out a script that adds documents, removes them and asks in between
            ix live mail.live

`ix COMMAND --help` and `ix help COMMAND` tell more of a command.

A collection is a text in which each line is a document:
its name, a TAB, and its text.

What can be asked:
  fox               documents that hold the word, in any case
  \"brown fox\"       the words one after another
  a AND b           what answers a and b
  a OR b            what answers a, or b, or both
  NOT a             what does not answer a
  a NEAR/3 b        both words, at most 3 positions apart, in either order
  inter*, re*ed     a word that begins so, or begins and ends so
  (a OR b) AND c    brackets group; NOT binds tightest, and OR least

Exit status: 0 something was found, or help was asked for; 1 nothing was found;
2 refused, and one line on the error output says why.

Examples:
  ix ask examples/mail.txt 'contract AND NOT hotel'
  ix ask examples/mail.txt '\"flights to london\" OR umbrella NEAR/3 station'
";

/// What `ix ask --help` prints.
pub const HELP_ON_ASK: &str = "\
Prints the names of the documents of a collection that answer a query, one a line.

Usage: ix ask [--stop FILE] [--block N] [--bytes N] [--workers W] COLLECTION QUERY

  COLLECTION     the file of documents; `-` is the standard input
  QUERY          the query, as one argument
  --stop FILE    a file of words to leave out, one a line
  --block N      at most how many documents are inverted at a time,
                 from 1 to 268435456; without it 1024
  --bytes N      in place of --block: documents are inverted at a time until their
                 texts have this many bytes, from 1 to 268435456
  --workers W    how many threads invert them, from 1 to 64; without it 4

An index of the collection is built in memory, and answers. The answer is the same
whatever N and W are. To ask more than once, build the index once and search it.

A collection is a text in which each line is a document:
its name, a TAB, and its text.

What can be asked:
  fox               documents that hold the word, in any case
  \"brown fox\"       the words one after another
  a AND b           what answers a and b
  a OR b            what answers a, or b, or both
  NOT a             what does not answer a
  a NEAR/3 b        both words, at most 3 positions apart, in either order
  inter*, re*ed     a word that begins so, or begins and ends so
  (a OR b) AND c    brackets group; NOT binds tightest, and OR least

Exit status: 0 something was found, or help was asked for; 1 nothing was found;
2 refused, and one line on the error output says why.

Examples:
  ix ask examples/mail.txt 'contract AND NOT hotel'
  ix ask examples/mail.txt '\"flights to london\" OR umbrella NEAR/3 station'
";

/// What `ix build --help` prints.
pub const HELP_ON_BUILD: &str = "\
Builds an index of a collection: a file that is searched without reading the collection.

Usage: ix build [--stop FILE] [--block N] [--bytes N] [--workers W] [--runs FOLDER]
                COLLECTION INDEX

  COLLECTION     the file of documents; `-` is the standard input
  INDEX          the index file to be written; it is created once COLLECTION was read
  --stop FILE    a file of words to leave out, one a line
  --block N      at most how many documents are inverted at a time,
                 from 1 to 268435456; without it 1024
  --bytes N      in place of --block: documents are inverted at a time until their
                 texts have this many bytes, from 1 to 268435456
  --workers W    how many threads invert them, from 1 to 64; without it 4
  --runs FOLDER  a folder, which has to exist: what was inverted waits in files there
                 until all of it is merged, and takes less memory; without it in memory

The index is the same whatever N, W and FOLDER are. The files in FOLDER are run-0000000000
and so on; such files are overwritten, and removed at the end, also after a refusal.

A collection is a text in which each line is a document:
its name, a TAB, and its text.

Exit status: 0 the index was written, or help was asked for; 2 refused, and one line
on the error output says why; the index file may then hold a beginning.

Examples:
  ix build examples/mail.txt mail.ix
  ix build --workers 8 --block 256 examples/mail.txt mail.ix
  mkdir runs; ix build --runs runs examples/mail.txt mail.ix
";

/// What `ix add --help` prints.
pub const HELP_ON_ADD: &str = "\
Adds the documents of a collection to an archive: a folder that grows, and that is searched
as an index is.

Usage: ix add [--stop FILE] [--block N] [--bytes N] [--workers W] ARCHIVE COLLECTION

  ARCHIVE        the folder of the archive; a path that does not exist, or an empty
                 folder, becomes an archive
  COLLECTION     the file of documents; `-` is the standard input
  --stop FILE    a file of words to leave out, one a line: those of an archive are the
                 ones of its first call; without it they are used again
  --block N      at most how many documents are inverted at a time,
                 from 1 to 268435456; without it 1024
  --bytes N      in place of --block: documents are inverted at a time until their
                 texts have this many bytes, from 1 to 268435456
  --workers W    how many threads invert them, from 1 to 64; without it 4

The documents come behind those of the archive. All documents of a call are added, or none:
so it is after an error, and if the program is killed or the machine loses power at any
moment. After status 0 they are in the archive, whatever happens then.

Documents of one name may be added again and again, and all of them are there. To replace
documents, remove their names first.

A collection is a text in which each line is a document:
its name, a TAB, and its text.

Nothing is printed.

Exit status: 0 the documents were added, or help was asked for; 2 refused, and one line
on the error output says why.

Examples:
  ix add mail.archive examples/mail.txt
  ix search mail.archive 'contract AND NOT hotel'
  ix add --stop examples/stop.txt letters.archive examples/mail.txt
";

/// What `ix remove --help` prints.
pub const HELP_ON_REMOVE: &str = "\
Removes documents from an archive: all documents of these names that are in it now.

Usage: ix remove ARCHIVE NAME...
       ix remove --names FILE ARCHIVE

  ARCHIVE         the folder of the archive
  NAME...         the names of the documents, one or more
  --names FILE    in place of NAME...: a file of names, one a line; `-` is the standard
                  input

A document that is added later under one of these names is there. A name of which there is
no document is passed over, and so is an empty line of FILE.

All of these documents are removed, or none: so it is after an error, and if the program is
killed or the machine loses power at any moment. After status 0 they are removed, whatever
happens then.

Nothing is printed.

Exit status: 0 documents were removed, or help was asked for; 1 there is no document of
these names, and the archive is as it was; 2 refused, and one line on the error output
says why.

Examples:
  ix remove mail.archive 2026-03-06/anna-3
  ix remove mail.archive -- -draft
  cut -f 1 new.txt | ix remove --names - mail.archive; ix add mail.archive new.txt
";

/// What `ix live --help` prints.
pub const HELP_ON_LIVE: &str = "\
Carries out a script on a live index, which is searched while it grows.

Usage: ix live [--stop FILE] [--block N] [--bytes N] [--workers W] [--searchers S] SCRIPT

  SCRIPT         the file of the script; `-` is the standard input
  --stop FILE    a file of words to leave out, one a line
  --block N      at most how many added documents are inverted at a time,
                 from 1 to 268435456; without it 1024
  --bytes N      in place of --block: added documents are inverted at a time until their
                 texts have this many bytes, from 1 to 268435456
  --workers W    how many threads invert them, from 1 to 64; without it 4
  --searchers S  how many threads answer queries, from 1 to 64; without it 2

Each line of a script is empty, or one of these:
  add PATH       adds the documents of the collection in this file
  remove D       removes the document of this number; they are numbered from 0
                 in the order in which they are added
  publish        publishes all that was added and removed
  ask QUERY      answers the query from what is published

The script is read whole first: one with a faulty line is refused before a step is carried
out. For each query a line is printed, with how many documents answer it, a TAB, and the
query; then their names, one a line. The answers are the same whatever N, W and S are.

A collection is a text in which each line is a document:
its name, a TAB, and its text.

Exit status: 0 some query was answered by a document, or help was asked for; 1 none was;
2 refused, and one line on the error output says why; the answers to the queries before
the last `publish` above the step that was refused are printed then.

Example, of a script of five lines in the file mail.live:
  add examples/mail.txt
  remove 0
  publish
  ask contract AND NOT hotel
  ask \"flights to london\" OR umbrella NEAR/3 station

  ix live mail.live
";

/// What `ix search --help` prints.
pub const HELP_ON_SEARCH: &str = "\
Prints the names of the documents of an index or an archive that answer a query, one a
line.

Usage: ix search [--trust] INDEX QUERY

  INDEX          the file of the index, or the folder of an archive; `-` is the standard
                 input
  QUERY          the query, as one argument
  --trust        read only the parts of INDEX that the query needs, and trust the rest

The words that were left out of the index are no words of a query either.

Without --trust every byte of an index file is checked, and a file that is damaged anywhere
is an error. With --trust only what the query needs is read, so that a search of a large
index takes milliseconds; damage in a part that is not read is not noticed. Use it for
files that ix wrote and that are kept well: `ix check` looks at a whole file.
`-`, a pipe and a device are always read whole, with or without --trust.

Of an archive only what the query needs is read, with or without --trust, since its files
stay as ix wrote them.

What can be asked:
  fox               documents that hold the word, in any case
  \"brown fox\"       the words one after another
  a AND b           what answers a and b
  a OR b            what answers a, or b, or both
  NOT a             what does not answer a
  a NEAR/3 b        both words, at most 3 positions apart, in either order
  inter*, re*ed     a word that begins so, or begins and ends so
  (a OR b) AND c    brackets group; NOT binds tightest, and OR least

Exit status: 0 something was found, or help was asked for; 1 nothing was found;
2 refused, and one line on the error output says why.

Examples:
  ix search mail.ix 'contract AND NOT hotel'
  ix search mail.ix '\"flights to london\" OR umbrella NEAR/3 station'
  ix search --trust mail.ix contract
  ix search mail.archive contract
";

/// What `ix terms --help` prints.
pub const HELP_ON_TERMS: &str = "\
Prints the terms of an index that match a pattern, one a line, in the order of
their bytes: the term, a TAB, and in how many documents it is.

Usage: ix terms [--trust] INDEX PATTERN

  INDEX      the file of the index; `-` is the standard input
  PATTERN    the pattern, as one argument, with at least one star
  --trust    read only the parts of INDEX that the pattern needs, and trust the rest

A term is a word without its case. A star stands for any characters, or none:
  inter*     terms that begin so
  *ation     terms that end so
  re*ed      terms that begin and end so
  *tract*    terms that hold this

Without --trust every byte of the index is checked, and an index that is damaged anywhere
is an error. With --trust only what the pattern needs is read, which takes milliseconds;
damage in a part that is not read is not noticed. Use it for files that ix wrote and that
are kept well: `ix check` looks at a whole file.
`-`, a pipe and a device are always read whole, with or without --trust.

Exit status: 0 something was found, or help was asked for; 1 nothing was found;
2 refused, and one line on the error output says why.

Examples:
  ix terms mail.ix 'contr*'
  ix terms --trust mail.ix '*tract*'
";

/// What `ix check --help` prints.
pub const HELP_ON_CHECK: &str = "\
Reads index files whole, and prints a line for each that is damaged.

Usage: ix check INDEX...

  INDEX...    the index files, one or more; `-` is the standard input

Every byte of a file is checked, as in a search without --trust. Of an index that is
sound nothing is printed. Of each other file a line is printed: its path, a TAB, and
what is wrong with it. The file mail.ix was cut short, and old.ix cannot be read:
  mail.ix<TAB>index 3: Trailer
  old.ix<TAB>file 1: Read

All files are looked at, also those behind a file that is damaged.

Exit status: 0 all files are sound, or help was asked for; 2 at least one is not, or
the command was refused, and then one line on the error output says why.

Examples:
  ix check mail.ix
  ix check mail.ix mail-2.ix
";

/// What `ix run --help` prints.
pub const HELP_ON_RUN: &str = "\
Inverts a collection, or a part of one, into a run file. Runs that are made on several
machines, each of a part of one collection, are merged into one index.

Usage: ix run [--stop FILE] [--first D] COLLECTION RUN

  COLLECTION     the file of documents; `-` is the standard input
  RUN            the run file to be written; it is created once the run is made
  --stop FILE    a file of words to leave out, one a line; the same for all runs
  --first D      the number of the first document in the whole collection,
                 from 0 to 268435456; without it 0

A collection is a text in which each line is a document:
its name, a TAB, and its text.

Exit status: 0 the run was written, or help was asked for; 2 refused, and one line
on the error output says why; the run file may then hold a beginning.

Examples:
  ix run examples/mail.txt mail.run
  ix run --first 1000 examples/mail.txt mail-1000.run
";

/// What `ix merge --help` prints.
pub const HELP_ON_MERGE: &str = "\
Merges run files and index files into an index of the whole collection. They are those
of all its parts, made by `ix run`, `ix build` or `ix merge` under the same stop words.

Usage: ix merge INDEX INPUT...

  INDEX          the index file to be written; it is created once each INPUT was opened
  INPUT...       the run files and index files, one or more; runs in any order;
                 `-` is the standard input, for a run

A run tells the number of its first document. An index counts its documents from 0, and
stands behind all files that are named before it: so name indexes in their order.
Each document number from 0 to the highest belongs to exactly one of the files.
The index is the same as `ix build` makes of the whole collection.

Exit status: 0 the index was written, or help was asked for; 2 refused, and one line
on the error output says why; the index file may then hold a beginning.

Examples:
  ix merge mail.ix mail.run
  ix merge mail.ix mail-1000.run mail.run
  ix merge all.ix mail.ix mail-2.ix
";

/// What `ix upgrade --help` prints.
pub const HELP_ON_UPGRADE: &str = "\
Writes the collection of an index anew, as an index of the newest version.

Usage: ix upgrade OLD NEW

  OLD            the file of the index, of version 1 or 2; `-` is the standard input
  NEW            the index file to be written; it is created once OLD was read

An index of version 2 gives the same bytes.

Exit status: 0 the index was written, or help was asked for; 2 refused, and one line
on the error output says why; the new file may then hold a beginning.

Example:
  ix upgrade mail.ix mail-2.ix
";

/// The words with `help X` spelled as `X --help`.
pub fn with_help_as_flag<'a>(alloc: Global, words: &[&'a str]) -> Result<Vec<&'a str>, AllocError>
    ensures { IfOk result (λ list. texts_of list.items ≡ as_flag (texts_of words.now)) }
{
    match words {
        [first, rest @ ..] if *first == "help" => {
            let mut list = Vec::from_slice(alloc, rest)?;
            list.push("--help")?;
            Ok(list)
        }
        _ => Vec::from_slice(alloc, words),
    }
}

/// The help that is asked for: on the command that the first word names, and else on the program.
#[tactic(auto, unfolding(crate::specs::Help::help_of))]
pub fn help_on(words: &[&str]) -> &'static str
    ensures { result.now ≡ help_of (texts_of words.now) }
{
    match words.first() {
        Some(name) => help_on_command(name),
        None => HELP,
    }
}

#[tactic(auto, unfolding(crate::specs::Help::help_on_command))]
fn help_on_command(name: &str) -> &'static str
    ensures { result.now ≡ help_on_command name.now }
{
    match name {
        "ask" => HELP_ON_ASK,
        "search" => HELP_ON_SEARCH,
        "terms" => HELP_ON_TERMS,
        "check" => HELP_ON_CHECK,
        "run" => HELP_ON_RUN,
        "merge" => HELP_ON_MERGE,
        "upgrade" => HELP_ON_UPGRADE,
        "build" => HELP_ON_BUILD,
        "add" => HELP_ON_ADD,
        "remove" => HELP_ON_REMOVE,
        "live" => HELP_ON_LIVE,
        _ => HELP,
    }
}
