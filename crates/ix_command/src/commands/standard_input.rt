//! How often a line reads the standard input.

ghost use Rattle.std.specs.Prelude.{◌↔◌, ◌<◌, IsTrue, count_by};
ghost use Rattle.ix_command.specs.StandardInput.{AreBothInput, ReadsInputTwice, is_input};

use ix_line::Line;

/// The path of the standard input.
const STANDARD_INPUT: &str = "-";

/// Whether a line reads the standard input twice. The second time nothing would be left.
pub fn reads_input_twice(line: &Line<'_>) -> bool
    ensures { IsTrue result ↔ ReadsInputTwice line.now }
{
    match line {
        Line::Ask {
            stop,
            collection,
            ..
        } => are_both_input(*stop, collection),
        Line::Build {
            stop,
            collection,
            ..
        } => are_both_input(*stop, collection),
        Line::Add {
            stop,
            collection,
            ..
        } => are_both_input(*stop, collection),
        Line::Live { stop, script, .. } => are_both_input(*stop, script),
        Line::Run {
            stop,
            collection,
            ..
        } => are_both_input(*stop, collection),
        Line::Merge { inputs, .. } => are_some_input(inputs),
        Line::Check { paths } => are_some_input(paths),
        Line::Search { .. } | Line::Terms { .. } | Line::Upgrade { .. } => false,
        Line::Remove { .. } => false,
    }
}

/// Whether both a stop file and another path are the standard input.
fn are_both_input(stop: Option<&str>, other: &str) -> bool
    ensures { IsTrue result ↔ AreBothInput stop.entry other.now }
{
    match stop {
        Some(path) => path == STANDARD_INPUT && other == STANDARD_INPUT,
        None => false,
    }
}

/// Whether two or more of these paths are the standard input.
fn are_some_input(paths: &[&str]) -> bool
    ensures { IsTrue result ↔ 1 < count_by is_input paths.now }
{
    paths.iter().filter(|path| **path == STANDARD_INPUT).count() > 1
}
