//! One field of a line, read from the matches of its command.
ghost use Rattle.std.specs.Prelude.{◌≡◌, ◌↔◌, IfOk, IfSome, IsSome, IsTrue, option_map};
ghost use Rattle.clap.specs.Words.{all_of, first_of, found_of, one_of, rows_of};
ghost use Rattle.ix_line.specs.Lines.{HasFlag, HasNumberOr, HasOperand, HasOperands, HasText};
ghost use Rattle.ix_line.specs.Lines.{IsNumberText, given_number, texts_of};

use clap::ArgMatches;
use clap::parser::ValueSource;
use std::alloc::{AllocError, Global};

/// The value of an option, where the words give it.
pub fn option<'a>(matches: &ArgMatches<'a>, id: &str) -> Option<&'a str>
    ensures { HasText id.now (rows_of (found_of matches.now)) result }
{
    matches.get_str(id)
}

/// Whether the words give a flag.
pub fn flag(matches: &ArgMatches<'_>, id: &str) -> bool
    ensures { HasFlag id.now (rows_of (found_of matches.now)) result }
{
    // A flag that is not given has an entry too, by its default.
    match matches.value_source(id) {
        Some(ValueSource::CommandLine) => true,
        Some(ValueSource::DefaultValue) => false,
        None => false,
    }
}

/// The number of an option, where the words give it.
pub fn number_option(matches: &ArgMatches<'_>, id: &str) -> Option<u32>
    requires { IfSome (one_of id.now (rows_of (found_of matches.now))) IsNumberText }
    ensures { result ≡ given_number id.now (rows_of (found_of matches.now)) }
{
    matches.get_one::<u32>(id)
}

/// The number of an option, or another one where the words do not give it.
pub fn number_or(matches: &ArgMatches<'_>, id: &str, otherwise: u32) -> u32
    requires { IfSome (one_of id.now (rows_of (found_of matches.now))) IsNumberText }
    ensures { HasNumberOr id.now otherwise (rows_of (found_of matches.now)) result }
{
    number_option(matches, id).unwrap_or(otherwise)
}

/// An operand that the words give.
pub fn operand<'a>(matches: &ArgMatches<'a>, id: &str) -> &'a str
    requires { IsSome (first_of id.now (rows_of (found_of matches.now))) }
    ensures { HasOperand id.now (rows_of (found_of matches.now)) result }
{
    matches.get_str(id).unwrap()
}

/// The words that an operand takes up to the end, or none if there are no such words.
pub fn several<'m, 'a>(matches: &'m ArgMatches<'a>, id: &str) -> Option<&'m [&'a str]>
    ensures { option_map (λ list. texts_of list.now) result ≡ all_of id.now (rows_of (found_of matches.now)) }
{
    matches.get_strs(id)
}

/// The operands that the words give up to their end.
pub fn operands<'a>(
    alloc: Global,
    matches: &ArgMatches<'a>,
    id: &str,
) -> Result<Vec<&'a str>, AllocError>
    requires { IsSome (all_of id.now (rows_of (found_of matches.now))) }
    ensures { IfOk result (λ list.
        HasOperands id.now (rows_of (found_of matches.now)) list.items) }
{
    Vec::from_slice(alloc, several(matches, id).unwrap())
}
