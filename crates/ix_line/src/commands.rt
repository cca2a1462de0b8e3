//! The commands of the program, as `clap` takes them.
ghost use Rattle.std.specs.Prelude.{◌≡◌, IfOk, map};
ghost use Rattle.clap.specs.Words.{app_of};
ghost use Rattle.ix_line.specs.Building.{IsArgument, IsCommand};
ghost use Rattle.ix_line.specs.Commands.{flag_rule, ix_app, ix_shapes, leaf, number_rule, operand_rule};
ghost use Rattle.ix_line.specs.Commands.{option_rule, program, words_rule};
ghost use Rattle.ix_line.specs.Forms.{rule_of_argument, shape_of_form};

use clap::builder::ValueParser;
use clap::{Arg, ArgAction, Command};
use ix_text::{MAX_DOCUMENTS, MAX_TEXT_BYTES};
use std::alloc::{AllocError, Global};

/// How many documents a block may have, and the greatest number that may be its first one's: as many as an index may
/// have.
const MOST_DOCUMENTS: i64 = MAX_DOCUMENTS as i64;

/// How many bytes the texts of a block may have: as many as a collection text.
const MOST_BYTES: i64 = MAX_TEXT_BYTES as i64;

/// How many workers a build may have.
const MAX_WORKERS: i64 = 64;

/// How many searchers a live index may have.
const MAX_SEARCHERS: i64 = 64;

/// An argument of a command.
pub(crate) enum Argument {
    /// `--name VALUE` or `--name=VALUE`, at most once.
    Text(&'static str),
    /// The same, for a number from the first to the second.
    Number(&'static str, i64, i64),
    /// `--name`, at most once.
    Flag(&'static str),
    /// A word that has to be there.
    Operand(&'static str),
    /// The words up to the end, of which one has to be there.
    Operands(&'static str),
    /// The same, but there may be none.
    Words(&'static str),
}

/// A command: its name and its arguments.
pub(crate) struct Form {
    pub(crate) name: &'static str,
    pub(crate) arguments: &'static [Argument],
}

const ASK: Form = Form {
    name: "ask",
    arguments: &[
        Argument::Text("stop"),
        Argument::Number("block", 1, MOST_DOCUMENTS),
        Argument::Number("bytes", 1, MOST_BYTES),
        Argument::Number("workers", 1, MAX_WORKERS),
        Argument::Operand("COLLECTION"),
        Argument::Operand("QUERY"),
    ],
};

const SEARCH: Form = Form {
    name: "search",
    arguments: &[
        Argument::Flag("trust"),
        Argument::Operand("INDEX"),
        Argument::Operand("QUERY"),
    ],
};

const TERMS: Form = Form {
    name: "terms",
    arguments: &[
        Argument::Flag("trust"),
        Argument::Operand("INDEX"),
        Argument::Operand("PATTERN"),
    ],
};

const CHECK: Form = Form {
    name: "check",
    arguments: &[Argument::Operands("INDEX")],
};

const RUN: Form = Form {
    name: "run",
    arguments: &[
        Argument::Text("stop"),
        Argument::Number("first", 0, MOST_DOCUMENTS),
        Argument::Operand("COLLECTION"),
        Argument::Operand("RUN"),
    ],
};

const MERGE: Form = Form {
    name: "merge",
    arguments: &[Argument::Operand("INDEX"), Argument::Operands("INPUT")],
};

const UPGRADE: Form = Form {
    name: "upgrade",
    arguments: &[Argument::Operand("OLD"), Argument::Operand("NEW")],
};

const BUILD: Form = Form {
    name: "build",
    arguments: &[
        Argument::Text("stop"),
        Argument::Number("block", 1, MOST_DOCUMENTS),
        Argument::Number("bytes", 1, MOST_BYTES),
        Argument::Number("workers", 1, MAX_WORKERS),
        Argument::Text("runs"),
        Argument::Operand("COLLECTION"),
        Argument::Operand("INDEX"),
    ],
};

const ADD: Form = Form {
    name: "add",
    arguments: &[
        Argument::Text("stop"),
        Argument::Number("block", 1, MOST_DOCUMENTS),
        Argument::Number("bytes", 1, MOST_BYTES),
        Argument::Number("workers", 1, MAX_WORKERS),
        Argument::Operand("ARCHIVE"),
        Argument::Operand("COLLECTION"),
    ],
};

const REMOVE: Form = Form {
    name: "remove",
    arguments: &[
        Argument::Text("names"),
        Argument::Operand("ARCHIVE"),
        Argument::Words("NAME"),
    ],
};

const LIVE: Form = Form {
    name: "live",
    arguments: &[
        Argument::Text("stop"),
        Argument::Number("block", 1, MOST_DOCUMENTS),
        Argument::Number("bytes", 1, MOST_BYTES),
        Argument::Number("workers", 1, MAX_WORKERS),
        Argument::Number("searchers", 1, MAX_SEARCHERS),
        Argument::Operand("SCRIPT"),
    ],
};

/// The commands.
const FORMS: [Form; 11] = [
    ASK, SEARCH, TERMS, CHECK, RUN, MERGE, UPGRADE, BUILD, ADD, REMOVE, LIVE,
];

/// The program.
pub fn ix<'a>(alloc: Global) -> Result<Command<'a>, AllocError>
    ensures { IfOk result (λ r. app_of r ≡ ix_app) }
{
    let mut commands = Vec::new(alloc);
    let forms = forms();
    for form in forms {
        commands.push(command(alloc, form)?)?;
    }
    let made = program(alloc).subcommands(commands)?;
    Ok(made)
}

// The commands, in the order of the table.
fn forms() -> &'static [Form]
    ensures { map shape_of_form result.now ≡ ix_shapes }
{
    &FORMS
}

// The program without a command.
fn program<'a>(alloc: Global) -> Command<'a>
    ensures { app_of result ≡ program }
{
    Command::new(alloc, "ix")
        .no_binary_name(true)
        .disable_help_subcommand(true)
        .subcommand_required(true)
}

// A command with its arguments.
fn command<'a>(alloc: Global, form: &Form) -> Result<Command<'a>, AllocError>
    ensures { IfOk result (IsCommand (leaf (shape_of_form form.now))) }
{
    let mut arguments = Vec::new(alloc);
    for argument in form.arguments {
        arguments.push(arg(alloc, argument))?;
    }
    let made = Command::new(alloc, form.name).args(arguments)?;
    Ok(made)
}

// An argument, as `clap` takes it.
fn arg<'a>(alloc: Global, argument: &Argument) -> Arg<'a>
    ensures { IsArgument (rule_of_argument argument.now) result }
{
    match argument {
        Argument::Text(name) => option(alloc, name),
        Argument::Number(name, low, high) => number_option(alloc, name, *low, *high),
        Argument::Flag(name) => flag(alloc, name),
        Argument::Operand(name) => operand(alloc, name),
        Argument::Operands(name) => words(alloc, name).required(true),
        Argument::Words(name) => words(alloc, name),
    }
}

fn option<'a>(alloc: Global, name: &'a str) -> Arg<'a>
    ensures { IsArgument (option_rule name.entry.now) result }
{
    // The name of its value makes it take one.
    Arg::new(alloc, name).long(name).value_name("VALUE")
}

fn number_option<'a>(alloc: Global, name: &'a str, low: i64, high: i64) -> Arg<'a>
    ensures { IsArgument (number_rule name.entry.now low high) result }
{
    Arg::new(alloc, name)
        .long(name)
        .value_name("VALUE")
        .value_parser(ValueParser::signed(low, high))
}

fn flag<'a>(alloc: Global, name: &'a str) -> Arg<'a>
    ensures { IsArgument (flag_rule name.entry.now) result }
{
    Arg::new(alloc, name).long(name).action(ArgAction::SetTrue)
}

fn operand<'a>(alloc: Global, name: &'a str) -> Arg<'a>
    ensures { IsArgument (operand_rule name.entry.now) result }
{
    Arg::new(alloc, name).required(true)
}

fn words<'a>(alloc: Global, name: &'a str) -> Arg<'a>
    ensures { IsArgument (words_rule name.entry.now) result }
{
    Arg::new(alloc, name).num_args(1..)
}
