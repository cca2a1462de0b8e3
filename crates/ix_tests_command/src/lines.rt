//! Words, and the line that they are read as, or why they are none; and the help that they ask for.

use super::disk::Disk;
use super::session::{tell, words_of};
use ix_line::{
    HELP, HELP_ON_ADD, HELP_ON_ASK, HELP_ON_BUILD, HELP_ON_CHECK, HELP_ON_LIVE, HELP_ON_MERGE,
    HELP_ON_REMOVE, HELP_ON_RUN, HELP_ON_SEARCH, HELP_ON_TERMS, HELP_ON_UPGRADE, Line, LineError,
    read_line,
};
use std::alloc::Global;
use std::test::Fail;

/// Reads the words, which stand between spaces. It has no contract, so that the grammar is in view in none of its callers.
fn read<'a>(alloc: Global, words: &'a [&'a str]) -> Result<Line<'a>, LineError> {
    read_line(alloc, words)
}

/// What the words are read as, as it is derived, or the number of the error and its name.
fn shown(alloc: Global, text: &str) -> Result<String, Fail> {
    let words = words_of(alloc, text)?;
    match read(alloc, &words) {
        Ok(line) => Ok(format!(in alloc; "{line:?}")?),
        Err(error) => {
            let number = error.number();
            Ok(format!(in alloc; "{number} {error}")?)
        }
    }
}

const LINES: [(&str, &str); 26] = [
    (
        "ask --stop=s.txt c.txt red",
        r#"Ask { stop: Some("s.txt"), plan: Plan { cut: Docs(1024), workers: 4, runs: Memory }, collection: "c.txt", query: "red" }"#,
    ),
    (
        "ask c.txt --workers 64 --bytes=7 red",
        r#"Ask { stop: None, plan: Plan { cut: Bytes(7), workers: 64, runs: Memory }, collection: "c.txt", query: "red" }"#,
    ),
    (
        "build c.txt c.ix --block 7",
        r#"Build { stop: None, plan: Plan { cut: Docs(7), workers: 4, runs: Memory }, collection: "c.txt", index: "c.ix" }"#,
    ),
    (
        "add a c.txt --bytes 7",
        r#"Add { stop: None, plan: Plan { cut: Bytes(7), workers: 4, runs: Memory }, archive: "a", collection: "c.txt" }"#,
    ),
    (
        "add --stop s.txt a -",
        r#"Add { stop: Some("s.txt"), plan: Plan { cut: Docs(1024), workers: 4, runs: Memory }, archive: "a", collection: "-" }"#,
    ),
    (
        "remove a n -- -m",
        r#"Remove { archive: "a", names: Names(["n", "-m"]) }"#,
    ),
    (
        "remove a --names -",
        r#"Remove { archive: "a", names: List("-") }"#,
    ),
    (
        "search c.ix red",
        r#"Search { index: "c.ix", query: "red", trust: false }"#,
    ),
    (
        "search c.ix red --trust",
        r#"Search { index: "c.ix", query: "red", trust: true }"#,
    ),
    (
        "terms c.ix re*",
        r#"Terms { index: "c.ix", pattern: "re*", trust: false }"#,
    ),
    (
        "terms --trust c.ix re*",
        r#"Terms { index: "c.ix", pattern: "re*", trust: true }"#,
    ),
    (
        "check c.ix -- -d.ix",
        r#"Check { paths: ["c.ix", "-d.ix"] }"#,
    ),
    (
        "merge c.ix 4.run -- -2.run 0.run",
        r#"Merge { index: "c.ix", inputs: ["4.run", "-2.run", "0.run"] }"#,
    ),
    ("", "1 Clap(MissingSubcommand)"),
    ("ask c.txt", "1 Clap(MissingRequiredArgument)"),
    ("check", "1 Clap(MissingRequiredArgument)"),
    ("ask c.txt red sea", "1 Clap(UnknownArgument)"),
    ("ask --all c.txt red", "1 Clap(UnknownArgument)"),
    ("find c.txt red", "1 Clap(InvalidSubcommand)"),
    ("ask c.txt red --stop", "1 Clap(InvalidValue)"),
    ("run --first=-1 c.txt c.run", "1 Clap(ValueValidation)"),
    ("remove --names=f", "1 Clap(MissingRequiredArgument)"),
    ("ask --block 7 --bytes 7 c.txt red", "3 Both"),
    ("add --runs r a c.txt", "1 Clap(UnknownArgument)"),
    ("remove --names=f a n", "4 NamesOrList"),
    ("remove a", "4 NamesOrList"),
];

#[test]
fn lines_that_are_read_and_refused(rt: HostRuntime) -> Result<(), Fail> {
    for (text, want) in LINES {
        assert_eq!(rt; shown(rt.alloc(), text)?.as_str(), want);
    }
    Ok(())
}

/// Words that ask for help, the help that is printed, and what stands in it.
const HELPS: [(&str, &str, &str); 14] = [
    ("--help", HELP, "\n  a NEAR/3 b "),
    ("-h", HELP, "\nExit status: 0 "),
    ("help", HELP, "\nA collection is a text"),
    ("ask -h five", HELP_ON_ASK, "\n  inter*, re*ed "),
    ("help search", HELP_ON_SEARCH, "\n  a NEAR/3 b "),
    ("terms -h", HELP_ON_TERMS, "Usage: ix terms "),
    ("check -h", HELP_ON_CHECK, "Usage: ix check INDEX...\n"),
    ("build --help", HELP_ON_BUILD, "Usage: ix build "),
    ("add --help", HELP_ON_ADD, "Usage: ix add "),
    (
        "help remove",
        HELP_ON_REMOVE,
        "Usage: ix remove ARCHIVE NAME...\n",
    ),
    ("live --help", HELP_ON_LIVE, "Usage: ix live "),
    ("run --help", HELP_ON_RUN, "Usage: ix run "),
    (
        "help merge",
        HELP_ON_MERGE,
        "\nUsage: ix merge INDEX INPUT...\n",
    ),
    ("help upgrade", HELP_ON_UPGRADE, "Usage: ix upgrade "),
];

/// What is said of an option each time.
const OPTIONS: [(&str, &str); 4] = [
    ("  --block N ", "from 1 to 268435456; without it 1024\n"),
    ("  --workers W ", "from 1 to 64; without it 4\n"),
    ("  --searchers S ", "from 1 to 64; without it 2\n"),
    ("  --first D ", "from 0 to 268435456; without it 0\n"),
];

#[test]
fn help_of_the_program_and_of_each_command(rt: HostRuntime) -> Result<(), Fail> {
    let mut disk = Disk::new(rt.alloc())?;
    for (line, text, part) in HELPS {
        let words = words_of(rt.alloc(), line)?;
        let mut told = String::new(rt.alloc());
        tell(&rt, &mut disk, &words, &mut told)?;
        assert_eq!(rt; told.as_str(), text);
        assert!(rt; text.contains(part), "{part}");
        assert_eq!(rt; text.matches("Usage: ").count(), 1);
        for (option, said) in OPTIONS {
            assert_eq!(rt; text.matches(option).count(), text.matches(said).count());
        }
    }
    Ok(())
}
