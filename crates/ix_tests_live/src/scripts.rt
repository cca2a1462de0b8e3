//! Scripts: what reading one gives, and the first fault of those that are none.
use ix_script::{Step, read_script};
use ix_text::StopList;
use std::alloc::Global;
use std::test::Fail;

/// What reading the text prints: its steps, each in brackets, or the error.
fn outcome(alloc: Global, text: &str) -> Result<String, Fail> {
    let stop = StopList::read(alloc, "to")?;
    let steps = match read_script(alloc, text, &stop) {
        Ok(steps) => steps,
        Err(error) => return Ok(format!(in alloc; "{} {error}", error.number())?),
    };
    let mut shown = String::new(alloc);
    for step in &steps {
        let one = match step {
            Step::Add(path) => format!(in alloc; "[add {path}]")?,
            Step::Publish => format!(in alloc; "[publish]")?,
            Step::Ask(query, _) => format!(in alloc; "[ask {query}]")?,
            Step::Remove(number) => format!(in alloc; "[remove {number}]")?,
        };
        shown.push_str(one.as_str())?;
    }
    Ok(shown)
}

const SCRIPTS: [(&str, &str); 16] = [
    ("", ""),
    ("\npublish\n\nask  fox", "[publish][ask  fox]"),
    ("add  c1\nadd a b\n", "[add  c1][add a b]"),
    (
        "remove 0\nremove 268435455\n",
        "[remove 0][remove 268435455]",
    ),
    ("publish\npublish\nsay x\n", "1 Line(3)"),
    ("add \n", "1 Line(1)"),
    ("ask \n", "1 Line(1)"),
    ("remove\n", "1 Line(1)"),
    ("remove 07\n", "1 Line(1)"),
    ("remove +7\n", "1 Line(1)"),
    ("remove 268435456\n", "1 Line(1)"),
    (" publish\n", "1 Line(1)"),
    ("publish\r\n", "1 Line(1)"),
    ("\n\nask to\n", "2 Query(3, OnlyStopWords)"),
    ("ask a b\nsay x\n", "2 Query(1, Unexpected(2))"),
    ("say x\nask a b\n", "1 Line(1)"),
];

#[test]
fn scripts_and_their_first_faults(rt: HostRuntime) -> Result<(), Fail> {
    for (text, want) in SCRIPTS {
        let got = outcome(rt.alloc(), text)?;
        assert_eq!(rt; got.as_str(), want, "{text}");
    }
    Ok(())
}
