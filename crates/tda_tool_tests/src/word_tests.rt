// The words of commands.
use crate::samples::{FIT, MEASURE, words_of};
use std::test::Fail;
use tda_command::judge;

// Words, and whether they are a command.
const LINES: [(&str, bool); 24] = [
    (FIT, true),
    (
        "fit --tables e --spine b --totals d --schema a --facilities c --measurements m --prices p",
        true,
    ),
    (
        "fit --schema a --spine a --facilities a --totals - --tables e --measurements m --prices p",
        true,
    ),
    (
        "fit --schema --spine --spine b --facilities c --totals d --tables --schema --measurements m --prices p",
        true,
    ),
    (
        "measure --schema a --spine b --facilities c --records d --words w --measurements m --totals t --ledger l",
        true,
    ),
    (
        "measure --schema a --spine b --facilities c --records d --words w --measurements m --totals m --ledger l",
        false,
    ),
    (
        "measure --schema a --spine b --facilities c --records d --measurements m --totals t --ledger l",
        false,
    ),
    ("", false),
    ("fit", false),
    (
        "fit --schema a --spine b --facilities c --totals d --measurements m --tables e --prices e",
        false,
    ),
    (
        "fit --schema a --spine b --facilities c --totals d --measurements m --tables e --prices m",
        false,
    ),
    ("fit --schema a --schema b", false),
    (
        "fit --schema a --spine b --totals d --measurements m --tables e --prices p",
        false,
    ),
    (
        "fit --schema a --spine b --facilities c --totals d --tables - --measurements m --prices p",
        false,
    ),
    (
        "fit --schema a --spine b --facilities c --totals d --tables c --measurements m --prices p",
        false,
    ),
    (
        "fit --schema a --spine b --facilities  --totals d --tables e --measurements m --prices p",
        false,
    ),
    (
        "fit --schema a --spine b --facilities c --totals d --tables e --measurements m --prices p f",
        false,
    ),
    (
        "fit --schema a --spine b --facilities c --totals d --tables e --measurements m --prices p --f",
        false,
    ),
    (
        "fit --schema a --spine b --facilities c --totals d --tables e --seed f --measurements m --prices p",
        false,
    ),
    (
        "fit --schema a --spine b --facilities c --totals d --seed e --measurements m --prices p",
        false,
    ),
    (
        "fit --schema a --spine b --facilities c --totals d tables e --measurements m --prices p",
        false,
    ),
    (
        "fit --schema a --schema a --facilities c --totals d --tables e --measurements m --prices p",
        false,
    ),
    (
        "fit --schema a --spine b --facilities c --totals d --tables e --tables f --measurements m --prices p",
        false,
    ),
    (
        "run --schema a --spine b --facilities c --totals d --tables e",
        false,
    ),
];

#[test]
fn words_are_a_command_and_its_pairs(rt: HostRuntime) -> Result<(), Fail> {
    for (line, want) in LINES {
        let words = words_of(rt.alloc(), line)?;
        assert_eq!(rt; judge(&words).is_some(), want, "at {line}");
    }
    Ok(())
}

#[test]
fn noise_has_one_source(rt: HostRuntime) -> Result<(), Fail> {
    let table = [
        (" --words w", true),
        (" --seed s --place 0 --budget 0", true),
        (
            " --budget 4294967296 --place 18446744073709551615 --seed s",
            true,
        ),
        (" --seed - --place 3 --budget 3", true),
        (" --seed a --place 5 --budget 5", true),
        ("", false),
        (" --seed s", false),
        (" --seed s --place 0", false),
        (" --seed s --budget 0", false),
        (" --place 0 --budget 0", false),
        (" --place 0", false),
        (" --words w --seed s", false),
        (" --words w --place 0", false),
        (" --words w --place 0 --budget 0", false),
        (" --words w --seed s --place 0 --budget 0", false),
        (" --seed s --seed s --place 0 --budget 0", false),
        (" --words w --words w", false),
        (" --words ", false),
        (" --words m", false),
        (" --words w --number 1", false),
        (" --seed s --place 18446744073709551616 --budget 0", false),
        (" --seed s --place 0 --budget 4294967297", false),
        (" --seed s --place 00 --budget 0", false),
        (" --seed s --place +1 --budget 0", false),
        (" --seed s --place -1 --budget 0", false),
        (" --seed s --place 0 --budget ", false),
    ];
    for (source, want) in table {
        let alloc = rt.alloc();
        let line = format!(in alloc; "{MEASURE}{source}")?;
        let words = words_of(alloc, line.as_str())?;
        assert_eq!(rt; judge(&words).is_some(), want, "at {source}");
    }
    Ok(())
}
