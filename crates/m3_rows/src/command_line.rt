//! The forms as a parser of command lines reads them.

use clap::{Arg, ArgAction, Command, Error};
use std::alloc::Global;
use std::test::Fail;

/// Lists of words after the program's name, each with its subcommand, whether the flag `--json` is set, and N.
const FORMS: &[(&[&str], &str, bool, Option<&str>)] = &[
    (&["m3x", "run"], "run", false, None),
    (&["m3x", "run", "--json"], "run", true, None),
    (&["m3x", "auto"], "auto", false, None),
    (&["m3x", "auto", "--json"], "auto", true, None),
    (&["m3x", "check"], "check", false, None),
    (&["m3x", "show"], "show", false, None),
    (&["m3x", "load", "1"], "load", false, Some("1")),
    (&["m3x", "load", "500"], "load", false, Some("500")),
];

// A subcommand with the flag.
fn with_json<'a>(alloc: Global, name: &'a str) -> Result<Command<'a>, Error> {
    let json = Arg::new(alloc, "json")
        .long("json")
        .action(ArgAction::SetTrue);
    Ok(Command::new(alloc, name).arg(json)?)
}

// The command of the words that are built.
fn command<'a>(alloc: Global) -> Result<Command<'a>, Error> {
    let count = Arg::new(alloc, "N").required(true).action(ArgAction::Set);
    let load = Command::new(alloc, "load").arg(count)?;
    let command = Command::new(alloc, "m3x")
        .subcommand(with_json(alloc, "run")?)?
        .subcommand(with_json(alloc, "auto")?)?
        .subcommand(Command::new(alloc, "check"))?
        .subcommand(Command::new(alloc, "show"))?
        .subcommand(load)?;
    Ok(command)
}

#[test]
fn each_form_has_its_subcommand(rt: HostRuntime) -> Result<(), Fail> {
    let alloc = rt.alloc();
    for (words, name, json, count) in FORMS {
        let matches = command(alloc)?.try_get_matches_from(words)?;
        let (subcommand, inner) = matches.subcommand().ok_or("no subcommand")?;
        assert_eq!(rt; subcommand, *name);
        assert_eq!(rt; inner.get_flag("json"), *json);
        assert_eq!(rt; inner.get_str("N"), *count);
    }
    Ok(())
}
