//! Lines of words between blanks, and what they mean.

use cmm_command::command_of;
use std::alloc::{AllocError, Global};
use std::fmt::Debug;
use std::test::Fail;

/// Lines that are commands.
static COMMANDS: [(&str, &str); 20] = [
    ("build a -o x", "Build { units: [\"a\"], image: \"x\" }"),
    (
        "build -o x a b",
        "Build { units: [\"a\", \"b\"], image: \"x\" }",
    ),
    (
        "build a -ox b",
        "Build { units: [\"a\", \"b\"], image: \"x\" }",
    ),
    ("build a -o=x", "Build { units: [\"a\"], image: \"x\" }"),
    (
        "build a -o x -- -b --c",
        "Build { units: [\"a\", \"-b\", \"--c\"], image: \"x\" }",
    ),
    ("build - -o x", "Build { units: [\"-\"], image: \"x\" }"),
    (
        "run x",
        "Run { image: \"x\", client: None, limits: RunLimits { steps: 1000000000, stack: 1048576 }, save: None }",
    ),
    (
        "run --client c x --steps 5 --stack=32 --save=s",
        "Run { image: \"x\", client: Some(\"c\"), limits: RunLimits { steps: 5, stack: 32 }, save: Some(\"s\") }",
    ),
    (
        "run --steps=1000000000000000000 --stack 268435456 -- --save",
        "Run { image: \"--save\", client: None, limits: RunLimits { steps: 1000000000000000000, stack: 268435456 }, save: None }",
    ),
    (
        "run x --steps 0 --stack 0",
        "Run { image: \"x\", client: None, limits: RunLimits { steps: 0, stack: 0 }, save: None }",
    ),
    (
        "run x --steps 00000000000000000012",
        "Run { image: \"x\", client: None, limits: RunLimits { steps: 12, stack: 1048576 }, save: None }",
    ),
    (
        "exec a --stack 16 b",
        "Exec { units: [\"a\", \"b\"], client: None, limits: RunLimits { steps: 1000000000, stack: 16 } }",
    ),
    (
        "exec --client=a=b c",
        "Exec { units: [\"c\"], client: Some(\"a=b\"), limits: RunLimits { steps: 1000000000, stack: 1048576 } }",
    ),
    ("walk x s", "Walk { image: \"x\", snapshot: \"s\" }"),
    ("walk -- x --", "Walk { image: \"x\", snapshot: \"--\" }"),
    ("gen 0", "Generate { number: 0 }"),
    ("gen 00000000000999999999", "Generate { number: 999999999 }"),
    ("elf x -o f", "Elf { image: \"x\", file: \"f\" }"),
    ("elf -of -- -x", "Elf { image: \"-x\", file: \"f\" }"),
    ("segments f", "Segments { file: \"f\" }"),
];

/// Lines whose words no command takes.
static NOT_TAKEN: [&str; 19] = [
    "",
    "compile a",
    "Build a -o x",
    "--help",
    "build -o x",
    "build a",
    "build a -o",
    "build a -o x -o y",
    "build a -o x --help",
    "build a -o x --steps 5",
    "build a -o x -b",
    "run",
    "run x y",
    "run x --steps 5 --steps 5",
    "run x -s 5",
    "run x --step 5",
    "exec a --save s",
    "walk x",
    "walk x s t",
];

/// Lines that name too few files or too many, or have an option of another command.
static NO_FILES: [&str; 7] = [
    "elf x",
    "elf -o f",
    "elf x y -o f",
    "elf x -o f --save s",
    "segments",
    "segments f g",
    "segments f -o g",
];

/// Lines with a number that is not in form or range.
static NO_NUMBERS: [&str; 14] = [
    "run x --steps 1000000000000000001",
    "run x --steps 000000000000000000012",
    "run x --steps 18446744073709551616",
    "run x --steps 0x10",
    "run x --steps +5",
    "run x --steps=-5",
    "run x --steps=",
    "exec a --stack 8",
    "exec a --stack 268435472",
    "exec a --stack 1048576k",
    "gen 1000000000",
    "gen 12a",
    "gen",
    "gen 1 2",
];

fn words_of(alloc: Global, line: &str) -> Result<Vec<String>, AllocError> {
    let mut words = Vec::new(alloc);
    for word in line.split(' ') {
        words.push(String::from_str(alloc, word)?)?;
    }
    Ok(words)
}

fn shown<T: Debug + Drop>(alloc: Global, value: T) -> Result<String, AllocError> {
    format!(in alloc; "{value:?}")
}

fn meant(alloc: Global, line: &str) -> Result<String, AllocError> {
    let words = words_of(alloc, line)?;
    shown(alloc, command_of(alloc, words.as_slice()))
}

#[test]
fn lines_are_commands(rt: HostRuntime) -> Result<(), Fail> {
    let alloc = rt.alloc();
    for (line, command) in COMMANDS.iter() {
        let expected = format!(in alloc; "Ok({command})")?;
        assert_eq!(rt; meant(alloc, line)?, expected, "{line}");
    }
    Ok(())
}

#[test]
fn lines_are_refused(rt: HostRuntime) -> Result<(), Fail> {
    let alloc = rt.alloc();
    let none: Vec<String> = Vec::new(alloc);
    let meaning = shown(alloc, command_of(alloc, none.as_slice()))?;
    assert_eq!(rt; meaning.as_str(), "Err(Usage)");
    let refused = NOT_TAKEN.iter().chain(NO_FILES.iter());
    for line in refused.chain(NO_NUMBERS.iter()) {
        let meaning = meant(alloc, line)?;
        assert_eq!(rt; meaning.as_str(), "Err(Usage)", "{line}");
    }
    Ok(())
}

/// Each place where a file is named takes 4,095 bytes and no more.
static NAMED: [(&str, &str); 12] = [
    ("build ", " -o x"),
    ("build a ", " -o x"),
    ("build a -o ", ""),
    ("run ", ""),
    ("run x --client ", ""),
    ("run x --save ", ""),
    ("exec ", ""),
    ("walk ", " s"),
    ("walk x ", ""),
    ("elf ", " -o f"),
    ("elf x -o ", ""),
    ("segments ", ""),
];

#[test]
fn names_have_a_longest(rt: HostRuntime) -> Result<(), Fail> {
    let alloc = rt.alloc();
    let longest = "n".repeat(alloc, 4095)?;
    for (before, after) in NAMED.iter() {
        let line = format!(in alloc; "{before}{longest}{after}")?;
        let meaning = meant(alloc, line.as_str())?;
        assert!(rt; meaning.starts_with("Ok("), "{before}");
        let line = format!(in alloc; "{before}{longest}n{after}")?;
        let meaning = meant(alloc, line.as_str())?;
        assert_eq!(rt; meaning.as_str(), "Err(Usage)", "{before}");
    }
    Ok(())
}
