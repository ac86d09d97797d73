//! The command line: the values that its words have.

use rvm_command_line::parse_args;
use std::alloc::{AllocError, Global};
use std::test::Fail;

/// Words after the program's name, and what they ask for.
static ASKED: [(&[&str], &str); 12] = [
    // Options have defaults.
    (
        &["run", "--raw", "guest.bin"],
        "Run(RunArguments { guest: GuestArguments { image: \"guest.bin\", raw: true, harts: 1, pages: 256 }, input: None, \
            steps: 1000000, status: Command, stop_at_fault: false, trace: None, report: None, seed: None })",
    ),
    // Options reach their limits.
    (
        &[
            "run",
            "guest.elf",
            "--harts=8",
            "--pages",
            "4096",
            "--steps",
            "1000000000",
            "--input",
            "keys.txt",
            "--order",
            "4294967295",
        ],
        "Run(RunArguments { guest: GuestArguments { image: \"guest.elf\", raw: false, harts: 8, pages: 4096 }, \
            input: Some(\"keys.txt\"), steps: 1000000000, status: Command, stop_at_fault: false, trace: None, \
            report: None, seed: Some(4294967295) })",
    ),
    (
        &["asm", "hello.s", "hello.elf"],
        "Asm(AsmArguments { source: \"hello.s\", output: \"hello.elf\" })",
    ),
    (
        &["dis", "--raw", "hello.bin"],
        "Dis(DisArguments { image: \"hello.bin\", raw: true })",
    ),
    (
        &["debug", "hello.elf", "--pages", "7"],
        "Debug(DebugArguments { guest: GuestArguments { image: \"hello.elf\", raw: false, harts: 1, pages: 7 }, \
            extended: false })",
    ),
    (
        &["tell", "./a.socket"],
        "Tell(TellArguments { control: \"./a.socket\", line: None })",
    ),
    (
        &["tell", "./a.socket", "--explain"],
        "Tell(TellArguments { control: \"./a.socket\", line: None }), explained",
    ),
    // An audit takes up to eight journals.
    (
        &[
            "audit-journals",
            "--image",
            "i",
            "a",
            "b",
            "c",
            "d",
            "e",
            "f",
            "g",
            "h",
        ],
        "AuditJournals(AuditJournalsArguments { journals: [\"a\", \"b\", \"c\", \"d\", \"e\", \"f\", \"g\", \"h\"], \
            image: \"i\", order: false, chart: None })",
    ),
    // A live run has a limit only if one is given.
    (
        &["run", "a.elf", "--input", "-"],
        "Live(LiveArguments { guest: GuestArguments { image: \"a.elf\", raw: false, harts: 1, pages: 256 }, \
            input: Some(\"-\"), journal: None, steps: None, status: Command })",
    ),
    (
        &[
            "run",
            "a.elf",
            "--journal",
            "a.journal",
            "--steps",
            "1000000",
        ],
        "Live(LiveArguments { guest: GuestArguments { image: \"a.elf\", raw: false, harts: 1, pages: 256 }, \
            input: None, journal: Some(\"a.journal\"), steps: Some(1000000), status: Command })",
    ),
    // A replay of several journals goes by turns.
    (
        &[
            "replay", "a", "b", "--image", "i", "--turns", "7", "--script", "-",
        ],
        "ReplayTurns(ReplayTurnsArguments { journals: [\"a\", \"b\"], image: \"i\", turns: 7, script: \"-\" })",
    ),
    (
        &["replay", "a"],
        "Replay(ReplayArguments { journal: \"a\", image: None, until: None, script: None })",
    ),
];

/// Words that ask for nothing: nine journals, and a replay of two journals to its end.
static REFUSED: [&[&str]; 2] = [
    &[
        "audit-journals",
        "--image",
        "i",
        "a",
        "b",
        "c",
        "d",
        "e",
        "f",
        "g",
        "h",
        "j",
    ],
    &["replay", "a", "b", "--image", "i"],
];

/// The words of a command line, with the program's name.
fn with_name(alloc: Global, words: &[&'static str]) -> Result<Vec<&'static str>, AllocError> {
    let mut named = Vec::with_capacity(alloc, words.len() + 1)?;
    named.push("rvmove")?;
    named.extend_from_slice(words)?;
    Ok(named)
}

/// What words ask for, as text.
fn asked(alloc: Global, words: &[&'static str]) -> Result<String, Fail> {
    let words = with_name(alloc, words)?;
    let line = parse_args(alloc, &words)?;
    let explained = if line.explain { ", explained" } else { "" };
    Ok(format!(in alloc; "{:?}{explained}", line.arguments)?)
}

#[test]
fn words_have_these_values(rt: HostRuntime) -> Result<(), Fail> {
    for (words, wanted) in ASKED.iter() {
        assert_eq!(rt; asked(rt.alloc(), words)?.as_str(), *wanted);
    }
    for words in REFUSED.iter() {
        let words = with_name(rt.alloc(), words)?;
        assert!(rt; parse_args(rt.alloc(), &words).is_err());
    }
    Ok(())
}
