//! `rvm_test_program FILE..` makes transcripts of `rvmove` anew. A line `$ rvmove WORDS..` of a FILE is a command; its
//! standard input is the file after `<`, or else the lines `> TEXT` below it. After the command stand what it wrote to
//! standard output and to standard error, and its status if that is not 0. What goes to a file after ` > ` or ` 2> ` is
//! written there instead. Three more commands look at such a file: `$ cat FILE` prints it, `$ grep -c WORD FILE` prints
//! how many lines of it contain the word, and `$ drained FILE` prints the bytes of its lines `out N HEX`. All other lines
//! are kept.
#![tactic(auto)]

use rvm_paged::PagedRam;
use rvm_program::{System, perform};
use std::io::{self, Write};
use std::net::Net;
use std::rt::Files;
use std::sync::Wait;
use std::thread::Threads;
use std::{env, fs};

fn main(rt: HostRuntime) -> anyhow::Result<()> {
    let files: Vec<String> = env::args(&rt)?.skip(1).collect(rt.alloc())?;
    for file in files.iter() {
        println!(&rt; "== {file}")?;
        let transcript = fs::read_to_string(&rt, file.as_str())?;
        replay(&rt, transcript.as_str())?;
    }
    Ok(())
}

/// Prints each line of a transcript, and after each command what it answers.
fn replay<R: System + Print + Net + Threads + Wait + 'static>(
    rt: &R,
    transcript: &str,
) -> anyhow::Result<()>
where
    R::Stream: Send,
    R::Listener: Send + Sync,
    R::File: Send,
{
    let mut command = None;
    let mut typed = String::new(rt.alloc());
    for line in transcript.lines() {
        if let Some(text) = line.strip_prefix('>') {
            typed.push_str(text.trim_start())?;
            typed.push_str("\n")?;
        } else {
            answer(rt, command, typed.as_bytes())?;
            typed.clear();
            command = line.strip_prefix("$ ");
        }
        println!(rt; "{line}")?;
    }
    answer(rt, command, typed.as_bytes())
}

/// Prints what a command answers, if there is one.
fn answer<R: System + Print + Net + Threads + Wait + 'static>(
    rt: &R,
    command: Option<&str>,
    typed: &[u8],
) -> anyhow::Result<()>
where
    R::Stream: Send,
    R::Listener: Send + Sync,
    R::File: Send,
{
    let Some(command) = command else {
        return Ok(());
    };
    if let Some(words) = command.strip_prefix("grep -c ") {
        return count_lines(rt, words);
    }
    if let Some(file) = command.strip_prefix("cat ") {
        io::writer(rt).write_all(&fs::read(rt, file)?)?;
        return Ok(());
    }
    if let Some(file) = command.strip_prefix("drained ") {
        return print_drained(rt, file);
    }
    let (command, errors) = redirected(command, " 2> ");
    let (command, output) = redirected(command, " > ");
    match command.split_once(" < ") {
        None => perform_and_print(rt, command, typed, Targets { output, errors }),
        Some((command, file)) => {
            perform_and_print(
                rt,
                command,
                &fs::read(rt, file)?,
                Targets { output, errors },
            )
        }
    }
}

/// A command without its last words, and the file that these name, if they do.
fn redirected<'a>(command: &'a str, sign: &str) -> (&'a str, Option<&'a str>) {
    match command.split_once(sign) {
        None => (command, None),
        Some((command, file)) => (command, Some(file)),
    }
}

/// Prints how many lines of a file contain a word.
fn count_lines<R: Files + AllocGlobal + Print>(rt: &R, words: &str) -> anyhow::Result<()> {
    let Some((word, file)) = words.rsplit_once(" ") else {
        return Ok(());
    };
    let text = fs::read_to_string(rt, file)?;
    println!(rt;
        "{}",
        text.lines().filter(|line| line.contains(word)).count()
    )?;
    Ok(())
}

/// Prints the bytes of the lines `out N HEX` of a file.
fn print_drained<R: Files + AllocGlobal + Print>(rt: &R, file: &str) -> anyhow::Result<()> {
    let text = fs::read_to_string(rt, file)?;
    for line in text.lines() {
        if let Some(drained) = line.strip_prefix("out ") {
            if let Some((_, digits)) = drained.split_once(" ") {
                io::writer(rt).write_all(&hex::decode(rt.alloc(), digits)?)?;
            }
        }
    }
    Ok(())
}

/// The files that the outputs of a command go to, if they are not printed.
#[derive(Clone, Copy)]
struct Targets<'a> {
    output: Option<&'a str>,
    errors: Option<&'a str>,
}

/// Does what the words of a command ask for, and prints what it wrote, or puts it into a file.
fn perform_and_print<R: System + Print + Net + Threads + Wait + 'static>(
    rt: &R,
    command: &str,
    input: &[u8],
    targets: Targets<'_>,
) -> anyhow::Result<()>
where
    R::Stream: Send,
    R::Listener: Send + Sync,
    R::File: Send,
{
    let words: Vec<&str> = command.split_whitespace().collect(rt.alloc())?;
    let (mut output, mut errors) = (Vec::new(rt.alloc()), Vec::new(rt.alloc()));
    let mut input = input;
    let status = perform::<PagedRam, R, _, _, _, _>(
        rt,
        words.as_slice(),
        &mut input,
        &mut output,
        &mut errors,
    );
    put(rt, &output, targets.output)?;
    put(rt, &errors, targets.errors)?;
    if status != 0 {
        println!(rt; "status {status}")?;
    }
    Ok(())
}

/// Prints bytes, or puts them into a file.
fn put<R: Files + Print>(rt: &R, bytes: &[u8], target: Option<&str>) -> anyhow::Result<()> {
    match target {
        None => io::writer(rt).write_all(bytes)?,
        Some(file) => fs::write(rt, file, bytes)?,
    }
    Ok(())
}
