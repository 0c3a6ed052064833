//! Opens the real files, and makes the one call that runs the program.
#![tactic(auto)]

use chew_commands::status;
use chew_make::make_call;
use chew_outside::{Fails, FolderDisk, FreeGate, MemDisk, MemSource, Source, StdSink, StdSource};
use chewing_cli::{Command, build_call, check_call, chewing, command_of, dump_call};
use std::alloc::{AllocError, Global};
use std::env::Env;
use std::fs::{File, Files, OpenOptions};
use std::io::{Eprint, ErrorKind, Print};
use std::process::ExitCode;
use std::sync::Wait;
use std::thread::Threads;
use std::{env, fs, io};

/// The status where a file can't be opened. No call gives it.
const NOT_OPENED: u8 = 13;

fn main(rt: HostRuntime) -> ExitCode {
    match words_of(&rt) {
        Ok(words) => ExitCode::from(run_words(&rt, words.as_slice())),
        Err(error) => ExitCode::from(no_words(&rt, error.kind())),
    }
}

/// The words can't be had: there was no memory for them, or one of them is no text.
fn no_words<R: Print + AllocGlobal + Wait + Threads + Sync>(rt: &R, kind: ErrorKind) -> u8 {
    match kind {
        ErrorKind::OutOfMemory => out_of_memory(rt),
        _ => refuse(rt, &[]),
    }
}

/// The words of the command line behind the program's name.
fn words_of<R: Env + AllocGlobal>(rt: &R) -> io::Result<Vec<String>> {
    let mut words = Vec::new(rt.alloc());
    for word in env::args(rt)?.skip(1) {
        words.push(word)?;
    }
    Ok(words)
}

/// Runs the words.
fn run_words<R: Files<File = File> + Print + Eprint + AllocGlobal + Wait + Threads + Sync>(
    rt: &R,
    words: &[String],
) -> u8 {
    match lent(rt.alloc(), words) {
        Ok(words) => run_command(rt, words.as_slice()),
        Err(AllocError) => out_of_memory(rt),
    }
}

fn lent<'a>(alloc: Global, words: &'a [String]) -> Result<Vec<&'a str>, AllocError> {
    words.iter().map(|word| word.as_str()).collect(alloc)
}

/// Runs the command that the words are, over the files that they name.
fn run_command<R: Files<File = File> + Print + Eprint + AllocGlobal + Wait + Threads + Sync>(
    rt: &R,
    words: &[&str],
) -> u8 {
    match (command_of(words), words) {
        (Ok(Command::Build { .. }), [_, from, to]) => build_file(rt, from, to),
        (Ok(Command::Check { .. }), [_, from]) => check_file(rt, from),
        (Ok(Command::Dump { .. }), [_, from]) => dump_file(rt, from),
        (Ok(Command::Make { number }), _) => make(rt, number),
        _ => run_or_refuse(rt, words),
    }
}

/// Builds the image of a file in another, which is made anew once the first is opened.
fn build_file<R: Files + Eprint + AllocGlobal>(rt: &R, from: &str, to: &str) -> u8 {
    let Ok(from_file) = fs::open(rt, from) else {
        return not_opened(rt, from);
    };
    let Ok(to_file) = fs::create(rt, to) else {
        return not_opened(rt, to);
    };
    let mut source = StdSource::of(from_file);
    let mut sink = StdSink::of(to_file);
    build_call(rt.alloc(), &mut source, &mut sink)
}

fn check_file<R: Files + Print + Eprint + AllocGlobal>(rt: &R, from: &str) -> u8 {
    let Ok(file) = fs::open(rt, from) else {
        return not_opened(rt, from);
    };
    let mut source = StdSource::of(file);
    let mut sink = StdSink::of(io::writer(rt));
    check_call(rt.alloc(), &mut source, &mut sink)
}

fn dump_file<R: Files + Print + Eprint + AllocGlobal>(rt: &R, from: &str) -> u8 {
    let Ok(file) = fs::open(rt, from) else {
        return not_opened(rt, from);
    };
    let mut source = StdSource::of(file);
    let mut sink = StdSink::of(io::writer(rt));
    dump_call(rt.alloc(), &mut source, &mut sink)
}

/// Tells what comes of the script that is generated for a number.
fn make<R: Print + AllocGlobal>(rt: &R, number: u64) -> u8 {
    let mut sink = StdSink::of(io::writer(rt));
    make_call(rt.alloc(), number, &mut sink)
}

/// Runs the words over the files that they name, or over nothing if they are no `run`.
fn run_or_refuse<R: Files<File = File> + Print + Eprint + AllocGlobal + Wait + Threads + Sync>(
    rt: &R,
    words: &[&str],
) -> u8 {
    match names_of(words) {
        Some(names) => run_files(rt, words, &names),
        None => refuse(rt, words),
    }
}

/// The names of the files that a run reads, and of the folder that it keeps the user's dictionary in.
#[derive(Drop)]
struct Names<'a> {
    system: &'a str,
    script: &'a str,
    folder: &'a str,
    settings: Option<&'a str>,
}

/// The names in the words of a run.
fn names_of<'a>(words: &[&'a str]) -> Option<Names<'a>> {
    match command_of(words) {
        Ok(
            Command::Run {
                system,
                script,
                folder,
                settings,
                ..
            },
        ) => Some(Names {
            system: words.get(system)?,
            script: words.get(script)?,
            folder: words.get(folder)?,
            settings: match settings {
                Some(place) => Some(words.get(place)?),
                None => None,
            },
        }),
        _ => None,
    }
}

/// Opens the files that are read, in the order of their names, and then the slots of the folder; and runs the words over them.
fn run_files<R: Files<File = File> + Print + Eprint + AllocGlobal + Wait + Threads + Sync>(
    rt: &R,
    words: &[&str],
    names: &Names<'_>,
) -> u8 {
    let Ok(system_file) = fs::open(rt, names.system) else {
        return not_opened(rt, names.system);
    };
    let Ok(script_file) = fs::open(rt, names.script) else {
        return not_opened(rt, names.script);
    };
    let mut system = StdSource::of(system_file);
    let mut script = StdSource::of(script_file);
    match names.settings {
        Some(name) => {
            let Ok(settings_file) = fs::open(rt, name) else {
                return not_opened(rt, name);
            };
            let mut settings = StdSource::of(settings_file);
            run_over(
                rt,
                words,
                names.folder,
                &mut settings,
                &mut system,
                &mut script,
            )
        }
        None => {
            let mut settings = nothing(rt.alloc());
            run_over(
                rt,
                words,
                names.folder,
                &mut settings,
                &mut system,
                &mut script,
            )
        }
    }
}

/// Opens the slots of the folder, and runs the words over them and the sources.
fn run_over<
    R: Files<File = File> + Print + Eprint + AllocGlobal + Wait + Threads + Sync,
    S: Source,
    I: Source,
    Y: Source,
>(rt: &R, words: &[&str], folder: &str, settings: &mut S, system: &mut Y, script: &mut I) -> u8 {
    let mut disk = match open_folder(rt, folder) {
        Ok(disk) => disk,
        Err(error) => return no_folder(rt, folder, error.kind()),
    };
    let mut sink = StdSink::of(io::writer(rt));
    chewing(
        rt.alloc(),
        rt,
        words,
        settings,
        system,
        script,
        &mut sink,
        &mut disk,
        &FreeGate,
    )
    .status
}

/// The slots can't be had: there was no memory for their names, or they can't be opened.
fn no_folder<R: Print + Eprint>(rt: &R, folder: &str, kind: ErrorKind) -> u8 {
    match kind {
        ErrorKind::OutOfMemory => out_of_memory(rt),
        _ => not_opened(rt, folder),
    }
}

/// The two slots of a folder, which are made if they are absent; the folder itself is not.
fn open_folder<R: Files<File = File> + AllocGlobal>(
    rt: &R,
    folder: &str,
) -> io::Result<FolderDisk> {
    let zero = open_slot(rt, folder, "slot0")?;
    let one = open_slot(rt, folder, "slot1")?;
    Ok(FolderDisk::of(zero, one))
}

/// A file of a folder, open for reading and writing.
fn open_slot<R: Files<File = File> + AllocGlobal>(
    rt: &R,
    folder: &str,
    name: &str,
) -> io::Result<File> {
    let path = format!(in rt.alloc(); "{folder}/{name}")?;
    OpenOptions::new()
        .read(true)
        .write(true)
        .create(true)
        .open(rt, path.as_str())
}

/// A source of no bytes.
fn nothing(alloc: Global) -> MemSource {
    MemSource::of(Vec::new(alloc), 1, Fails::never(alloc))
}

/// The call over empty sources and an empty disk in memory, which refuses the words.
fn refuse<R: Print + AllocGlobal + Wait + Threads + Sync>(rt: &R, words: &[&str]) -> u8 {
    let alloc = rt.alloc();
    let mut settings = nothing(alloc);
    let mut system = nothing(alloc);
    let mut script = nothing(alloc);
    let mut disk = MemDisk::of([Vec::new(alloc), Vec::new(alloc)], Fails::never(alloc));
    let mut sink = StdSink::of(io::writer(rt));
    chewing(
        alloc,
        rt,
        words,
        &mut settings,
        &mut system,
        &mut script,
        &mut sink,
        &mut disk,
        &FreeGate,
    )
    .status
}

/// Tells that memory was wanting before the words were known, which makes no call.
fn out_of_memory<R: Print>(rt: &R) -> u8 {
    let _ = println!(rt; "memory");
    status::NO_MEMORY
}

fn not_opened<R: Eprint>(rt: &R, name: &str) -> u8 {
    let _ = eprintln!(rt; "open {name}");
    NOT_OPENED
}
