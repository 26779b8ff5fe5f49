//! The program as a library: the words of the command line go to the top call, and the answer's status ends the program.
//!
//! `hkv` is this and nothing more; so are the programs beside it whose stored runs end with another status.
#![tactic(auto)]

ghost use Rattle.std.specs.Prelude.{◌≡◌};
ghost use Rattle.std.specs.Process.{exit_status};

use hk_io::{FolderShelf, Sink, StdSink};
use hk_verify::answer::{Answer, TopFault};
use hk_verify::{run_words, status};
use std::process::ExitCode;
use std::{env, io};

/// The words of the command line, with the program's name before them.
fn all_words(rt: &HostRuntime) -> io::Result<Vec<String>> {
    let mut words = Vec::new(rt.alloc());
    for word in env::args(rt)? {
        words.push(word)?;
    }
    Ok(words)
}

/// The words behind the program's name.
fn behind_name(words: &[String]) -> &[String] {
    match words {
        [_, rest @ ..] => rest,
        [] => &[],
    }
}

/// The exit code of an answer: its status.
pub fn exit_code(answer: &Answer) -> ExitCode
    ensures { exit_status result ≡ answer.now.status }
{
    ExitCode::from(answer.status)
}

/// Runs the program on the words of the command line, the files of the system and standard output.
pub fn run_program(rt: HostRuntime) -> ExitCode {
    let mut shelf = FolderShelf::new(rt);
    let mut out = StdSink::new(rt);
    let words = match all_words(&rt) {
        Ok(words) => words,
        Err(fault) if fault.kind() == io::ErrorKind::OutOfMemory => {
            let _ = out.put(b"memory\n");
            return ExitCode::from(status(&TopFault::Memory));
        }
        // a word that is not UTF-8 is a faulty command line, as no words are
        Err(_) => Vec::new(rt.alloc()),
    };
    let answer = run_words(rt.alloc(), behind_name(&words), &mut shelf, &mut out);
    exit_code(&answer)
}
