// Runs a job from standard input, or those in the files named as arguments, and prints the record.
#![tactic(auto)]

use session::{Record, run_job};
use std::io::Read;
use std::process::ExitCode;
use std::rt::{Env, Files};
use std::{env, fs, io};

fn main(rt: HostRuntime) -> anyhow::Result<ExitCode> {
    match run_all(&rt, rt.stdin())? {
        None => Ok(ExitCode::SUCCESS),
        Some(error) => {
            rt.eprintln(error.as_str())?;
            Ok(ExitCode::FAILURE)
        }
    }
}

// Runs each job, up to a line that is not understood, and answers what is wrong with that line. That is no Err: out of `main`
// it would print a line of its own.
fn run_all(
    rt: &(impl Env + Files + Print + AllocGlobal),
    input: impl Read + Drop,
) -> anyhow::Result<Option<String>> {
    let files = env::args(rt)?.skip(1);
    if files.len() == 0 {
        let text = io::read_to_string(rt.alloc(), input)?;
        return run(rt, text.as_str());
    }
    for file in files {
        let text = fs::read_to_string(rt, file.as_str())?;
        if let Some(error) = run(rt, text.as_str())? {
            return Ok(Some(error));
        }
    }
    Ok(None)
}

// The record goes to standard output, also where a line ends the job early.
fn run(rt: &(impl Print + AllocGlobal), text: &str) -> anyhow::Result<Option<String>> {
    let Record { text, error } = run_job(rt.alloc(), text)?;
    rt.print(text.as_str())?;
    Ok(error)
}
