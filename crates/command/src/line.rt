// A line of a job: a command, or nothing.
ghost use Rattle.std.specs.Prelude.{◌≡◌, ℕ, ◌≤◌, List, IfOk, None, Ok, codes};
ghost use Rattle.command.specs.Cutting.{first_word};
ghost use Rattle.command.specs.Fields.{OneWhole};
ghost use Rattle.command.specs.Left.{text};
ghost use Rattle.command.specs.Lines.{IsCommand, KnownIfAny, Unreturned, Silent, Says};

use crate::exponential::{self, ExponentialLine};
use crate::misread::{LineError, Misread};
use crate::words::Words;
use std::alloc::Global;

#[derive(Debug, Drop)]
pub enum Command {
    Reset,
    // The three counts that the job writes: a line does not know the set behind it, nor its Entries.
    Open {
        functions: usize,
        numbers: usize,
        instructions: usize,
    },
    House,
    Ask {
        // The number that the job writes, 1 to 7: a line does not know the questions behind it.
        code: u8,
        x: f32,
        y: f32,
    },
    Exponential(ExponentialLine),
    Evaluate {
        index: usize,
        room: usize,
        inputs: Vec<f32>,
    },
}

// None stands for a blank line or a comment.
pub fn read_line<'a>(heap: Global, line: &'a str) -> Result<Option<Command>, LineError<'a>>
    ensures says { IfOk result (λ o. (s : List ℕ) × Unreturned line.now s × Says s o) }
    ensures silent { (s : List ℕ) → Unreturned line.now s → Silent (first_word s) → result ≡ Ok None }
    ensures known { IfOk result KnownIfAny }
{
    let mut words = Words::new(heap, line);
    let Some(first) = words.next() else {
        return Ok(None);
    };
    if first.starts_with('#') {
        return Ok(None);
    }
    let command = read_command(first, &mut words)?;
    words.end()?;
    Ok(Some(command))
}

fn read_command<'a>(first: &'a str, words: &mut Words<'a>) -> Result<Command, LineError<'a>>
    ensures { IfOk result (IsCommand first.now (text words.old) (text words.new)) }
{
    match first {
        "reset" => Ok(Command::Reset),
        "open" => read_open(words),
        "arith" => read_arithmetic(words),
        "ask" => read_ask(words),
        "exponential" => Ok(Command::Exponential(exponential::read(words)?)),
        "eval" => read_evaluate(words),
        _ => Err(LineError::new(Misread::UnknownCommand, first)),
    }
}

fn read_open<'a>(words: &mut Words<'a>) -> Result<Command, LineError<'a>>
    ensures { IfOk result (IsCommand (codes "open") (text words.old) (text words.new)) }
{
    Ok(Command::Open {
        functions: words.next_whole()?,
        numbers: words.next_whole()?,
        instructions: words.next_whole()?,
    })
}

fn read_arithmetic<'a>(words: &mut Words<'a>) -> Result<Command, LineError<'a>>
    ensures { IfOk result (IsCommand (codes "arith") (text words.old) (text words.new)) }
{
    match words.next() {
        Some("house") => Ok(Command::House),
        Some(other) => Err(LineError::new(Misread::UnknownArithmetic, other)),
        None => Err(LineError::new(Misread::TooFewWords, "arith")),
    }
}

fn read_ask<'a>(words: &mut Words<'a>) -> Result<Command, LineError<'a>>
    ensures { IfOk result (IsCommand (codes "ask") (text words.old) (text words.new)) }
{
    Ok(Command::Ask {
        code: read_code(words)?,
        x: words.next_float()?,
        y: words.next_float()?,
    })
}

fn read_code<'a>(words: &mut Words<'a>) -> Result<u8, LineError<'a>>
    ensures value { IfOk result (λ code. OneWhole (text words.old) code (text words.new)) }
    ensures bound { IfOk result (λ code. (1 ≤ code) × (code ≤ 7)) }
{
    let n = words.next_whole()?;
    match n {
        1..=7 => Ok(n as u8),
        _ => Err(LineError::new(Misread::NotACode, words.last_word())),
    }
}

fn read_evaluate<'a>(words: &mut Words<'a>) -> Result<Command, LineError<'a>>
    ensures { IfOk result (IsCommand (codes "eval") (text words.old) (text words.new)) }
{
    Ok(Command::Evaluate {
        index: words.next_whole()?,
        room: words.next_whole()?,
        inputs: words.floats()?,
    })
}
