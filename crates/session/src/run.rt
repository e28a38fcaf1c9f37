// A whole job. A set borrows the lists that it is opened over, so each `open` begins a stretch of lines of its own.
ghost use Rattle.std.specs.Prelude.{◌≡◌, ◌+◌, ◌^◌, ◌<◌, [], length, All, IfOk, None, string_bytes};
ghost use Rattle.std.specs.Iterator.Adapters.{enumerate_count, enumerate_source};
ghost use Rattle.std.specs.Slice.Iter.{iter_rest};
ghost use Rattle.std.specs.Str.Lines.{lines};
ghost use Rattle.session.specs.Jobs.{IsUnderstood, IsSilent};

use crate::calls::Target;
use crate::replies::Reply;
use command::{Command, LineError, read_line};
use function::Instruction;
use set::{Entries, Set};
use std::alloc::{AllocError, Global};
use std::iter::Enumerate;
use std::slice;
use units::House;

// What a job wrote, and what was wrong with the line that ended it.
#[derive(Debug, Drop)]
pub struct Record {
    pub text: String,
    pub error: Option<String>,
}

// Why a job ends before its last line.
#[derive(Debug, Drop)]
enum JobError<'a> {
    Line { number: usize, error: LineError<'a> },
    OutOfMemory(AllocError),
}

impl<'a> From<AllocError> for JobError<'a> {
    fn from(error: AllocError) -> JobError<'a> {
        JobError::OutOfMemory(error)
    }
}

// A job on its way: the lines that are left, and the record of those before. No Model: the contracts speak of both, and a
// view of two parts would say `self.new.left` where they say `lines_left self.new`.
#[derive(Drop)]
struct Job<'a> {
    heap: Global,
    lines: Enumerate<slice::Iter<'a, &'a str>>,
    record: String,
    ghost counted: { enumerate_count lines + length (iter_rest (enumerate_source lines)) < 2 ^ 64 },
}

// Runs the job to its end, or to the first line that is not understood.
pub fn run_job(heap: Global, text: &str) -> Result<Record, AllocError>
    ensures understood { IfOk result (λ r. r.error ≡ None → All IsUnderstood (lines text.now)) }
    ensures silent { All IsSilent (lines text.now) → IfOk result (λ r. (r.error ≡ None) × (string_bytes r.text ≡ [])) }
{
    // A list, since `run` asks how many lines are left: `lines` has no `len`.
    let lines: Vec<&str> = text.lines().collect(heap)?;
    let mut job = Job {
        heap,
        lines: lines.iter().enumerate(),
        record: String::new(heap),
    };
    let error = match job.run() {
        Ok(()) => None,
        Err(JobError::Line { number, error }) => Some(format!(in heap; "line {number}: {error}")?),
        Err(JobError::OutOfMemory(error)) => return Err(error),
    };
    Ok(Record {
        text: job.record,
        error,
    })
}

impl<'a> Job<'a> {
    ghost use Rattle.std.specs.Prelude.{◌-◌, ◌≤◌, Ok, IsSome, IsNone, OnOk};
    ghost use Rattle.session.specs.Jobs.{ReadsOn};
    ghost use Rattle.session.specs.Left.{lines_left, PassesOver};

    fn run(&mut self) -> Result<(), JobError<'a>>
        ensures understood { OnOk result (All IsUnderstood (lines_left self.old)) }
        ensures silent { All IsSilent (lines_left self.old) → (result ≡ Ok tt) × PassesOver self.old self.new }
    {
        let mut open = None;
        while self.lines.len() > 0 {
            open = match open {
                Some(entries) => self.run_over_lists(entries)?,
                None => self.run_stretch(&mut Target {
                    unit: House,
                    set: None,
                })?,
            };
        }
        Ok(())
    }

    // A stretch over a set with lists of these lengths.
    fn run_over_lists(&mut self, entries: Entries) -> Result<Option<Entries>, JobError<'a>>
        ensures shorter { OnOk result (length (lines_left self.new) ≤ length (lines_left self.old) - 1) }
        ensures reads { OnOk result (ReadsOn (lines_left self.old) (lines_left self.new)) }
    {
        let mut records = vec![in self.heap; function::Record::EMPTY; entries.functions]?;
        let mut numbers = vec![in self.heap; 0.0f32; entries.numbers]?;
        let mut instructions = vec![in self.heap; Instruction::EMPTY; entries.instructions]?;
        // None is refused: the line that opens has checked the lengths.
        let set = Set::open(&mut records, &mut numbers, &mut instructions).ok();
        self.run_stretch(&mut Target { unit: House, set })
    }

    // Runs lines up to one that opens a set or forgets it, and answers what the lines behind it find open.
    #[tactic(auto, using(crate::proofs::Reading::ReadsOn_further))]
    fn run_stretch(&mut self, target: &mut Target<House>) -> Result<Option<Entries>, JobError<'a>>
        ensures shorter { OnOk result (length (lines_left self.new) ≤ length (lines_left self.old) - 1) }
        ensures reads { OnOk result (ReadsOn (lines_left self.old) (lines_left self.new)) }
        ensures silent { All IsSilent (lines_left self.old) → (result ≡ Ok None) × PassesOver self.old self.new }
    {
        // No `for`: reading the next call can fail, and the lines behind the stretch are for the next one.
        while let Some((line, command)) = self.next_call()? {
            match self.call(target, line, command)? {
                Reply::Opened(entries) => return Ok(Some(entries)),
                Reply::Reset => return Ok(None),
                _ => {}
            }
        }
        Ok(None)
    }

    // The next line that says a call, and the call. Lines are counted from 1.
    fn next_call(&mut self) -> Result<Option<(&'a str, Command)>, JobError<'a>>
        ensures some { IfOk result (λ o. IsSome o → length (lines_left self.new) < length (lines_left self.old)) }
        ensures none { IfOk result (λ o. IsNone o → lines_left self.new ≡ []) }
        ensures reads { OnOk result (ReadsOn (lines_left self.old) (lines_left self.new)) }
        ensures silent { All IsSilent (lines_left self.old) → (result ≡ Ok None) × PassesOver self.old self.new }
    {
        // No `for` over `by_ref`: its proof would carry along that `at + 1` fits, which the ghost field `counted` says here.
        while let Some((at, line)) = self.lines.next() {
            let command = read_line(self.heap, line).map_err(|error| JobError::Line {
                number: at + 1,
                error,
            })?;
            if let Some(command) = command {
                return Ok(Some((line, command)));
            }
        }
        Ok(None)
    }

    // Makes a call, and writes its line and below it the reply.
    fn call(
        &mut self,
        target: &mut Target<House>,
        line: &'a str,
        command: Command,
    ) -> Result<Reply, AllocError>
        ensures { self.new.lines ≡ self.old.lines }
    {
        let reply = target.perform(self.heap, &command)?;
        writeln!(self.record, "{line}\n  {reply}")?;
        Ok(reply)
    }
}
