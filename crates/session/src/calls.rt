// One call of a job.
use crate::replies::Reply;
use command::{Command, ExponentialLine};
use function::Exponential;
use set::{Entries, Set, check_lengths};
use std::alloc::{AllocError, Global};
use units::{Arithmetic, Question};

// The longest output list that is lent: a longer one would be answered alike.
const MAX_ROOM: usize = 1024;

// What the calls of a job go to: a unit, and the set that is open.
#[derive(Drop)]
pub(crate) struct Target<'a, A> {
    pub(crate) unit: A,
    pub(crate) set: Option<Set<'a>>,
}

impl<'a, A: Arithmetic> Target<'a, A> {
    pub(crate) fn perform(&mut self, heap: Global, command: &Command) -> Result<Reply, AllocError> {
        match command {
            Command::Reset => Ok(Reply::Reset),
            Command::House => Ok(Reply::Unit),
            Command::Open {
                functions,
                numbers,
                instructions,
            } => Ok(open(Entries {
                functions: *functions,
                numbers: *numbers,
                instructions: *instructions,
            })),
            Command::Ask { code, x, y } => Ok(Reply::Number(self.ask(*code, *x, *y))),
            Command::Exponential(line) => Ok(self.load(line)),
            Command::Evaluate {
                index,
                room,
                inputs,
            } => self.evaluate(heap, *index, *room, inputs),
        }
    }

    // The code of a line has a question; one that had none would have no answer either.
    fn ask(&mut self, code: u8, x: f32, y: f32) -> f32 {
        Question::try_from(code).map_or(f32::NAN, |question| self.unit.answer(question, x, y))
    }

    fn load(&mut self, line: &ExponentialLine) -> Reply {
        let Some(set) = &mut self.set else {
            return Reply::NoSet;
        };
        let given = Exponential {
            domain: &line.domain,
            range: &line.range,
            c0: line.c0.as_deref(),
            c1: line.c1.as_deref(),
            n: line.n,
        };
        set.load_exponential(&given)
            .map_or_else(Reply::Refused, Reply::Loaded)
    }

    fn evaluate(
        &mut self,
        heap: Global,
        index: usize,
        room: usize,
        inputs: &[f32],
    ) -> Result<Reply, AllocError> {
        let Some(set) = &self.set else {
            return Ok(Reply::NoSet);
        };
        let mut outputs = vec![in heap; 0.0f32; room.min(MAX_ROOM)]?;
        let answer = set.evaluate(&mut self.unit, index, inputs, &mut outputs);
        Ok(answer.map_or_else(Reply::Refused, |counts| {
            outputs.truncate(counts.outputs);
            Reply::Outputs(counts, outputs)
        }))
    }
}

// Whether a set can be opened over such lists. They are made only then, and a refusal leaves the earlier set.
fn open(entries: Entries) -> Reply {
    check_lengths(entries).map_or_else(Reply::Refused, |()| Reply::Opened(entries))
}
