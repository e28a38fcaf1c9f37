// The answer to a call, and its words in the record.
use fault::Fault;
use function::Counts;
use numerals::{Bits, Shown};
use set::Entries;
use std::fmt;

#[derive(Debug, Drop)]
pub(crate) enum Reply {
    Opened(Entries),
    Reset,
    Unit,
    // A call that needs a set came before one was opened.
    NoSet,
    Number(f32),
    Loaded(usize),
    Outputs(Counts, Vec<f32>),
    Refused(Fault),
}

// Bits first, and in brackets what a person reads.
impl fmt::Display for Reply {
    fn fmt<W: fmt::Write>(&self, f: &mut fmt::Formatter<W>) -> fmt::Result {
        match self {
            Reply::Opened(_) => write!(f, "opened"),
            Reply::Reset => write!(f, "reset"),
            Reply::Unit => write!(f, "unit"),
            Reply::NoSet => write!(f, "no set"),
            Reply::Number(x) => write!(f, "answer {} ({})", Bits(*x), Shown(*x)),
            Reply::Loaded(index) => write!(f, "loaded {index}"),
            Reply::Outputs(counts, values) => {
                let Counts {
                    outputs,
                    steps,
                    drops,
                } = *counts;
                write!(f, "outputs {outputs} steps {steps} drops {drops} :")?;
                write!(f, "{}{}", EachBits(values), EachShown(values))
            }
            Reply::Refused(fault) => write!(f, "{fault}"),
        }
    }
}

// The bits of each number, behind a space.
#[derive(Clone, Copy)]
struct EachBits<'a>(&'a [f32]);

impl fmt::Display for EachBits<'_> {
    fn fmt<W: fmt::Write>(&self, f: &mut fmt::Formatter<W>) -> fmt::Result {
        for x in self.0 {
            write!(f, " {}", Bits(*x))?;
        }
        Ok(())
    }
}

// The numbers for a person, in brackets behind a space. Nothing where there is none.
#[derive(Clone, Copy)]
struct EachShown<'a>(&'a [f32]);

impl fmt::Display for EachShown<'_> {
    fn fmt<W: fmt::Write>(&self, f: &mut fmt::Formatter<W>) -> fmt::Result {
        let Some((first, others)) = self.0.split_first() else {
            return Ok(());
        };
        write!(f, " ({}", Shown(*first))?;
        for x in others {
            write!(f, " {}", Shown(*x))?;
        }
        write!(f, ")")
    }
}
