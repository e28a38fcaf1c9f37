// The load line of an exponential function.
ghost use Rattle.std.specs.Prelude.{◌≡◌, IfOk, Some, None, OnOk};
ghost use Rattle.command.specs.Left.{text};
ghost use Rattle.command.specs.Loads.{Filled, Finished, Loads, blank_draft};

use crate::misread::{LineError, Misread};
use crate::words::Words;
use std::alloc::Global;

// Lists of its own, not the lent ones of function's Exponential: a line does not know the functions behind it.
#[derive(Debug, Drop)]
pub struct ExponentialLine {
    pub domain: Vec<(f32, f32)>,
    pub range: Vec<(f32, f32)>,
    pub c0: Option<Vec<f32>>,
    pub c1: Option<Vec<f32>>,
    pub n: f32,
}

// The fields so far, each as an Option, so that none is taken twice.
#[derive(Default, Drop)]
struct Draft {
    domain: Option<Vec<(f32, f32)>>,
    range: Option<Vec<(f32, f32)>>,
    c0: Option<Vec<f32>>,
    c1: Option<Vec<f32>>,
    n: Option<f32>,
}

impl Draft {
    fn read_field<'a>(&mut self, words: &mut Words<'a>, name: &'a str) -> Result<(), LineError<'a>>
        ensures { OnOk result (Filled name.now self.old self.new (text words.old) (text words.new)) }
    {
        match name {
            "domain" => put(&mut self.domain, words.pairs(name)?, name),
            "range" => put(&mut self.range, words.pairs(name)?, name),
            "c0" => put(&mut self.c0, words.floats()?, name),
            "c1" => put(&mut self.c1, words.floats()?, name),
            "n" => put(&mut self.n, words.one_float()?, name),
            _ => Err(LineError::new(Misread::UnknownField, name)),
        }
    }

    fn finish(self, heap: Global) -> Result<ExponentialLine, LineError<'static>>
        ensures { IfOk result (Finished self) }
    {
        let n = self.n.ok_or(LineError::new(Misread::FieldMissing, "n"))?;
        Ok(ExponentialLine {
            domain: self.domain.unwrap_or(Vec::new(heap)),
            range: self.range.unwrap_or(Vec::new(heap)),
            c0: self.c0,
            c1: self.c1,
            n,
        })
    }
}

pub(crate) fn read<'a>(words: &mut Words<'a>) -> Result<ExponentialLine, LineError<'a>>
    ensures { IfOk result (λ l. Loads l (text words.old) (text words.new)) }
{
    let mut draft = Draft::default();
    // No `for`: it would hold the words, and each field reads its numbers from them.
    while let Some(name) = words.next_field() {
        draft.read_field(words, name)?;
    }
    draft.finish(words.heap())
}

// Puts a field's value in its place, once.
fn put<'a, T: Drop>(place: &mut Option<T>, value: T, name: &'a str) -> Result<(), LineError<'a>>
    ensures { OnOk result ((place.old ≡ None) × (place.new ≡ Some value)) }
{
    if place.is_some() {
        return Err(LineError::new(Misread::FieldTwice, name));
    }
    *place = Some(value);
    Ok(())
}
