// The words of a line, from its front on, and the numbers that they write. A `;` is a word of its own.
ghost use Rattle.std.specs.Prelude.{◌≡◌, length, false, take, drop, map, IfOk, Some, None, OnOk, slice_index_or};
ghost use Rattle.std.specs.Iterator.{at_most};
ghost use Rattle.std.specs.Option.{option_map};
ghost use Rattle.command.specs.Cutting.{blank, word_length, first_word, after_word, field_word, followed, AtField};
ghost use Rattle.command.specs.Fields.{Next, OneNumber, OneWhole, Numbers, Pairs, Alone, pair_of};
ghost use Rattle.command.specs.Left.{GivesWord, text};
ghost use Rattle.command.specs.Lines.{Unreturned};

use crate::misread::{LineError, Misread};
use crate::number;
use std::alloc::{AllocError, Global};

const BLANKS: [char; 2] = [' ', '\t'];

const ENDS: [char; 3] = [' ', '\t', ';'];

// No Model, which a Copy struct with a lifetime can't have: a copy of it looks ahead.
#[derive(Clone, Copy)]
pub(crate) struct Words<'a> {
    // Where the lists of numbers are put.
    heap: Global,
    rest: &'a str,
    // The word that was read last, empty before the first: a first word is read before a number is asked for.
    last: &'a str,
}

impl<'a> Words<'a> {
    pub(crate) fn new(heap: Global, line: &'a str) -> Words<'a>
        ensures { Unreturned line.now (text result) }
    {
        let rest = line.strip_suffix('\r').unwrap_or(line);
        Words {
            heap,
            rest,
            last: "",
        }
    }

    pub(crate) fn heap(&self) -> Global {
        self.heap
    }

    pub(crate) fn last_word(&self) -> &'a str {
        self.last
    }

    // The next word of the field, which ends at a `;` or with the line.
    pub(crate) fn next_in_field(&mut self) -> Option<&'a str>
        ensures word { option_map (λ x. x.now) result ≡ field_word (text self.old) }
        ensures rest { text self.new ≡ followed (field_word (text self.old)) (text self.old) }
    {
        let mut ahead = *self;
        let word = ahead.next()?;
        if word == ";" {
            return None;
        }
        *self = ahead;
        Some(word)
    }

    // The name of the next field. A field with no word is passed over.
    pub(crate) fn next_field(&mut self) -> Option<&'a str>
        ensures { AtField (text self.old) (option_map (λ x. x.now) result) (text self.new) }
    {
        self.find(|word| *word != ";")
    }

    pub(crate) fn end(&mut self) -> Result<(), LineError<'a>>
        ensures { OnOk result (first_word (text self.old) ≡ None) }
    {
        no_more(self.next())
    }

    // The next word of the field, which has to be there.
    fn needed(&mut self) -> Result<&'a str, LineError<'a>>
        ensures { IfOk result (λ w. Next (text self.old) w.now (text self.new)) }
    {
        let missing = LineError::new(Misread::NumberMissing, self.last);
        self.next_in_field().ok_or(missing)
    }

    pub(crate) fn next_float(&mut self) -> Result<f32, LineError<'a>>
        ensures { IfOk result (λ x. OneNumber (text self.old) x (text self.new)) }
    {
        number::float(self.needed()?)
    }

    pub(crate) fn next_whole(&mut self) -> Result<usize, LineError<'a>>
        ensures { IfOk result (λ n. OneWhole (text self.old) n (text self.new)) }
    {
        number::whole(self.needed()?)
    }

    // A field of one number.
    pub(crate) fn one_float(&mut self) -> Result<f32, LineError<'a>>
        ensures { IfOk result (λ x. Alone (text self.old) x (text self.new)) }
    {
        let x = self.next_float()?;
        no_more(self.next_in_field())?;
        Ok(x)
    }

    // The numbers up to the field's end.
    pub(crate) fn floats(&mut self) -> Result<Vec<f32>, LineError<'a>>
        ensures { IfOk result (λ v. Numbers (text self.old) v.items (text self.new)) }
    {
        let mut all = Vec::new(self.heap);
        // No chain: the words of one field would be a second iterator over these, for this one loop.
        while let Some(word) = self.next_in_field() {
            all.push(number::float(word)?)?;
        }
        Ok(all)
    }

    // The numbers of the field `name`, two by two.
    pub(crate) fn pairs(&mut self, name: &'a str) -> Result<Vec<(f32, f32)>, LineError<'a>>
        ensures { IfOk result (λ v. Pairs (text self.old) v.items (text self.new)) }
    {
        let all = self.floats()?;
        let (pairs, left_over) = all.as_chunks::<2>();
        if !left_over.is_empty() {
            return Err(LineError::new(Misread::OddCount, name));
        }
        Ok(two_by_two(self.heap, pairs)?)
    }
}

impl<'a> Iterator for Words<'a> {
    type Item = &'a str;

    ghost next_gives = { GivesWord };

    ghost remaining = { λ w. at_most (length (text w)) };

    fn next(&mut self) -> Option<&'a str> {
        let rest = self.rest.trim_start_matches(BLANKS);
        if rest.is_empty() {
            self.rest = rest;
            return None;
        }
        let (word, after) = split_word(rest);
        self.rest = after;
        self.last = word;
        Some(word)
    }
}

// Refuses a word that is left, by a match, which reads plainer than map_or(Ok(()), ..).
fn no_more(left: Option<&str>) -> Result<(), LineError<'_>>
    ensures { OnOk result (left.entry ≡ None) }
{
    match left {
        Some(word) => Err(LineError::new(Misread::TooManyWords, word)),
        None => Ok(()),
    }
}

// The word at the front of a text, and what follows it.
fn split_word(text: &str) -> (&str, &str)
    requires { blank (slice_index_or text.now 0 32) ≡ false }
    ensures word { result.0.now ≡ take (word_length text.now) text.now }
    ensures rest { result.1.now ≡ drop (word_length text.now) text.now }
{
    if let Some(after) = text.strip_prefix(';') {
        return (";", after);
    }
    // A match: with map_or the cut is a closure's answer, and the check doesn't find that it is the word.
    match text.find(ENDS) {
        Some(at) => text.split_at(at),
        None => (text, ""),
    }
}

fn two_by_two(heap: Global, pairs: &[[f32; 2]]) -> Result<Vec<(f32, f32)>, AllocError>
    ensures { IfOk result (λ v. v.items ≡ map pair_of pairs.now) }
{
    pairs.iter().map(|&[x, y]| (x, y)).collect(heap)
}
