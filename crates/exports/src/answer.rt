// What an exported function returns of the library's answer, and leaves behind its references: 0 and the values of an
// acceptance; or the number of a refusal, and all as it was.
// Stays: the answers with two numbers are told where they are asked for, since each is a struct of its own.
ghost use Rattle.exports.specs.Exported.{TellsDone, TellsNumber, TellsForm};

use forms::write::Form;
use trees::refusal::Refusal;

// Of an answer without a value.
pub(crate) fn tell_done(answer: Result<(), Refusal>) -> u32
    ensures { TellsDone answer result }
{
    match answer {
        Ok(()) => 0,
        Err(refusal) => u32::from(refusal),
    }
}

// Of an answer whose value is a number.
pub(crate) fn tell_number(answer: Result<usize, Refusal>, number: &mut usize) -> u32
    ensures { TellsNumber answer number.old number.new result }
{
    match answer {
        Ok(value) => {
            *number = value;
            0
        }
        Err(refusal) => u32::from(refusal),
    }
}

// Of an answer that tells a form: how many states and marks it has, and how long its file is.
pub(crate) fn tell_form(
    answer: Result<Form, Refusal>,
    states: &mut usize,
    marks: &mut usize,
    length: &mut usize,
) -> u32
    ensures { TellsForm answer (states.old, marks.old, length.old) (states.new, marks.new, length.new) result }
{
    match answer {
        Ok(form) => {
            *states = form.states;
            *marks = form.marks;
            *length = form.bytes;
            0
        }
        Err(refusal) => u32::from(refusal),
    }
}
