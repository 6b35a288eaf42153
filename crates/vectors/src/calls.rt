// The calls on a system, a list or a text, which follow it. The handle stays a parameter of its own beside the reader, as everywhere in the language.
ghost use Rattle.std.specs.Prelude.{IfSome};
ghost use Rattle.vectors.specs.Reader.{Passed, PassedSome};

use crate::lines;
use crate::reader::{Head, Reader};

// What calls are run on. Each has it as the one before left it.
pub(crate) trait Subject {
    type Call: Drop;

    // The call that a letter stands for, with what follows the letter; none for any other letter.
    fn read(letter: u8, reader: &mut Reader) -> Option<Self::Call>
        ensures { Passed reader.old reader.new };

    // Runs a call, and prints what it answers.
    fn run<P: Print>(&mut self, rt: &P, call: Self::Call);
}

// The next case, if it is a call on the subject; otherwise it is not passed.
fn next_call<S: Subject>(reader: &mut Reader) -> Option<(Head, S::Call)>
    ensures some { IfSome result (λ _. PassedSome reader.old reader.new) }
    ensures passed { Passed reader.old reader.new }
{
    let mut ahead = *reader;
    let head = ahead.head()?;
    let call = S::read(head.letter, &mut ahead)?;
    *reader = ahead;
    Some((head, call))
}

// The calls on a subject, and their lines.
pub(crate) fn run_calls<S: Subject>(rt: &impl Print, reader: &mut Reader, subject: &mut S)
    ensures { Passed reader.old reader.new }
{
    while let Some((head, call)) = next_call::<S>(reader) {
        lines::begin(rt, head);
        subject.run(rt, call);
        lines::end(rt);
    }
}
