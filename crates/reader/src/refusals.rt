// Refusals and answers: the number of a fault, and the four numbers of what a check returns.
ghost use Rattle.std.specs.Prelude.{◌≡◌};
ghost use Rattle.reader.specs.Refusals.{number_of, answer_of, reading_of};

use crate::{Answer, Fault, Refusal};

impl Fault {
    // The refusal's number.
    pub fn number(self) -> usize
        ensures { result ≡ number_of self }
    {
        match self {
            Fault::Length => 1,
            Fault::Header => 2,
            Fault::Kind => 3,
            Fault::Number => 4,
            Fault::Reference => 5,
            Fault::Chain => 6,
            Fault::Weight => 7,
            Fault::Spelling => 8,
            Fault::Name => 9,
            Fault::Typing => 10,
            Fault::Root => 11,
            Fault::Naming => 12,
            Fault::Form => 13,
            Fault::Member => 14,
            Fault::Fit => 15,
            Fault::Fresh => 16,
            Fault::Room => 17,
            Fault::Depth => 18,
            Fault::Buffer => 19,
        }
    }
}

impl Answer {
    // "Acceptance is 0, 0, 0 and the number of rule nodes walked."
    pub fn of(checked: Result<usize, Refusal>) -> Self
        ensures { result ≡ answer_of checked }
    {
        match checked {
            Ok(nodes) => Answer {
                refusal: 0,
                file: 0,
                at: 0,
                nodes,
            },
            Err(refusal) => Answer {
                refusal: refusal.fault.number(),
                file: refusal.file,
                at: refusal.at,
                nodes: refusal.nodes,
            },
        }
    }

    // The same of a reading, which walks no node.
    pub fn of_reading(read: Result<(), Refusal>) -> Self
        ensures { result ≡ reading_of read }
    {
        match read {
            Ok(()) => Answer::of(Ok(0)),
            Err(refusal) => Answer::of(Err(refusal)),
        }
    }
}
