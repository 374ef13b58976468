// The translation: any two byte areas and a buffer get the four numbers of the definition, and the buffer the derivation.
#![tactic(auto)]

ghost use Rattle.std.specs.Prelude.{◌≡◌};
ghost use Rattle.translation.specs.Numbers.{answer_in, length_in};

pub mod translate;

use reader::{Answer, Refusal};

// What an accepted proof's translation is: the nodes that the proof check walked, and how many bytes of the buffer are the derivation.
#[derive(Clone, Copy)]
pub struct Translation {
    pub nodes: usize,
    pub length: usize,
}

impl Translation {
    // The answer's four numbers, and the derivation's length: 0 on a refusal.
    pub fn numbers(translated: Result<Self, Refusal>) -> (Answer, usize)
        ensures { (result.0 ≡ answer_in translated) × (result.1 ≡ length_in translated) }
    {
        match translated {
            Ok(t) => (Answer::of(Ok(t.nodes)), t.length),
            Err(refusal) => (Answer::of(Err(refusal)), 0),
        }
    }
}
