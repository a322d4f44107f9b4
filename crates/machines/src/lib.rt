// Words, boxes, tables and answers: the theorems on them, each asked for by a function's contract.
#![tactic(auto)]

ghost use Rattle.std.specs.Prelude.{ℕ, List};
ghost use Rattle.machines.specs.Lamp.{LampWorks};
ghost use Rattle.machines.specs.Theorems.{ApartLeadsApart, ApartWordsFew, BorneLeast, BorneRight, LeadsAlike, MoreStates};

// The number of a key, from 0.
#[derive(Clone, Copy, PartialEq, Eq, Debug)]
pub struct Key(pub u32);

// Whatever says numbers of words: a log of answers, or more than was answered.
pub trait Saying {
    ghost says: { Self → List ℕ → ℕ → Type 0 };
}

// Words that were told apart lead to different states.
pub fn apart_leads_apart<S: Saying>(of: &S)
    ensures { ApartLeadsApart (S.says of.now) }
{}

// Words told apart are no more than the states of the box.
pub fn apart_words_few<S: Saying>(of: &S)
    ensures { ApartWordsFew (S.says of.now) }
{}

// A table that is borne out is no larger than any for the box.
pub fn borne_least<S: Saying>(of: &S)
    ensures { BorneLeast (S.says of.now) }
{}

// A table that is borne out and as large as one for the box is right.
pub fn borne_right<S: Saying>(of: &S)
    ensures { BorneRight (S.says of.now) }
{}

// Each word leads where its row's word leads.
pub fn leads_alike<S: Saying>(of: &S)
    ensures { LeadsAlike (S.says of.now) }
{}

// A box of few states is one of more.
pub fn more_states()
    ensures { MoreStates }
{}

// The worked example of the lamp.
pub fn lamp_works()
    ensures { LampWorks }
{}
