// What the calls of a learner answer; and the theorems on what they promise, each asked for by a function's contract.
#![tactic(auto)]

ghost use Rattle.std.specs.Prelude.{ℕ, List};
ghost use Rattle.std.proofs.Math.Option.{Option};
ghost use Rattle.model.specs.States.{State};
ghost use Rattle.promises.specs.Runs.{HoldsAll, FewRefutations, TablesShown, NeverStuck, FewWords, FinerWords, GoesOn, TakesAnswers, TakesRefutations, AllEnds};
ghost use Rattle.promises.specs.Outcomes.{AskKept, TableKept, TableAgain, LargerKept, BrokenKept};

// What came of beginning a store; the calls answer by enums of their own, with a name for each thing that they say.
#[derive(Clone, Copy, PartialEq, Eq, Debug)]
pub enum Began {
    Ready,
    Few,
}

// What is wanted next.
#[derive(Clone, Copy, PartialEq, Eq, Debug)]
pub enum Wanted {
    Ask(usize),
    Table(usize),
    Larger,
    Broken,
    NoStore,
    Short,
}

// What came of an answer.
#[derive(Clone, Copy, PartialEq, Eq, Debug)]
pub enum Given {
    Taken,
    NotAsked,
    NoRefute,
    Full,
    Unstored,
}

// After any calls the store holds what the calls say, and few words and refutations were taken.
pub fn runs_stand()
    ensures holds { (state_of : List ℕ → Option State) → HoldsAll state_of }
    ensures refutations { (state_of : List ℕ → Option State) → FewRefutations state_of }
    ensures words { (state_of : List ℕ → Option State) → FewWords state_of }
    ensures finer { (state_of : List ℕ → Option State) → FinerWords state_of }
{}

// What a step says after any calls, and that it goes on.
pub fn steps_stand()
    ensures shown { (state_of : List ℕ → Option State) → TablesShown state_of }
    ensures stuck { (state_of : List ℕ → Option State) → NeverStuck state_of }
    ensures onward { (state_of : List ℕ → Option State) → GoesOn state_of }
{}

// What is waited for is taken, and this comes to an end.
pub fn rounds_end()
    ensures answers { (state_of : List ℕ → Option State) → TakesAnswers state_of }
    ensures refutations { (state_of : List ℕ → Option State) → TakesRefutations state_of }
    ensures end { (state_of : List ℕ → Option State) → AllEnds state_of }
{}

// The moves of a learner keep what a step promises.
pub fn outcomes_stand()
    ensures ask { (state_of : List ℕ → Option State) → AskKept state_of }
    ensures table { (state_of : List ℕ → Option State) → TableKept state_of }
    ensures again { (state_of : List ℕ → Option State) → TableAgain state_of }
    ensures larger { (state_of : List ℕ → Option State) → LargerKept state_of }
    ensures broken { (state_of : List ℕ → Option State) → BrokenKept state_of }
{}
