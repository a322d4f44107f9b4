// What holds of any list of calls on a store, asked for by contracts.
ghost use Rattle.promises.specs.Runs.{HoldsAll, FewRefutations, TablesShown, NeverStuck, FewWords, GoesOn, TakesAnswers, TakesRefutations, AllEnds};
ghost use Rattle.store.specs.Reading.{state_of};
ghost use Rattle.calls.specs.Runs.{FinerBound};

// After any calls the store holds what the calls say, fewer tables were refuted than the box has states, and few words were told of, each once.
pub fn calls_add_up()
    ensures holds { HoldsAll state_of }
    ensures refutations { FewRefutations state_of }
    ensures words { FewWords state_of }
    ensures finer { FinerBound }
{}

// Against a box of at most as many states as allowed a step asks or shows a table; each table is borne out, grows, has no more rows than any table for the box, and is right if it has as many.
pub fn calls_go_on()
    ensures shown { TablesShown state_of }
    ensures stuck { NeverStuck state_of }
    ensures onward { GoesOn state_of }
    ensures answers { TakesAnswers state_of }
    ensures refutations { TakesRefutations state_of }
{}

// Nobody can go on answering and refuting for ever.
pub fn calls_end()
    ensures { AllEnds state_of }
{}
