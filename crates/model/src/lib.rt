// The learner as plain lists: the theorems on its moves, each asked for by a function's contract.
#![tactic(auto)]

ghost use Rattle.model.specs.Bits.{Digits, FewBits};
ghost use Rattle.model.specs.States.{Fits};
ghost use Rattle.model.specs.Moves.{Begins, AsksACell, HearsACell, FillsACell, AddsARow, FindsTooMany, SetsSuccessors};
ghost use Rattle.model.specs.Moves.{ShowsATable, EdgesApart, RefutesAnew, RefutesTold};
ghost use Rattle.model.specs.Moves.{StartsABisection, AsksAMiddle, HearsAMiddle, Narrows, EndsABisection, EndsTooMany};
ghost use Rattle.model.specs.Moves.{ValidStands, LargerSays, BrokenSays};
ghost use Rattle.model.specs.Steps.{RowsShort, AskedShort, OutFits, AnswersFew, AnswersFewer, Turns, BisectionTurns, StepComes};
ghost use Rattle.model.specs.Models.{ModelStands, ReadingsStand};
ghost use Rattle.model.specs.Models.{ModelBegins, ModelAsksCell, ModelHearsCell, ModelFillsCell, ModelAddsRow, ModelTooMany, ModelSetsSuccessors};
ghost use Rattle.model.specs.Models.{ModelShows, ModelRefutesAnew, ModelRefutesTold};
ghost use Rattle.model.specs.Models.{ModelStartsBisection, ModelAsksMiddle, ModelHearsMiddle, ModelNarrows, ModelEndsBisection, ModelEndsMany};

// The bounds in which binary digits occur.
pub fn digits_few()
    ensures digits { Digits }
    ensures few_bits { FewBits }
    ensures fits { Fits }
{}

// The moves by which the observation table is filled keep the invariant.
pub fn filling_stands()
    ensures begins { Begins }
    ensures asks { AsksACell }
    ensures hears { HearsACell }
    ensures fills { FillsACell }
    ensures adds { AddsARow }
    ensures too_many { FindsTooMany }
    ensures successors { SetsSuccessors }
{}

// A table that is shown or refuted keeps the invariant.
pub fn showing_stands()
    ensures shows { ShowsATable }
    ensures anew { RefutesAnew }
    ensures told { RefutesTold }
    ensures edges { EdgesApart }
{}

// The moves of a search by halves keep the invariant.
pub fn bisecting_stands()
    ensures starts { StartsABisection }
    ensures asks { AsksAMiddle }
    ensures hears { HearsAMiddle }
    ensures narrows { Narrows }
    ensures ends { EndsABisection }
    ensures too_many { EndsTooMany }
{}

// The invariant gives what is promised, and what is shown where the box is larger or an answer was wrong.
pub fn valid_stands()
    ensures stands { ValidStands }
    ensures larger { LargerSays }
    ensures broken { BrokenSays }
{}

// Words are short and answers few.
pub fn answers_few()
    ensures rows { RowsShort }
    ensures asked { AskedShort }
    ensures fits { OutFits }
    ensures few { AnswersFew }
    ensures fewer { AnswersFewer }
{}

// While nothing is waited for, some move can be made, and after finitely many something comes.
pub fn steps_come()
    ensures turns { Turns }
    ensures bisection { BisectionTurns }
    ensures comes { StepComes }
{}

// The invariant is decided for each model, and what is read by its decision stands.
pub fn reading_stands()
    ensures stands { ModelStands }
    ensures reads { ReadingsStand }
{}

// The moves as they are written to a page keep the invariant.
pub fn pages_stand()
    ensures begins { ModelBegins }
    ensures asks_cell { ModelAsksCell }
    ensures hears_cell { ModelHearsCell }
    ensures fills_cell { ModelFillsCell }
    ensures adds_row { ModelAddsRow }
    ensures too_many { ModelTooMany }
    ensures successors { ModelSetsSuccessors }
    ensures shows { ModelShows }
    ensures starts { ModelStartsBisection }
    ensures anew { ModelRefutesAnew }
    ensures told { ModelRefutesTold }
    ensures asks_middle { ModelAsksMiddle }
    ensures hears_middle { ModelHearsMiddle }
    ensures narrows { ModelNarrows }
    ensures ends { ModelEndsBisection }
    ensures ends_many { ModelEndsMany }
{}
