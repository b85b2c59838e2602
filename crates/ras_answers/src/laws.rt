ghost use Rattle.ras_answers.specs.Cores.{CoreIsChecked};
ghost use Rattle.ras_answers.specs.Solve.{SolvedIsChecked};

/// Where `solve` prints a document, `check` says yes to the printed text over the same files.
pub fn solved_is_checked()
    ensures { SolvedIsChecked }
{}

/// Where `core` prints documents, `check` says yes to the text of each over a file of the requests kept to its set.
pub fn core_is_checked()
    ensures { CoreIsChecked }
{}
