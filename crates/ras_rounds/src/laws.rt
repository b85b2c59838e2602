ghost use Rattle.ras_rounds.specs.Laws.{CaseAfterIsOne, TableIsOne, MendIsGrouped, MendIsRight};

/// There is at most one case after a round.
pub fn case_after_is_one()
    ensures { CaseAfterIsOne }
{}

/// A class table is right whatever way it was made: its classes are those of their first members, these rise, and each server
/// is a member of one.
pub fn table_is_one()
    ensures { TableIsOne }
{}

/// A table that is mended is the one that grouping afresh gives.
pub fn mend_is_grouped()
    ensures { MendIsGrouped }
{}

/// The mended classes of a round, sorted by their first members, are the classes of the case after it.
pub fn mend_is_right()
    ensures { MendIsRight }
{}
