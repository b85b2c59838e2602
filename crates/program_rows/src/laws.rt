ghost use Rattle.program_rows.specs.Worked.{RacksChosen, SixServersInClasses, SixServersSingle};

/// The program of six servers on three switchboards, each server a class of its own: rows 0 to 11 are those of the
/// classes, row 12 is the total, and rows 13 to 15 are the losses.
pub fn six_servers_single()
    ensures { SixServersSingle }
{}

/// The program of the same servers in classes: rows 0 to 5 are those of the classes, row 6 is the total, and rows 7 to 9
/// are the losses.
pub fn six_servers_in_classes()
    ensures { SixServersInClasses }
{}

/// With two servers on one rack of each switchboard, the reservation that wants one unit on a rack at most is chosen.
pub fn racks_chosen()
    ensures { RacksChosen }
{}
