//! Certificates of small cases, computed by the definitions.
ghost use Rattle.ras_laws.specs.Certificates.{OneChildBreaksARule, OneLossRefutes, SixServersBound, SixServersBoundRoundsUp, ThreeServersSplit};

/// Six servers on three switchboards with need 40 and value 10: the three losses show that at least 6 servers are taken.
pub fn six_servers_bound()
    ensures { SixServersBound }
{}

/// The same with need 35, where the bound before rounding is 105/20.
pub fn six_servers_bound_rounds_up()
    ensures { SixServersBoundRoundsUp }
{}

/// The same with need 41, which no assignment keeps: one loss row refutes the full box.
pub fn one_loss_refutes()
    ensures { OneLossRefutes }
{}

/// Three servers on a switchboard each, with need 1 and a cost of 2 for each server: the relaxation costs 3, and a tree of
/// one split shows 4.
pub fn three_servers_split()
    ensures { ThreeServersSplit }
{}

/// A split whose two children are one node is no tree.
pub fn one_child_breaks_a_rule()
    ensures { OneChildBreaksARule }
{}
