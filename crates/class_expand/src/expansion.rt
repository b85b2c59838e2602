//! The assignment of a whole point.
ghost use Rattle.std.specs.Prelude.{◌≡◌, ◌<◌, ◌≤◌, ◌^◌, All, IsTrue, fold, length, replicate};
ghost use Rattle.std.specs.List.{enumerate_from};
ghost use Rattle.plan_model.specs.declared.cases.Grouping.{Grouping};
ghost use Rattle.ip_model.specs.Points.{IsWholePoint, value_of};
ghost use Rattle.program_rows.specs.Phases.{phase_allowed, phase_cost, start_allowed};
ghost use Rattle.program_rows.specs.Settings.{setting_of, phase_classes};
ghost use Rattle.program_rows.specs.Sizes.{IsGrouped};
ghost use Rattle.class_expand.specs.Dealing.{AreDealt, IsProgramFor, deal, dealt, given_by, goes_to as goes_to_of, put_all};
ghost use Rattle.class_expand.specs.Lifting.{Expands};

use ip_model::{Column, Mark, Program};
use plan_model::{Assignment, Case};
use program_rows::Phase;
use ras_table::List;
use symmetry_classes::{Class, Classes};

/// How many members of a class a column gives out.
fn given(class: u32, mark: Mark, number: u32) -> u32
    ensures count { result ≡ given_by class mark number }
    ensures most { result ≤ number }
{
    match mark {
        Mark::Count { class: c, .. } if c == class => number,
        _ => 0,
    }
}

/// Where the members go that a column gives out.
fn goes_to(mark: Mark) -> Option<u32>
    ensures { result ≡ goes_to_of mark }
{
    match mark {
        Mark::Count { to, .. } => to,
        _ => None,
    }
}

/// Gives each of these members to a reservation or to none.
fn give(members: &[u32], to: Option<u32>, a: &mut Assignment)
    requires { All (λ m. m < length a.old.of) members.now }
    ensures given { a.new.of ≡ put_all a.old.of members.now (replicate (length members.now) to) }
    ensures size { length a.new.of ≡ length a.old.of }
{
    for member in members {
        a.of.set(*member, to);
    }
}

/// Hands the members of a class out, column by column of the point.
fn hand_out(columns: &[Column], point: &[u32], class: u32, members: &[u32], a: &mut Assignment)
    requires size { length point.now ≡ length columns.now }
    requires within { All (λ m. m < length a.old.of) members.now }
    requires few { length members.now < 2 ^ 32 }
    requires enough { length (dealt class columns.now point.now) ≤ length members.now }
    ensures given { a.new.of ≡ put_all a.old.of members.now (dealt class columns.now point.now) }
    ensures size { length a.new.of ≡ length a.old.of }
{
    let mut next = 0usize;
    for (j, column) in columns.iter().enumerate() {
        let count = given(class, column.mark, point[j]) as usize;
        give(&members[next..next + count], goes_to(column.mark), a);
        next += count;
    }
}

/// Hands the members of all classes out.
fn hand_all_out(columns: &[Column], point: &[u32], classes: &[Class], a: &mut Assignment)
    requires size { length point.now ≡ length columns.now }
    requires few { length classes.now < 2 ^ 32 }
    requires dealt { AreDealt columns.now point.now (length a.old.of) classes.now }
    ensures { a.new.of ≡ fold (deal columns.now point.now) a.old.of (enumerate_from 0 classes.now) }
{
    for (number, class) in classes.iter().enumerate() {
        hand_out(columns, point, number as u32, class.members.as_slice(), a);
    }
}

/// Expands a whole point of a phase's program: each class goes through its columns in order and hands its members out in
/// order, and all other servers stay. The assignment starts with none everywhere in the region phase, and as the region's
/// in the rack phase. It ends allowed in the phase, and costs at most the point's value. Takes no memory.
pub fn expand(
    case: &Case,
    phase: &Phase<'_>,
    classes: &Classes,
    program: &Program,
    point: &List<u32>,
    a: &mut Assignment,
)
    requires start { IsTrue (start_allowed case.now phase.now) }
    requires grouped { IsGrouped case.now phase.now classes.now.list }
    requires program { IsProgramFor case.now (setting_of case.now phase.now) classes.now.list program.now }
    requires whole_point { IsWholePoint program.now point.now }
    requires begins { a.old.of ≡ (setting_of case.now phase.now).start.of }
    ensures expands { (how : Grouping) → classes.now.list ≡ phase_classes case.now (setting_of case.now phase.now) how → Expands case.now (setting_of case.now phase.now) how point.now a.new }
    ensures dealt { a.new.of ≡ fold (deal program.now.columns point.now) a.old.of (enumerate_from 0 classes.now.list) }
    ensures allowed { IsTrue (phase_allowed case.now (setting_of case.now phase.now) a.new) }
    ensures cost { phase_cost case.now (setting_of case.now phase.now) a.new ≤ value_of program.now point.now }
{
    hand_all_out(
        program.columns.as_slice(),
        point.as_slice(),
        classes.list.as_slice(),
        a,
    );
}
