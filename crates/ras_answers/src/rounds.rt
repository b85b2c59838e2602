//! What `rounds` answers, one round at a time.
ghost use Rattle.std.specs.Prelude.{ℕ, ◌≡◌, ◌<◌, ◌≤◌, ◌*◌, ◌^◌, ◌||◌, List, [], IfOk, length};
ghost use Rattle.rounds_text.specs.Ready.{AreThere, AreWithin};
ghost use Rattle.rounds_text.specs.Scripts.{rounds_of};
ghost use Rattle.rounds_text.specs.declared.options.RoundOptions.{RoundOptions};
ghost use Rattle.ras_answers.specs.Rounds.{BeginsRounds, GivesRound, GivesRoundsFiles, IsBegun, StandsAfter, end_with, ending_with, is_limit};

use crate::all::CaseFiles;
use crate::answer::Ending;
use crate::inputs::{InputFault, read_case, script_in};
use crate::solving::size_note;
use plan_model::join;
use plan_solver::ExactPlanner;
use ras_rounds::Entry;
use ras_table::List;
use rounds_text::{RoundOptions, Rounds};
use std::alloc::{AllocError, Global};

/// A run of rounds, and whether the budget of some document was spent in it.
#[derive(Drop)]
pub struct RoundsRun {
    rounds: Rounds,
    spent: bool,
}

/// What came of the files of rounds.
#[derive(Drop)]
pub enum RoundsStart {
    /// All are valid. No round was run yet.
    Begun(RoundsRun),
    /// A file is not valid: the note on its first fault, which ends with a line feed.
    Invalid { note: String },
}

// What the files of rounds say.
#[derive(Drop)]
struct RoundsFiles {
    files: CaseFiles,
    entries: List<Entry>,
}

/// What a round gives.
#[derive(Debug, Drop)]
pub enum RoundAnswer {
    /// A text to print, and how the run ends where this was the last round.
    Printed { text: Vec<u8>, end: Option<Ending> },
    /// The program of the round is too large: a note, which ends with a line feed. The run ends before the round.
    TooLarge { note: String },
}

// Whether a document with such an answer has spent its budget.
fn is_limit(answer: plan_document::Answer) -> bool
    ensures { result ≡ is_limit answer }
{
    match answer {
        plan_document::Answer::Plan | plan_document::Answer::Infeasible => false,
        plan_document::Answer::Limit => true,
    }
}

// Whether the budget of some document was spent, after one more with such an answer.
fn spent_after(spent: bool, answer: plan_document::Answer) -> bool
    ensures { result ≡ (spent || is_limit answer) }
{
    spent || is_limit(answer)
}

// How a run ends whose last document has such an answer.
fn ending_with(spent: bool, answer: plan_document::Answer) -> Ending
    ensures { result ≡ ending_with spent answer }
{
    match answer {
        plan_document::Answer::Infeasible => Ending::Infeasible,
        plan_document::Answer::Limit => Ending::Limit,
        plan_document::Answer::Plan => if spent { Ending::Limit } else { Ending::Done },
    }
}

// The same, where the run does not go on.
fn end_with(goes_on: bool, spent: bool, answer: plan_document::Answer) -> Option<Ending>
    ensures { result ≡ end_with goes_on spent answer }
{
    if goes_on {
        return None;
    }
    Some(ending_with(spent, answer))
}

// The run over the files of a case and the entries of a script.
fn begin(alloc: Global, read: RoundsFiles, options: RoundOptions) -> Result<RoundsRun, AllocError>
    requires each { length read.files.bindings.of ≡ length read.files.region.servers }
    requires there { AreThere (length read.files.region.servers) read.entries }
    requires within { AreWithin options }
    ensures { IfOk result (IsBegun read.files read.entries options) }
{
    let RoundsFiles { files, entries } = read;
    let case = join(alloc, &files.region, &files.requests, &files.bindings)?;
    let rounds = Rounds::start(alloc, files.region, files.requests, case, entries, options)?;
    Ok(RoundsRun {
        rounds,
        spent: false,
    })
}

// What the files of rounds say, or the note on the first that is not valid.
fn read_rounds(
    alloc: Global,
    inventory: &[u8],
    requests: &[u8],
    bindings: &[u8],
    script: &[u8],
) -> Result<RoundsFiles, InputFault>
    requires inventory { length inventory.now ≤ 64 * 2 ^ 20 }
    requires requests { length requests.now ≤ 64 * 2 ^ 20 }
    requires bindings { length bindings.now ≤ 64 * 2 ^ 20 }
    requires script { length script.now ≤ 64 * 2 ^ 20 }
    ensures files { GivesRoundsFiles inventory.now requests.now bindings.now script.now result }
    ensures each { IfOk result (λ read. length read.files.bindings.of ≡ length read.files.region.servers) }
    ensures there { IfOk result (λ read. AreThere (length read.files.region.servers) read.entries) }
{
    let files = match read_case(alloc, inventory, requests, bindings) {
        Ok(files) => files,
        Err(fault) => return Err(fault),
    };
    match script_in(alloc, &files.region, script) {
        Ok(entries) => Ok(RoundsFiles { files, entries }),
        Err(fault) => Err(fault),
    }
}

/// Begins the rounds over the bytes of files, or gives the note on the first that is not valid.
///
/// # Errors
///
/// Memory runs out.
pub fn start_rounds(
    alloc: Global,
    inventory: &[u8],
    requests: &[u8],
    bindings: &[u8],
    script: &[u8],
    options: RoundOptions,
) -> Result<RoundsStart, AllocError>
    requires inventory { length inventory.now ≤ 64 * 2 ^ 20 }
    requires requests { length requests.now ≤ 64 * 2 ^ 20 }
    requires bindings { length bindings.now ≤ 64 * 2 ^ 20 }
    requires script { length script.now ≤ 64 * 2 ^ 20 }
    requires within { AreWithin options }
    ensures { IfOk result (BeginsRounds inventory.now requests.now bindings.now script.now options) }
{
    match read_rounds(alloc, inventory, requests, bindings, script) {
        Ok(read) => Ok(RoundsStart::Begun(begin(alloc, read, options)?)),
        Err(InputFault::Invalid(note)) => Ok(RoundsStart::Invalid { note }),
        Err(InputFault::Memory) => Err(AllocError),
    }
}

impl RoundsRun {
    /// Runs the next round: its text, and how the run ends where this was the last one; or the note on its program, where that
    /// is too large.
    ///
    /// # Errors
    ///
    /// Memory runs out. Then nothing is said of the run.
    pub fn next(&mut self, alloc: Global) -> Result<RoundAnswer, AllocError>
        requires { self.old.rounds.done < rounds_of self.old.rounds.agenda.entries }
        ensures { (inventory requests bindings script : List ℕ) (options : RoundOptions) (texts : List (List ℕ))
            → StandsAfter inventory requests bindings script options texts self.old
            → IfOk result (GivesRound inventory requests bindings script options texts self.new) }
    {
        let mut planner = ExactPlanner;
        match self.rounds.next(alloc, &mut planner) {
            Ok(round) => {
                self.spent = spent_after(self.spent, round.answer);
                let end = end_with(round.goes_on, self.spent, round.answer);
                Ok(RoundAnswer::Printed {
                    text: round.text,
                    end,
                })
            }
            Err(fault) => {
                let note = size_note(alloc, fault)?;
                Ok(RoundAnswer::TooLarge { note })
            }
        }
    }
}
