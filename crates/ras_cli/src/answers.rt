ghost use Rattle.std.specs.Prelude.{◌≡◌, ◌≤◌, ◌*◌, ◌^◌, All, IfOk, length, map};
ghost use Rattle.ras_words.specs.Words.{InRanges};
ghost use Rattle.ras_answers.specs.Answered.{seen};
ghost use Rattle.ras_answers.specs.Check.{CheckAnswers};
ghost use Rattle.ras_answers.specs.Cores.{CoreAnswers};
ghost use Rattle.ras_answers.specs.Move.{MoveAnswers};
ghost use Rattle.ras_answers.specs.Sample.{SampleAnswers};
ghost use Rattle.ras_answers.specs.Solve.{SolveAnswers};
ghost use Rattle.ras_answers.specs.Spare.{SpareAnswers};
ghost use Rattle.ras_cli.specs.Asked.{Answers, files_of, options_of};

use ras_answers::{
    Answer, Options, check_answer, core_answer, move_answer, sample_answer, solve_answer,
    spare_answer,
};
use ras_words::{Command, SolveWords};
use std::alloc::{AllocError, Global};

// What the words ask of a solution.
fn options_of(words: &SolveWords) -> Options
    ensures { result ≡ options_of words.now }
{
    Options {
        gap: words.gap,
        nodes: words.nodes,
        racks: words.racks,
    }
}

/// What a command answers to the bytes of its files.
pub fn answer_of(alloc: Global, command: &Command, files: &[Vec<u8>]) -> Result<Answer, AllocError>
    requires ranges { InRanges command.now }
    requires each { length files.now ≡ length (files_of command.now) }
    requires small { All (λ f. length f.items ≤ 64 * 2 ^ 20) files.now }
    ensures { IfOk result (λ a. Answers command.now (map (λ f. f.items) files.now) (seen a)) }
{
    match command {
        Command::Check(_) => check_answer(
            alloc,
            files[0].as_slice(),
            files[1].as_slice(),
            files[2].as_slice(),
            files[3].as_slice(),
        ),
        Command::Solve(words) => solve_answer(
            alloc,
            files[0].as_slice(),
            files[1].as_slice(),
            files[2].as_slice(),
            options_of(words),
        ),
        Command::Move(words) => move_answer(
            alloc,
            files[0].as_slice(),
            files[1].as_slice(),
            files[2].as_slice(),
            files[3].as_slice(),
            files[4].as_slice(),
            words.at_once,
        ),
        Command::Spare(_) => spare_answer(
            alloc,
            files[0].as_slice(),
            files[1].as_slice(),
            files[2].as_slice(),
            files[3].as_slice(),
            files[4].as_slice(),
        ),
        Command::Core(words) => core_answer(
            alloc,
            files[0].as_slice(),
            files[1].as_slice(),
            files[2].as_slice(),
            words.nodes,
        ),
        Command::Sample(words) => sample_answer(alloc, words.number, words.size),
    }
}
