ghost use Rattle.std.specs.Prelude.{◌≡◌, IfOk};
ghost use Rattle.ras_answers.specs.Answered.{seen};
ghost use Rattle.ras_answers.specs.Target.{no_target};

use crate::answer::{Answer, Ending};
use std::alloc::{AllocError, Global};

/// The answer where a document puts the servers nowhere.
pub(crate) fn no_target(alloc: Global) -> Result<Answer, AllocError>
    ensures { IfOk result (λ answer. seen answer ≡ no_target) }
{
    let text = Vec::from_slice(alloc, b"no target\n")?;
    Ok(Answer::Printed {
        ending: Ending::NotAccepted,
        text,
    })
}
