ghost use Rattle.std.specs.Prelude.{◌≡◌};
ghost use Rattle.vw_course.specs.Stages.{answer_of};

use crate::unfinished::Unfinished;
use vw_outside::Unwritten;

/// The answer of a command that wrote its text, or that stopped while it wrote.
pub fn answer_of<F, R>(written: Result<(), Unwritten>) -> Result<(), Unfinished<F, R>>
    ensures { result ≡ answer_of written }
{
    match written {
        Ok(()) => Ok(()),
        Err(unwritten) => Err(Unfinished::from(unwritten)),
    }
}
