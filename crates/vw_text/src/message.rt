ghost use Rattle.std.specs.Prelude.{◌≡◌, ◌++◌, ◌∷◌, [], IfOk};
ghost use Rattle.std.specs.Fmt.{decimal};

use std::alloc::{AllocError, Global};

/// A message line with one number in it, with the end of the line.
pub fn numbered_line(
    alloc: Global,
    before: &str,
    number: u64,
    after: &str,
) -> Result<Vec<u8>, AllocError>
    ensures { IfOk result (λ line. line.items
        ≡ before.now ++ decimal number ++ after.now ++ 10 ∷ []) }
{
    let line = format!(in alloc; "{before}{number}{after}\n")?;
    Ok(line.into_bytes())
}
