//! What a program's commands read, and why they refuse.
ghost use Rattle.std.specs.Prelude.{◌≡◌, ◌<◌, ℕ, List, IfOk};
ghost use Rattle.vw_course.specs.Vocabulary.{IsNoStop};

use std::alloc::{AllocError, Global};

/// A file of a command, by its part in it: the design, say.
pub trait CommandFile {
    /// The message line where a read of it failed, with the byte that ends the line.
    ghost fault_line: { Self → List ℕ };

    /// The message line where a read of it failed, with the end of the line. It takes no memory.
    fn read_line(&self) -> &'static [u8]
        ensures { result.now ≡ fault_line self.now };
}

/// A reason for which commands refuse: what is wrong with their words or files.
pub trait RefusalReason {
    /// The exit status, which is one of 1 to 6, 10 and 11.
    ghost exit_status: { Self → ℕ };

    /// The message line, with the byte that ends the line.
    ghost message: { Self → List ℕ };

    ghost some: { (reason : Self) → 0 < exit_status reason };

    ghost few: { (reason : Self) → IsNoStop (exit_status reason) };

    /// The exit status.
    fn status(&self) -> u8
        ensures { result ≡ exit_status self.now };

    /// The message line, with the end of the line.
    fn line(&self, alloc: Global) -> Result<Vec<u8>, AllocError>
        ensures { IfOk result (λ line. line.items ≡ message self.now) };
}
