//! The generator of the numbers that are drawn.
ghost use Rattle.std.specs.Prelude.{◌≡◌, ◌<◌, ◌%◌};
ghost use Rattle.vw_gen.specs.Draws.{next};

use std::marker::Model;

/// The generator of the numbers that are drawn. Contracts see it as its state.
#[derive(Drop)]
pub(crate) struct Draws {
    state: u32,
}

impl Model for Draws {
    ghost use Rattle.std.specs.Prelude.{ℕ, ◌<◌};

    ghost Value = { ℕ };

    ghost view = { λ draws. draws.state };

    ghost invariant = { λ draws. draws.state < 65537 };
}

impl Draws {
    /// The generator in this state.
    pub(crate) fn start(state: u32) -> Self
        requires { state < 65537 }
        ensures { result ≡ state }
    {
        Draws { state }
    }

    /// Draws a number below a limit.
    pub(crate) fn draw(&mut self, limit: u32) -> u32
        requires { 0 < limit }
        ensures state { self.new ≡ next self.old }
        ensures drawn { result ≡ next self.old % limit }
        ensures below { result < limit }
    {
        self.state = (75 * self.state + 74) % 65537;
        self.state % limit
    }
}
