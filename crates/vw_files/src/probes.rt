//! The nets that a command watches.
ghost use Rattle.std.specs.Option.{option_copied};
ghost use Rattle.std.specs.Prelude.{◌≡◌, ◌≤◌, IfOk, length};
ghost use Rattle.vw_courses.specs.Commands.{ends_by, watched_words};
ghost use Rattle.vw_files.specs.Watched.{shown_words, triggers};

use std::alloc::{AllocError, Global};
use vw_outside::Name;

/// The nets that are watched, by their words, at most 65: the probes, and with `until` the trigger behind them.
#[derive(Clone, Copy)]
pub struct Probes<'n> {
    pub nets: &'n [Name],
    /// Whether the last of them is a trigger: the run ends behind the first clock in which it is 1, and doesn't show it.
    pub until: bool,
    ghost few: { length nets.now ≤ 65 },
    ghost some: { triggers until ≤ length nets.now },
}

impl<'n> Probes<'n> {
    /// Those that are shown: all but the trigger.
    pub fn shown(&self) -> &'n [Name]
        ensures { result.now ≡ shown_words self.now.until self.now.nets.now }
    {
        if !self.until {
            return self.nets;
        }
        let (shown, _) = self.nets.split_at(self.nets.len() - 1);
        shown
    }

    /// How many are shown.
    pub fn count(&self) -> u32
        ensures { result ≡ length (shown_words self.now.until self.now.nets.now) }
    {
        if self.until {
            return self.nets.len() as u32 - 1;
        }
        self.nets.len() as u32
    }
}

/// A list of the nets that the words of a command watch.
pub struct Watched {
    nets: Vec<Name>,
    until: bool,
    ghost few: { length nets.items ≤ 65 },
    ghost some: { triggers until ≤ length nets.items },
}

impl Drop for Watched {
    fn drop(self) {
        let Watched { nets: _, until: _ } = self;
    }
}

impl Watched {
    /// These probes, 64 at most, and behind them the trigger, where one is named. It takes memory for its word.
    pub fn make(alloc: Global, probes: Vec<Name>, until: Option<&[u8]>) -> Result<Self, AllocError>
        requires { length probes.items ≤ 64 }
        ensures nets { IfOk result (λ watched. watched.nets.items
            ≡ watched_words (option_copied until.entry) probes.items) }
        ensures until { IfOk result (λ watched. watched.until ≡ ends_by (option_copied until.entry)) }
    {
        let mut nets = probes;
        match until {
            Some(net) => {
                nets.push(Name::of(net.to_vec(alloc)?))?;
                Ok(Watched { nets, until: true })
            }
            None => Ok(Watched { nets, until: false }),
        }
    }

    /// The nets of the list.
    pub fn probes(&self) -> Probes<'_>
        ensures nets { result.nets.now ≡ self.now.nets.items }
        ensures until { result.until ≡ self.now.until }
    {
        Probes {
            nets: &self.nets,
            until: self.until,
        }
    }
}
