ghost use Rattle.std.specs.Prelude.{◌≡◌};

use vw_net::{Cover, Init, Sequence};
use vw_outside::Name;

/// The edge of the clock at which a latch takes its value. Source: the types of a BLIF latch.
#[derive(Clone, Copy, Debug, PartialEq, Eq)]
pub enum Edge {
    /// The rising edge, `re`.
    Rise,
    /// The falling edge, `fe`.
    Fall,
    /// No type is written.
    Unsaid,
}

/// A binding of a placed model: a port of it, and the net that it is joined to.
pub struct Bind {
    pub formal: Name,
    pub actual: Name,
}

impl Drop for Bind {
    fn drop(self) {
        let Bind {
            formal: _,
            actual: _,
        } = self;
    }
}

impl Bind {
    /// The binding of these names.
    pub fn make(formal: Name, actual: Name) -> Self
        ensures formal { result.formal ≡ formal }
        ensures actual { result.actual ≡ actual }
    {
        Bind { formal, actual }
    }

    /// The port of the placed model.
    pub fn formal(&self) -> &Name
        ensures { result.now ≡ self.now.formal }
    {
        &self.formal
    }

    /// The net of the model that places it.
    pub fn actual(&self) -> &Name
        ensures { result.now ≡ self.now.actual }
    {
        &self.actual
    }
}

/// What a model has beside its ports. Each has the number of the line on which it begins, from 1.
pub enum Item {
    /// A table over the nets `ins`, in the order of the table's inputs, that drives `out`.
    Names {
        line: u64,
        ins: Sequence<Name>,
        out: Name,
        cover: Cover,
    },
    /// A latch from `d` to `q`. The control is the net of its clock, where one is written.
    Latch {
        line: u64,
        d: Name,
        q: Name,
        edge: Edge,
        control: Option<Name>,
        init: Init,
    },
    /// A placed model with its bindings.
    Sub {
        line: u64,
        model: Name,
        binds: Sequence<Bind>,
    },
}

impl Drop for Item {
    fn drop(self) {
        match self {
            Item::Names {
                line: _,
                ins: _,
                out: _,
                cover: _,
            } => {}
            Item::Latch {
                line: _,
                d: _,
                q: _,
                edge: _,
                control: _,
                init: _,
            } => {}
            Item::Sub {
                line: _,
                model: _,
                binds: _,
            } => {}
        }
    }
}
