ghost use Rattle.std.specs.Prelude.{◌≡◌, ◌++◌, [], ◌∷◌, codes, IfOk, OnOk};
ghost use Rattle.std.specs.Fmt.{decimal};
ghost use Rattle.vw_instances.specs.Quantities.{quantity_word};
ghost use Rattle.vw_elab.specs.MessageLines.{at_line_of_name, of_net, of_pair, spaced};

use std::alloc::{AllocError, AllocFailed, Global};
use vw_instances::Quantity;
use vw_net::Sequence;
use vw_outside::Name;

/// Why a design is refused. Lines are numbered from 1. Nets are printed with their paths: each place followed by `/`, and
/// then the name.
#[derive(Drop)]
pub enum DesignFault {
    /// A `.subckt` item at this line names no model of the file.
    UnknownModel(u64),
    /// Models place each other in a circle: each the next one, and the last one the first.
    RecursiveModel(Sequence<Name>),
    /// An item at this line binds a formal that is no input, clock or output of the placed model.
    UnknownFormal(u64, Name),
    /// An item at this line doesn't bind this input or clock of the placed model.
    UnboundInput(u64, Name),
    /// A placed model has a name among its outputs and among its inputs or clocks: the model and the name.
    BothWays(Name, Name),
    /// A quantity is above its limit.
    TooBig(Quantity, u64),
    /// A net that is read has no driver.
    Undriven(Name),
    /// A net has two claims.
    TwoDrivers(Name),
    /// The control of a latch has a gate or a latch as driver.
    GatedClock(Name),
    /// Two controls have these two ports of the root as drivers.
    SeveralClocks(Name, Name),
    /// Two latches write different types: the nets that they drive.
    SeveralEdges(Name, Name),
    /// A gate, the data input of a latch or an output of the root reads a clock port.
    ClockAsData(Name),
    NoMemory,
}

impl From<AllocError> for DesignFault {
    ghost use Rattle.vw_elab.specs.declared.fault.DesignFault.TheVariants.{NoMemory};

    ghost from_gives = { λ _ e. e ≡ NoMemory };

    fn from(_: AllocError) -> Self {
        DesignFault::NoMemory
    }
}

impl<T: Drop> From<AllocFailed<T>> for DesignFault {
    ghost use Rattle.vw_elab.specs.declared.fault.DesignFault.TheVariants.{NoMemory};

    ghost from_gives = { λ _ e. e ≡ NoMemory };

    fn from(_: AllocFailed<T>) -> Self {
        DesignFault::NoMemory
    }
}

/// The message of a fault at a line: its number, the line, what is wrong, and a name.
fn at_line_of_name(
    alloc: Global,
    fault: u32,
    line: u64,
    what: &[u8],
    name: &[u8],
) -> Result<Vec<u8>, AllocError>
    ensures { IfOk result (λ text. text.items ≡ at_line_of_name fault line what.now name.now) }
{
    let mut text = format!(in alloc; "design {fault}: line {line}: ")?.into_bytes();
    text.extend_from_slice(what)?;
    text.extend_from_slice(name)?;
    text.push(b'\n')?;
    Ok(text)
}

/// The message of a fault of a net.
fn of_net(alloc: Global, fault: u32, what: &[u8], net: &Name) -> Result<Vec<u8>, AllocError>
    ensures { IfOk result (λ text. text.items ≡ of_net fault what.now net.now) }
{
    let mut text = format!(in alloc; "design {fault}: ")?.into_bytes();
    text.extend_from_slice(what)?;
    text.extend_from_slice(net.as_slice())?;
    text.push(b'\n')?;
    Ok(text)
}

/// The message of a fault of two names.
fn of_pair(
    alloc: Global,
    fault: u32,
    what: &[u8],
    first: &Name,
    other: &Name,
) -> Result<Vec<u8>, AllocError>
    ensures { IfOk result (λ text. text.items ≡ of_pair fault what.now first.now other.now) }
{
    let mut text = format!(in alloc; "design {fault}: ")?.into_bytes();
    text.extend_from_slice(what)?;
    text.extend_from_slice(first.as_slice())?;
    text.push(b' ')?;
    text.extend_from_slice(other.as_slice())?;
    text.push(b'\n')?;
    Ok(text)
}

/// Adds each name behind a blank.
fn add_spaced(text: &mut Vec<u8>, names: &[Name]) -> Result<(), AllocError>
    ensures { OnOk result (text.new.items ≡ text.old.items ++ spaced names.now) }
{
    for name in names {
        text.push(b' ')?;
        text.extend_from_slice(name.as_slice())?;
    }
    Ok(())
}

/// A line that begins with these bytes and has each name behind a blank, with the end of the line.
pub fn line_of_names(alloc: Global, front: &[u8], names: &[Name]) -> Result<Vec<u8>, AllocError>
    ensures { IfOk result (λ text. text.items ≡ front.now ++ spaced names.now ++ 10 ∷ []) }
{
    let mut text = front.to_vec(alloc)?;
    add_spaced(&mut text, names)?;
    text.push(b'\n')?;
    Ok(text)
}

/// A text with two names in it.
fn around(
    alloc: Global,
    front: &[u8],
    first: &Name,
    middle: &[u8],
    other: &Name,
    end: &[u8],
) -> Result<Vec<u8>, AllocError>
    ensures { IfOk result (λ text. text.items
        ≡ front.now ++ first.now ++ middle.now ++ other.now ++ end.now) }
{
    let mut text = front.to_vec(alloc)?;
    text.extend_from_slice(first.as_slice())?;
    text.extend_from_slice(middle)?;
    text.extend_from_slice(other.as_slice())?;
    text.extend_from_slice(end)?;
    Ok(text)
}

/// The message of a model with an output that is an input or clock, too.
fn of_both_ways(alloc: Global, model: &Name, name: &Name) -> Result<Vec<u8>, AllocError>
    ensures { IfOk result (λ text. text.items ≡ codes "design 17: model " ++ model.now
        ++ codes ": " ++ name.now ++ (codes " is input and output" ++ 10 ∷ [])) }
{
    let end = b" is input and output\n";
    around(alloc, b"design 17: model ", model, b": ", name, end)
}

/// Adds a word and the end of the line.
fn add_last(text: &mut Vec<u8>, word: &[u8]) -> Result<(), AllocError>
    ensures { OnOk result (text.new.items ≡ text.old.items ++ word.now ++ 10 ∷ []) }
{
    text.extend_from_slice(word)?;
    text.push(b'\n')?;
    Ok(())
}

/// The message of a quantity that is above its limit.
fn of_limit(alloc: Global, quantity: Quantity, limit: u64) -> Result<Vec<u8>, AllocError>
    ensures { IfOk result (λ text. text.items ≡ codes "design 18: more than "
        ++ decimal limit ++ 32 ∷ quantity_word quantity ++ 10 ∷ []) }
{
    let mut text = format!(in alloc; "design 18: more than {limit} ")?.into_bytes();
    add_last(&mut text, quantity.name())?;
    Ok(text)
}

impl DesignFault {
    ghost use Rattle.vw_elab.specs.Messages.{fault_text};

    /// The message line, with the end of the line.
    pub fn text(&self, alloc: Global) -> Result<Vec<u8>, AllocError>
        ensures { IfOk result (λ line. line.items ≡ fault_text self.now) }
    {
        match self {
            DesignFault::UnknownModel(line) => at_line_of_name(
                alloc,
                13,
                *line,
                b"unknown model",
                b"",
            ),
            DesignFault::RecursiveModel(names) => {
                line_of_names(alloc, b"design 14: recursive models", names.as_slice())
            }
            DesignFault::UnknownFormal(line, formal) => {
                at_line_of_name(alloc, 15, *line, b"unknown formal ", formal.as_slice())
            }
            DesignFault::UnboundInput(line, formal) => {
                at_line_of_name(alloc, 16, *line, b"unbound input ", formal.as_slice())
            }
            DesignFault::BothWays(model, name) => of_both_ways(alloc, model, name),
            DesignFault::TooBig(quantity, limit) => of_limit(alloc, *quantity, *limit),
            DesignFault::Undriven(net) => of_net(alloc, 19, b"undriven ", net),
            DesignFault::TwoDrivers(net) => of_net(alloc, 20, b"two drivers of ", net),
            DesignFault::GatedClock(net) => of_net(alloc, 21, b"gated clock ", net),
            DesignFault::SeveralClocks(first, other) => {
                of_pair(alloc, 22, b"several clocks ", first, other)
            }
            DesignFault::SeveralEdges(first, other) => {
                of_pair(alloc, 23, b"several edges ", first, other)
            }
            DesignFault::ClockAsData(net) => of_net(alloc, 24, b"clock as data ", net),
            DesignFault::NoMemory => Ok(b"out of memory\n".to_vec(alloc)?),
        }
    }
}
