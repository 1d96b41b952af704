//! Shift loops.
ghost use Rattle.std.specs.Prelude.{◌≡◌, ◌<◌, ◌++◌, ◌∷◌, ◌+◌, [], length, slice_get, Some, IfOk, OnOk};
ghost use Rattle.vw_prog.specs.Loops.{loop_place, place_after};
ghost use Rattle.vw_prog.specs.Coding.{with_net};
ghost use Rattle.vw_prog.specs.Unfolded.{loop_net};

use std::alloc::{AllocError, Global};
use std::marker::Model;

/// A net in a shift loop.
#[derive(Clone, Copy)]
pub struct LoopNet {
    pub net: u32,
    /// The slot of its bit.
    pub slot: u32,
}

/// The nets that a node sends over one pin of a link in one clock, in order. A send takes the net at which the loop stands, and
/// turns it on to the next one; behind the last comes the first. Where it stands is kept by whoever turns it.
pub struct ShiftLoop {
    link: u32,
    pin: u32,
    nets: Vec<LoopNet>,
}

impl Drop for ShiftLoop {
    fn drop(self) {
        let ShiftLoop {
            link: _,
            pin: _,
            nets: _,
        } = self;
    }
}

impl Model for ShiftLoop {
    ghost use Rattle.vw_prog.specs.SeenLoop.{SeenLoop};

    ghost Value = { SeenLoop };

    ghost view = { λ one. record { link = one.link; pin = one.pin; nets = one.nets.items } };
}

impl ShiftLoop {
    /// The loop of a pin, with one net.
    fn of_net(alloc: Global, link: u32, pin: u32, net: LoopNet) -> Result<Self, AllocError>
        ensures { IfOk result (λ one. one ≡ record { link = link; pin = pin; nets = net ∷ [] }) }
    {
        let mut nets = Vec::new(alloc);
        nets.push(net)?;
        Ok(ShiftLoop { link, pin, nets })
    }

    /// Puts a net behind the others.
    fn push(&mut self, net: LoopNet) -> Result<(), AllocError>
        ensures { OnOk result (self.new ≡ record self.old { nets = self.old.nets ++ net ∷ [] }) }
    {
        self.nets.push(net)?;
        Ok(())
    }

    /// The link. It takes no memory.
    #[inline(always)]
    pub fn link(&self) -> u32
        ensures { result ≡ self.now.link }
    {
        self.link
    }

    /// The pin of the link. It takes no memory.
    #[inline(always)]
    pub fn pin(&self) -> u32
        ensures { result ≡ self.now.pin }
    {
        self.pin
    }

    /// The net at a place, from 0. It takes no memory.
    #[inline(always)]
    pub fn at(&self, place: usize) -> LoopNet
        requires { place < length self.now.nets }
        ensures { slice_get self.now.nets place ≡ Some result }
    {
        self.nets[place]
    }

    /// The place to which a loop is turned from a place. It takes no memory.
    #[inline(always)]
    pub fn next(&self, place: usize) -> usize
        requires { place < length self.now.nets }
        ensures { result ≡ place_after (length self.now.nets) (place + 1) }
    {
        let count = self.nets.len();
        let next = place + 1;
        if next == count { 0 } else { next }
    }

    /// The net at a place, and net 0 past the end.
    pub(crate) fn net_at(&self, place: usize) -> u32
        ensures { result ≡ loop_net self.now place }
    {
        match self.nets.get(place) {
            Some(item) => item.net,
            None => 0,
        }
    }
}

/// The place of the loop of a pin, and the number of loops where it has none.
fn loop_place(loops: &[ShiftLoop], link: u32, pin: u32) -> usize
    ensures { result ≡ loop_place link pin loops.now }
{
    for (place, one) in loops.iter().enumerate() {
        if one.link() == link && one.pin() == pin {
            return place;
        }
    }
    loops.len()
}

/// Puts a net into the loop of a pin, behind the others, and gives the place of the loop. It looks through the loops, of which
/// there are as many as pins that the node sends over.
pub fn keep_net(
    alloc: Global,
    link: u32,
    pin: u32,
    net: LoopNet,
    loops: &mut Vec<ShiftLoop>,
) -> Result<usize, AllocError>
    ensures place { IfOk result (λ place. place ≡ loop_place link pin loops.old.items) }
    ensures loops { OnOk result (loops.new.items ≡ with_net link pin net loops.old.items) }
{
    let place = loop_place(loops, link, pin);
    if place < loops.len() {
        loops[place].push(net)?;
        return Ok(place);
    }
    loops.push(ShiftLoop::of_net(alloc, link, pin, net)?)?;
    Ok(place)
}
