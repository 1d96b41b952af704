//! The lines of a plan text behind the first two.
ghost use Rattle.std.specs.Prelude.{◌≡◌, ◌<◌, ◌≤◌, ◌^◌, false, Some, option_map, IfOk, MatchOption};
ghost use Rattle.vw_plantext.specs.Steps.Hops.{IsHop, IsNoHop, IsHopLine, IsNoHopLine, IsWireHead, IsNoWireHead, IsWireHeadLine, IsNoWireHeadLine};
ghost use Rattle.vw_plantext.specs.Steps.Bodies.{part_of, part_with_hop, body_state, is_complete, HasSomeLeft, IsBodyInRange, TakesPlanLine, RefusesLine, ClosesWire};

use crate::line::read_numbers;
use std::alloc::{AllocError, Global};
use vw_net::Sequence;
use vw_plan::{Hop, Wire};

/// A wire whose hops are being read.
#[derive(Drop)]
pub struct OpenWire {
    pub net: u32,
    pub to: u32,
    /// The hops so far.
    pub hops: Vec<Hop>,
    /// How many are left.
    pub left: u64,
}

/// A plan whose wires are being read.
#[derive(Drop)]
pub struct Body {
    pub chip_of: Vec<u32>,
    pub period: u64,
    /// The wires that have all their hops.
    pub wires: Vec<Wire>,
    /// The wire whose hops are being read, where there is one.
    pub wire: Option<OpenWire>,
    /// How many wires are left.
    pub left: u64,
    /// How many hops these may have in all.
    pub room: u64,
}

/// The hop of numbers, where they are in their ranges.
fn hop_of(numbers: &[u64]) -> Option<Hop>
    ensures { MatchOption result (IsNoHop numbers.now) (IsHop numbers.now) }
{
    let [from, to, pin, at] = numbers else {
        return None;
    };
    let (from, to) = (u32::try_from(*from).ok()?, u32::try_from(*to).ok()?);
    let pin = u32::try_from(*pin).ok()?;
    if *at > 1 << 62 {
        return None;
    }
    Some(Hop::make(from, to, pin, *at))
}

/// The hop of a line.
fn read_hop(line: &[u8], numbers: &mut Vec<u64>) -> Result<Option<Hop>, AllocError>
    ensures { IfOk result (λ hop. MatchOption hop (IsNoHopLine line.now) (IsHopLine line.now)) }
{
    if !read_numbers(line, b"hop", numbers)? {
        return Ok(None);
    }
    Ok(hop_of(numbers))
}

/// The wire of numbers, where they are in their ranges and there is room for its hops.
fn wire_of(alloc: Global, numbers: &[u64], room: u64) -> Option<OpenWire>
    ensures { MatchOption result (IsNoWireHead room numbers.now) (IsWireHead room numbers.now) }
{
    let [net, to, left] = numbers else {
        return None;
    };
    let (net, to) = (u32::try_from(*net).ok()?, u32::try_from(*to).ok()?);
    if *left > room {
        return None;
    }
    Some(OpenWire {
        net,
        to,
        hops: Vec::new(alloc),
        left: *left,
    })
}

/// The wire of a line, without hops so far.
fn read_wire(
    alloc: Global,
    line: &[u8],
    room: u64,
    numbers: &mut Vec<u64>,
) -> Result<Option<OpenWire>, AllocError>
    ensures { IfOk result (λ wire. MatchOption wire
        (IsNoWireHeadLine room line.now) (IsWireHeadLine room line.now)) }
{
    if !read_numbers(line, b"wire", numbers)? {
        return Ok(None);
    }
    Ok(wire_of(alloc, numbers, room))
}

/// A wire with one more hop.
fn with_hop(wire: OpenWire, hop: Hop) -> Result<OpenWire, AllocError>
    requires { 1 ≤ wire.left }
    ensures { IfOk result (λ more. part_of more ≡ part_with_hop (part_of wire) hop) }
{
    let OpenWire {
        net,
        to,
        mut hops,
        left,
    } = wire;
    hops.push(hop)?;
    Ok(OpenWire {
        net,
        to,
        hops,
        left: left - 1,
    })
}

impl Body {
    /// Whether all wires are there, with their hops.
    pub fn is_complete(&self) -> bool
        ensures { result ≡ is_complete (body_state self.now) }
    {
        self.wire.is_none() && self.left == 0
    }

    /// The same, where a wire that has all its hops is put to the others.
    pub fn closed(self) -> Result<Self, AllocError>
        requires { IsBodyInRange (body_state self) }
        ensures { IfOk result (λ body. ClosesWire (body_state self) (body_state body)) }
    {
        let Body {
            chip_of,
            period,
            mut wires,
            wire,
            left,
            room,
        } = self;
        match wire {
            Some(wire) if wire.left == 0 => {
                let OpenWire {
                    net,
                    to,
                    hops,
                    left: _,
                } = wire;
                wires.push(Wire::make(net, to, Sequence::of(hops)))?;
                Ok(Body {
                    chip_of,
                    period,
                    wires,
                    wire: None,
                    left,
                    room,
                })
            }
            wire => Ok(Body {
                chip_of,
                period,
                wires,
                wire,
                left,
                room,
            }),
        }
    }

    /// Takes a line, where it can stand there.
    pub fn take(
        self,
        alloc: Global,
        line: &[u8],
        numbers: &mut Vec<u64>,
    ) -> Result<Option<Self>, AllocError>
        requires fits { IsBodyInRange (body_state self) }
        requires some_left { HasSomeLeft (option_map part_of self.wire) }
        requires incomplete { is_complete (body_state self) ≡ false }
        ensures { IfOk result (λ taken. MatchOption taken (RefusesLine (body_state self) line.now)
            (λ body. TakesPlanLine (body_state self) line.now (body_state body))) }
    {
        let Body {
            chip_of,
            period,
            wires,
            wire,
            left,
            room,
        } = self;
        match wire {
            Some(wire) => {
                let Some(hop) = read_hop(line, numbers)? else {
                    return Ok(None);
                };
                let wire = Some(with_hop(wire, hop)?);
                Ok(Some(Body {
                    chip_of,
                    period,
                    wires,
                    wire,
                    left,
                    room,
                }))
            }
            None => {
                let Some(wire) = read_wire(alloc, line, room, numbers)? else {
                    return Ok(None);
                };
                let room = room - wire.left;
                Ok(Some(Body {
                    chip_of,
                    period,
                    wires,
                    wire: Some(wire),
                    left: left - 1,
                    room,
                }))
            }
        }
    }
}
