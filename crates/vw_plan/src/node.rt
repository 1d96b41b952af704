ghost use Rattle.std.specs.Prelude.{◌≡◌, ◌<◌, ◌+◌, length};
ghost use Rattle.vw_plan.specs.Nets.{node_of};

use vw_net::Flat;

/// The node of a net, given the chip of each cell: the host where the net is an input, else the chip of the cell that
/// drives it.
pub fn node_of(flat: &Flat, chip_of: &[u32], net: u32) -> u32
    requires each { length chip_of.now ≡ length flat.now.cells }
    requires net { net < flat.now.inputs + length flat.now.cells }
    ensures { result ≡ node_of flat.now chip_of.now net }
{
    if net < flat.inputs() {
        return 0;
    }
    chip_of[(net - flat.inputs()) as usize]
}
