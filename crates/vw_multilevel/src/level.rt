//! A netlist as nets over vertices, of which each stands for one or more cells.
use crate::numbers::NumberList;
use crate::rows::NumberRows;
use std::alloc::{AllocError, Global};

/// Nets of at least two vertices.
pub struct Level {
    /// The vertices of each net.
    pub of_net: NumberRows,
    /// The nets of each vertex.
    pub of_vertex: NumberRows,
    /// How many cells each vertex stands for.
    pub weights: NumberList,
}

// Written out, since a derived drop is proved anew in each function where it runs.
impl Drop for Level {
    fn drop(self) {
        let Level {
            of_net: _,
            of_vertex: _,
            weights: _,
        } = self;
    }
}

impl Level {
    /// The level at which each vertex is one of so many cells, given the cells of each net. Nets of a single cell are left out.
    pub fn of_nets(alloc: Global, of_net: &NumberRows, cells: u32) -> Result<Self, AllocError> {
        let map = NumberList::below(alloc, cells)?;
        let weights = NumberList::filled(alloc, cells, 1)?;
        merged_level(alloc, of_net, &map, weights)
    }

    /// How many vertices there are.
    pub fn vertices(&self) -> u32 {
        self.weights.len()
    }

    /// How many cells all of them stand for.
    pub fn weight(&self) -> u32 {
        self.weights.sum()
    }

    /// The level of some of the vertices alone, given the new number of each one, in their order; the others have a number
    /// that is too great.
    pub fn of_some(&self, alloc: Global, map: &NumberList, many: u32) -> Result<Self, AllocError> {
        let mut weights = NumberList::zeros(alloc, many)?;
        for vertex in 0..self.vertices() {
            weights.set(map.at(vertex), self.weights.at(vertex));
        }
        merged_level(alloc, &self.of_net, map, weights)
    }

    /// The level of which each vertex is a cluster, given the cluster of each vertex and how many there are.
    pub fn of_clusters(
        &self,
        alloc: Global,
        map: &NumberList,
        clusters: u32,
    ) -> Result<Self, AllocError> {
        let mut weights = NumberList::zeros(alloc, clusters)?;
        for vertex in 0..self.vertices() {
            weights.add(map.at(vertex), self.weights.at(vertex));
        }
        merged_level(alloc, &self.of_net, map, weights)
    }
}

/// The vertices of each of these nets by their new numbers, each once. A vertex whose new number is too great is left out,
/// and so is a net that keeps a single vertex.
fn merged_nets(
    alloc: Global,
    nets: &NumberRows,
    map: &NumberList,
    vertices: u32,
) -> Result<NumberRows, AllocError> {
    let mut of_net = NumberRows::new(alloc)?;
    let mut seen = NumberList::zeros(alloc, vertices)?;
    for net in 0..nets.len() {
        let mark = net.saturating_add(1);
        for vertex in nets.row(net) {
            let new = map.at(*vertex);
            if new < vertices && seen.at(new) != mark {
                seen.set(new, mark);
                of_net.push(new)?;
            }
        }
        of_net.end_row_of_two()?;
    }
    Ok(of_net)
}

/// The level of these nets, with the new number of each vertex, and the new weights. A vertex whose new number has no weight
/// is left out, and so is a net that keeps a single vertex.
fn merged_level(
    alloc: Global,
    nets: &NumberRows,
    map: &NumberList,
    weights: NumberList,
) -> Result<Level, AllocError> {
    let of_net = merged_nets(alloc, nets, map, weights.len())?;
    let of_vertex = of_net.transposed(alloc, weights.len())?;
    Ok(Level {
        of_net,
        of_vertex,
        weights,
    })
}
