// The grid of cells and rows: definitions in specs/, laws in proofs/. The code has a number for each axis.
#![tactic(auto)]

// A number for each axis: extents, coordinates or an origin.
#[derive(Clone, Copy)]
pub struct Triple {
    pub x: usize,
    pub y: usize,
    pub z: usize,
}

// An axis, with its number.
#[derive(Clone, Copy, Debug, PartialEq, Eq)]
pub enum Axis {
    X = 1,
    Y = 2,
    Z = 3,
}
