//! Inner nodes on a way.

/// An inner node on a way, and the length of its handle. The root is taken to have one of no bits.
#[derive(Clone, Copy)]
pub struct WayNode {
    pub node: u32,
    pub handle: u32,
}
