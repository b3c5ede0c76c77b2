use ra_indirect::Node;
use ra_links::FlatRows;

/// What a frame of the nodes goes by: the nodes of a pool, the slot of each among those of its kind, which of them name
/// which, and whether all may be due.
#[derive(Clone, Copy)]
pub struct NodePlan<'a> {
    pub nodes: &'a [Node],
    pub slots: &'a [u32],
    pub dependents: &'a FlatRows,
    pub all: bool,
}
