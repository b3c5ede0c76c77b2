ghost use Rattle.std.specs.Prelude.{◌≡◌, ℕ, ◌+◌, ◌*◌, ◌<◌, ◌≤◌, ◌^◌, ◌∷◌, ◌++◌, [], List, length, take, slice_get, Some, IfOk, OnOk, IfSome, IfNone, Contains};
ghost use Rattle.ra_indirect.specs.declared.node.Node.{Node};
ghost use Rattle.ra_indirect.specs.Buckets.{bucket_of, mixed_of, AreFiled};

use crate::node::Node;
use ra_text::OutOfMemory;
use std::alloc::Global;

/// The nodes of a pool in buckets, to look them up: docs/INTERNALS.md, "Nodes are looked up in buckets".
///
/// A place is the number of a node and one, or 0 for none.
#[derive(Drop)]
pub struct Buckets {
    /// How many buckets there are for views. There are as many for all else.
    pub half: usize,
    /// The place of the latest node of each bucket.
    pub latest: Vec<u32>,
    /// For each node the place of the one before it in its bucket.
    pub earlier: Vec<u32>,
}

impl Buckets {
    /// No buckets. They take no memory.
    pub fn none(alloc: Global) -> Buckets
        ensures { AreFiled [] result }
    {
        Buckets {
            half: 0,
            latest: Vec::new(alloc),
            earlier: Vec::new(alloc),
        }
    }

    /// Empty buckets for this many nodes. Memory is the only refusal.
    pub fn with_room(alloc: Global, nodes: usize) -> Result<Buckets, OutOfMemory>
        requires { nodes ≤ 2 ^ 32 }
        ensures filed { IfOk result (AreFiled []) }
        ensures room { IfOk result (λ buckets. nodes ≤ length buckets.earlier.items) }
        ensures some { IfOk result (λ buckets. 0 < length buckets.earlier.items) }
    {
        let room = nodes.max(16);
        let half = (room / 2).next_power_of_two();
        let latest = vec![in alloc; 0; 2 * half]?;
        let earlier = vec![in alloc; 0; room]?;
        Ok(Buckets {
            half,
            latest,
            earlier,
        })
    }

    // These nodes in buckets for more.
    fn over(alloc: Global, nodes: &[Node]) -> Result<Buckets, OutOfMemory>
        requires { length nodes.now < 2 ^ 31 }
        ensures filed { IfOk result (AreFiled nodes.now) }
        ensures room { IfOk result (λ buckets. length nodes.now < length buckets.earlier.items) }
    {
        let mut buckets = Buckets::with_room(alloc, 2 * nodes.len())?;
        for number in 0..nodes.len() {
            let bucket = buckets.bucket(nodes[number]);
            buckets.put(number, bucket);
        }
        Ok(buckets)
    }

    /// Makes room for one more node. Out of memory is the only refusal.
    pub fn make_room(&mut self, nodes: &[Node]) -> Result<(), OutOfMemory>
        requires filed { AreFiled nodes.now self.old }
        requires few { length nodes.now < 2 ^ 31 }
        ensures filed { AreFiled nodes.now self.new }
        ensures room { OnOk result (length nodes.now < length self.new.earlier.items) }
    {
        if self.earlier.len() <= nodes.len() {
            *self = Buckets::over(*self.earlier.allocator(), nodes)?;
        }
        Ok(())
    }

    /// The bucket of a node. Views have buckets of their own, so that those of one cell are together.
    #[tactic(auto, unfolding(crate::specs::Buckets::bucket_of))]
    pub fn bucket(&self, node: Node) -> usize
        requires some { 0 < self.now.half }
        requires small { self.now.half ≤ 2 ^ 32 }
        ensures bucket { result ≡ bucket_of self.now.half node }
        ensures within { result < 2 * self.now.half }
    {
        let mixed = match node {
            Node::Const(number) => mixed(number, 0, 0),
            Node::Cell {
                pointer,
                offset,
                width,
            } => mixed(pointer, offset, width as u32),
            Node::View { cell, .. } => return self.half + (cell as usize & (self.half - 1)),
            Node::Arith { op, left, right } => mixed(left, right, 8 + op as u32),
        };
        mixed as usize & (self.half - 1)
    }

    /// The number of the node, if it is one of these. The bucket is that of the node.
    pub fn find(&self, nodes: &[Node], node: Node, bucket: usize) -> Option<u32>
        requires filed { AreFiled nodes.now self.now }
        requires bucket { bucket ≡ bucket_of self.now.half node }
        requires within { bucket < 2 * self.now.half }
        ensures found { IfSome result (λ number. slice_get nodes.now number ≡ Some node) }
        ensures none { IfNone result (Contains nodes.now node → ⊥) }
    {
        let mut place = self.latest[bucket];
        while place != 0 {
            let number = place - 1;
            if nodes[number as usize] == node {
                return Some(number);
            }
            place = self.earlier[number as usize];
        }
        None
    }

    /// Puts the next node into its bucket.
    pub fn put(&mut self, number: usize, bucket: usize)
        requires room { number < length self.old.earlier.items }
        requires few { number < 2 ^ 31 }
        requires within { bucket < 2 * self.old.half }
        requires many { length self.old.latest.items ≡ 2 * self.old.half }
        ensures filed { (nodes : List Node) (node : Node) → number ≡ length nodes
            → bucket ≡ bucket_of self.old.half node
            → AreFiled nodes self.old
            → AreFiled (nodes ++ node ∷ []) self.new }
        ensures room { length self.new.earlier.items ≡ length self.old.earlier.items }
        ensures half { self.new.half ≡ self.old.half }
    {
        self.earlier[number] = self.latest[bucket];
        self.latest[bucket] = number as u32 + 1;
    }
}

// Three numbers mixed into one.
#[tactic(auto, unfolding(crate::specs::Buckets::mixed_of))]
fn mixed(low: u32, high: u32, kinds: u32) -> u32
    ensures { result ≡ mixed_of low high kinds }
{
    let mixed = (low as u64)
        .wrapping_mul(0x9e37_79b9_7f4a_7c15)
        .wrapping_add((high as u64).wrapping_mul(0xd1b5_4a32_d192_ed03))
        .wrapping_add((kinds as u64).wrapping_mul(0xaef1_7502_108e_f2d9));
    (mixed >> 32) as u32
}
