ghost use Rattle.std.specs.Prelude.{◌≡◌, ◌==◌, ◌<◌, ◌≤◌, ◌^◌, [], length, slice_get, Some, IfOk, OnErr};

use crate::buckets::Buckets;
use crate::node::Node;
use ra_text::OutOfMemory;
use std::alloc::Global;
use std::marker::Model;

// How many constants are small.
const SMALL: usize = 256;

/// Nodes that each name earlier ones, and none of them twice:
/// docs/DEFINITIONS.md, "Trees, cells and tracked masks".
#[derive(Drop)]
pub struct Pool {
    nodes: Vec<Node>,
    buckets: Buckets,
    // The place of each small constant: its number and one, or 0 where none is known.
    constants: Vec<u32>,
}

impl Model for Pool {
    ghost use Rattle.std.specs.Prelude.{List, ◌≤◌, ◌^◌, length};
    ghost use Rattle.ra_indirect.specs.declared.node.Node.{Node};
    ghost use Rattle.ra_indirect.specs.Interned.{IsPool, HaveConstants};
    ghost use Rattle.ra_indirect.specs.Buckets.{AreFiled};

    ghost Value = { List Node };

    ghost view = { λ p. p.nodes.items };

    ghost invariant = { λ p. IsPool p.nodes.items × (length p.nodes.items ≤ 2 ^ 31)
        × HaveConstants p.nodes.items p.constants.items
        × AreFiled p.nodes.items p.buckets };
}

impl Pool {
    ghost use Rattle.ra_indirect.specs.Pools.{MayFollow};
    ghost use Rattle.ra_indirect.specs.Interned.{IsPool, Interns, IsAlone};
    ghost use Rattle.ra_indirect.specs.declared.node.Node.TheVariants.{Const};

    /// A pool without nodes. It takes no memory yet.
    pub fn new(alloc: Global) -> Pool
        ensures { result ≡ [] }
    {
        Pool {
            nodes: Vec::new(alloc),
            buckets: Buckets::none(alloc),
            constants: Vec::new(alloc),
        }
    }

    /// A pool without nodes, with memory for this many. Memory is the only refusal.
    pub fn with_room(alloc: Global, nodes: usize) -> Result<Pool, OutOfMemory>
        ensures { IfOk result (λ pool. pool ≡ []) }
    {
        let buckets = Buckets::with_room(alloc, nodes.min(1 << 31))?;
        let nodes = Vec::with_capacity(alloc, nodes)?;
        let constants = vec![in alloc; 0; SMALL]?;
        Ok(Pool {
            nodes,
            buckets,
            constants,
        })
    }

    /// How many nodes there are.
    pub fn len(&self) -> u32
        ensures len { result ≡ length self.now }
        ensures most { result ≤ 2 ^ 31 }
        ensures pool { IsPool self.now }
    {
        self.nodes.len() as u32
    }

    /// Whether there are no nodes.
    pub fn is_empty(&self) -> bool
        ensures { result ≡ (length self.now == 0) }
    {
        self.nodes.is_empty()
    }

    /// The node of a number below `len`. No other node spells the same tree or cell.
    pub fn node(&self, number: u32) -> Node
        requires { number < length self.now }
        ensures node { slice_get self.now number ≡ Some result }
        ensures alone { IsAlone self.now number }
    {
        self.nodes[number as usize]
    }

    /// The number of the node, which goes last where it is new.
    ///
    /// The node names nodes that are there, and such as it needs: a cell for a view, nodes with a
    /// value for all else. The pool has fewer than 2^31 nodes. `OutOfMemory` leaves it as it was.
    pub fn intern(&mut self, node: Node) -> Result<u32, OutOfMemory>
        requires follows { MayFollow self.old node }
        requires room { length self.old < 2 ^ 31 }
        ensures ok { IfOk result (Interns self.old self.new node) }
        ensures err { OnErr result (self.new ≡ self.old) }
        ensures pool { IsPool self.new }
    {
        match node {
            Node::Const(constant) => self.intern_constant(constant),
            _ => self.look_up(node),
        }
    }

    // The number of a constant, from the row where it has a place there.
    fn intern_constant(&mut self, constant: u32) -> Result<u32, OutOfMemory>
        requires room { length self.old < 2 ^ 31 }
        ensures ok { IfOk result (Interns self.old self.new (Const constant)) }
        ensures err { OnErr result (self.new ≡ self.old) }
        ensures pool { IsPool self.new }
    {
        if let Some(place) = self.constants.get(constant as usize).copied()
            && place != 0
        {
            return Ok(place - 1);
        }
        let number = self.look_up(Node::Const(constant))?;
        if let Some(place) = self.constants.get_mut(constant as usize) {
            *place = number + 1;
        }
        Ok(number)
    }

    // The number of a node, which is looked up in its bucket.
    fn look_up(&mut self, node: Node) -> Result<u32, OutOfMemory>
        requires follows { MayFollow self.old node }
        requires room { length self.old < 2 ^ 31 }
        ensures ok { IfOk result (Interns self.old self.new node) }
        ensures err { OnErr result (self.new ≡ self.old) }
        ensures pool { IsPool self.new }
    {
        self.buckets.make_room(&self.nodes)?;
        let bucket = self.buckets.bucket(node);
        match self.buckets.find(&self.nodes, node, bucket) {
            Some(number) => Ok(number),
            None => {
                let number = self.nodes.len();
                self.nodes.push(node)?;
                self.buckets.put(number, bucket);
                Ok(number as u32)
            }
        }
    }

    /// The nodes, in order, of a pool that is given up.
    pub fn into_nodes(self) -> Vec<Node>
        ensures nodes { result.items ≡ self }
        ensures pool { IsPool self }
    {
        self.nodes
    }
}
