//! The worked moves, with each answer that they give.

ghost use Rattle.std.specs.Prelude.{◌≡◌, length};

use ra_links::Links;
use ra_text::OutOfMemory;
use std::alloc::Global;

// A move, or a look with its answer.
#[derive(Clone, Copy)]
enum Move {
    // A node that is on no list goes before the others of a list.
    Link(u32, u32),
    // A node leaves its list.
    Unlink(u32),
    // The first node of a list.
    First(u32, Option<u32>),
    // The node after a node.
    Next(u32, Option<u32>),
    // The list of a node.
    Place(u32, Option<u32>),
}

// Lists and nodes, and how many there are.
#[derive(Drop)]
struct Few {
    links: Links,
    lists: u32,
    nodes: u32,
    ghost lists_too: { length links.lists ≡ lists },
    ghost nodes_too: { links.nodes ≡ nodes },
}

impl Few {
    fn new(alloc: Global, lists: u8, nodes: u8) -> Result<Few, OutOfMemory> {
        let (lists, nodes) = (u32::from(lists), u32::from(nodes));
        let links = Links::new(alloc, lists, nodes)?;
        Ok(Few {
            links,
            lists,
            nodes,
        })
    }

    // Whether the move can be made, or the look has its answer.
    fn answers(&mut self, step: Move) -> bool {
        match step {
            Move::Link(list, node) => self.link(list, node),
            Move::Unlink(node) => self.unlink(node),
            Move::First(list, first) => list < self.lists && self.links.first(list) == first,
            Move::Next(node, next) => node < self.nodes && self.links.next(node) == next,
            Move::Place(node, list) => node < self.nodes && self.links.place_of(node) == list,
        }
    }

    fn link(&mut self, list: u32, node: u32) -> bool {
        if list >= self.lists || node >= self.nodes {
            return false;
        }
        let free = self.links.place_of(node).is_none();
        if free {
            self.links.link(list, node);
        }
        free
    }

    fn unlink(&mut self, node: u32) -> bool {
        let fits = node < self.nodes;
        if fits {
            self.links.unlink(node);
        }
        fits
    }

    // The place of the first move that answers otherwise.
    fn other_move(&mut self, moves: &[Move]) -> Option<usize> {
        for (place, step) in moves.iter().enumerate() {
            if !self.answers(*step) {
                return Some(place);
            }
        }
        None
    }
}

// The same over this many lists and nodes.
fn other_of(
    alloc: Global,
    lists: u8,
    nodes: u8,
    moves: &[Move],
) -> Result<Option<usize>, OutOfMemory> {
    let mut few = Few::new(alloc, lists, nodes)?;
    Ok(few.other_move(moves))
}

const TWO_LISTS: &[Move] = &[
    Move::First(0, None),
    Move::Place(1, None),
    Move::Link(0, 1),
    Move::Place(2, None),
    Move::Link(0, 2),
    // the node comes first
    Move::First(0, Some(2)),
    Move::Next(2, Some(1)),
    Move::Next(1, None),
    Move::Unlink(1),
    Move::First(0, Some(2)),
    Move::Next(2, None),
    Move::Place(2, Some(0)),
    Move::Place(1, None),
];

#[test]
fn two_lists_and_three_nodes(rt: HostRuntime) -> Result<(), OutOfMemory> {
    assert_eq!(rt; other_of(rt.alloc(), 2, 3, TWO_LISTS)?, None);
    Ok(())
}

// 3, 2, 1, 0 and, on a list of its own, 4.
const THREE_LISTS: &[Move] = &[
    Move::Place(0, None),
    Move::Link(1, 0),
    Move::Place(1, None),
    Move::Link(1, 1),
    Move::Place(2, None),
    Move::Link(1, 2),
    Move::Place(3, None),
    Move::Link(1, 3),
    Move::Place(4, None),
    Move::Link(2, 4),
    // the middle
    Move::Unlink(2),
    Move::Next(3, Some(1)),
    // the front
    Move::Unlink(3),
    Move::First(1, Some(1)),
    // a lone node
    Move::Unlink(4),
    Move::First(2, None),
    // a node of no list
    Move::Unlink(4),
    Move::First(1, Some(1)),
    Move::Next(1, Some(0)),
    Move::Next(0, None),
];

#[test]
fn unlinks_the_middle_the_front_and_a_lone_node(rt: HostRuntime) -> Result<(), OutOfMemory> {
    assert_eq!(rt; other_of(rt.alloc(), 3, 5, THREE_LISTS)?, None);
    Ok(())
}
