ghost use Rattle.std.specs.Prelude.{◌≡◌, ◌≢◌, ℕ, ◌^◌, ◌<◌, ◌≤◌, ◌==◌, [], ◌∷◌, length, map, replicate, IfOk, None, Some, slice_set, slice_get, if◌then◌else◌};
ghost use Rattle.ra_links.specs.Rows.{IsOnce, row_at, holder_of, next_of, without};
ghost use Rattle.ra_links.specs.Fields.{none, noted_at};

use ra_text::OutOfMemory;
use std::alloc::Global;
use std::marker::Model;

/// No list, and no node.
const NONE: u32 = 4294967295;

/// Lists of nodes, each node at most once in all lists together: docs/INTERNALS.md, "Linked lists".
///
/// Only `new` takes memory.
#[derive(Drop)]
pub struct Links {
    firsts: Vec<u32>,
    holders: Vec<u32>,
    befores: Vec<u32>,
    afters: Vec<u32>,
}

impl Model for Links {
    ghost use Rattle.std.specs.Prelude.{length};
    ghost use Rattle.ra_links.specs.Rows.{Rows};
    ghost use Rattle.ra_links.specs.Fields.{rows_of, IsLinked};

    ghost Value = { Rows };

    ghost view = { λ s. record { lists = rows_of s.firsts.items s.afters.items; nodes = length s.afters.items } };

    ghost invariant = { λ s. IsLinked s.firsts.items s.holders.items s.befores.items s.afters.items };
}

impl Links {
    /// This many empty lists, and this many nodes that are on no list. Memory is the only refusal.
    pub fn new(alloc: Global, lists: u32, nodes: u32) -> Result<Links, OutOfMemory>
        requires few_lists { lists ≤ 2 ^ 31 }
        requires few_nodes { nodes ≤ 2 ^ 31 }
        ensures { IfOk result (λ links. links ≡ record { lists = replicate lists []; nodes = nodes }) }
    {
        let firsts = vec![in alloc; NONE; lists as usize]?;
        let holders = vec![in alloc; NONE; nodes as usize]?;
        let befores = vec![in alloc; NONE; nodes as usize]?;
        let afters = vec![in alloc; NONE; nodes as usize]?;
        Ok(Links {
            firsts,
            holders,
            befores,
            afters,
        })
    }

    /// The list that holds the node. None exactly where no list does.
    pub fn place_of(&self, node: u32) -> Option<u32>
        requires { node < self.now.nodes }
        ensures list { result ≡ holder_of self.now.lists node }
        ensures once { IsOnce self.now }
    {
        some(self.holders[node as usize])
    }

    /// The first node of a list. None exactly where the list is empty.
    ///
    /// It also tells that each node stands at most once, for whoever goes along the list.
    pub fn first(&self, list: u32) -> Option<u32>
        requires { list < length self.now.lists }
        ensures first { result ≡ slice_get (row_at self.now.lists list) 0 }
        ensures once { IsOnce self.now }
    {
        some(self.firsts[list as usize])
    }

    /// The node after this one on its list. None exactly where no list holds the node, or it is the last.
    pub fn next(&self, node: u32) -> Option<u32>
        requires { node < self.now.nodes }
        ensures { result ≡ next_of self.now.lists node }
    {
        if self.holders[node as usize] == NONE {
            None
        } else {
            some(self.afters[node as usize])
        }
    }

    /// Puts a node that is on no list in front of a list.
    pub fn link(&mut self, list: u32, node: u32)
        requires list { list < length self.old.lists }
        requires node { node < self.old.nodes }
        requires free { holder_of self.old.lists node ≡ None }
        ensures linked { self.new.lists ≡ slice_set self.old.lists list (node ∷ row_at self.old.lists list) }
        ensures nodes { self.new.nodes ≡ self.old.nodes }
    {
        let first = self.firsts[list as usize];
        self.holders[node as usize] = list;
        self.befores[node as usize] = NONE;
        self.afters[node as usize] = first;
        note(&mut self.befores, first, node);
        self.firsts[list as usize] = node;
    }

    /// Takes a node out of its list; the order of the rest stays. A node on no list changes nothing.
    pub fn unlink(&mut self, node: u32)
        requires { node < self.old.nodes }
        ensures unlinked { self.new.lists ≡ map (without node) self.old.lists }
        ensures nodes { self.new.nodes ≡ self.old.nodes }
    {
        let list = self.holders[node as usize];
        if list == NONE {
            return;
        }
        let before = self.befores[node as usize];
        let after = self.afters[node as usize];
        note_first(&mut self.firsts, list, before, after);
        note(&mut self.afters, before, after);
        note(&mut self.befores, after, before);
        self.holders[node as usize] = NONE;
    }
}

/// Notes a number at a node, unless that is none.
fn note(numbers: &mut [u32], node: u32, number: u32)
    requires { node ≢ none → node < length numbers.old }
    ensures { numbers.new ≡ noted_at numbers.old node number }
{
    if node != NONE {
        numbers[node as usize] = number;
    }
}

/// Notes the new first node of a list where no node stood before the one taken out.
fn note_first(firsts: &mut [u32], list: u32, before: u32, after: u32)
    requires { list < length firsts.old }
    ensures { firsts.new ≡ (if before == none then slice_set firsts.old list after else firsts.old) }
{
    if before == NONE {
        firsts[list as usize] = after;
    }
}

/// The number, unless it stands for none.
fn some(number: u32) -> Option<u32>
    ensures { result ≡ (if number == none then None else Some number) }
{
    if number == NONE { None } else { Some(number) }
}
