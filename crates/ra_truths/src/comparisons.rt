ghost use Rattle.std.specs.Prelude.{◌≡◌, ◌<◌, ◌≤◌, ◌^◌, ◌==◌, ◌++◌, [], ◌∷◌, length, slice_get, Some, IfOk, IfSome, IfNone, OnOk, OnErr};
ghost use Rattle.std.specs.List.{Contains};

use crate::comparison::Comparison;
use indexmap::IndexMap;
use ra_text::OutOfMemory;
use std::alloc::Global;
use std::marker::Model;

/// Distinct comparisons, each with a number of its own, counted from 0:
/// docs/INTERNALS.md, "Truths of comparisons".
#[derive(Drop)]
pub struct Comparisons {
    list: Vec<Comparison>,
    // For each node from 0 on one more than the number of a comparison that has it on the left, or 0.
    firsts: Vec<u32>,
    // The numbers of the other ones.
    others: IndexMap<Comparison, u32>,
}

impl Model for Comparisons {
    ghost use Rattle.std.specs.Prelude.{List, ◌≤◌, ◌^◌, length};
    ghost use Rattle.indexmap.specs.IndexMap.{get};
    ghost use Rattle.ra_truths.specs.declared.comparison.Comparison.{Comparison};
    ghost use Rattle.ra_truths.specs.contracts.comparison.ComparisonPartialEq.TheImpl.{ghosts};
    ghost use Rattle.ra_truths.specs.Comparisons.{AreDistinct};
    ghost use Rattle.ra_truths.specs.Found.{AreFound};

    ghost Value = { List Comparison };

    ghost view = { λ c. c.list.items };

    ghost invariant = { λ c. record {
      distinct : AreDistinct c.list.items;
      few : length c.list.items ≤ 2 ^ 30;
      found : AreFound c.list.items c.firsts.items (get ghosts.eq c.others);
    } };
}

impl Comparisons {
    ghost use Rattle.ra_indirect.specs.Interned.{Interns};
    ghost use Rattle.ra_truths.specs.Comparisons.{AreDistinct};

    /// No comparisons. It takes no memory yet.
    pub fn new(alloc: Global) -> Comparisons
        ensures { result ≡ [] }
    {
        Comparisons {
            list: Vec::new(alloc),
            firsts: Vec::new(alloc),
            others: IndexMap::new(alloc),
        }
    }

    /// No comparisons, with memory for those of this many nodes. Memory is the only refusal.
    pub fn with_room(alloc: Global, nodes: usize) -> Result<Comparisons, OutOfMemory>
        ensures { IfOk result (λ comparisons. comparisons ≡ []) }
    {
        let list = Vec::with_capacity(alloc, nodes)?;
        let firsts = vec![in alloc; 0; nodes]?;
        Ok(Comparisons {
            list,
            firsts,
            others: IndexMap::new(alloc),
        })
    }

    /// How many comparisons there are.
    pub fn len(&self) -> u32
        ensures len { result ≡ length self.now }
        ensures most { result ≤ 2 ^ 30 }
        ensures distinct { AreDistinct self.now }
    {
        self.list.len() as u32
    }

    /// Whether there are no comparisons.
    pub fn is_empty(&self) -> bool
        ensures { result ≡ (length self.now == 0) }
    {
        self.list.is_empty()
    }

    /// The comparison of a number below `len`.
    pub fn comparison(&self, number: u32) -> Comparison
        requires { number < length self.now }
        ensures { slice_get self.now number ≡ Some result }
    {
        self.list[number as usize]
    }

    /// The number of the comparison, which goes last where it is new. Equal comparisons have equal numbers.
    ///
    /// There are fewer than 2^30 comparisons. Memory is the only refusal, and `OutOfMemory` leaves them as
    /// they were.
    pub fn intern(&mut self, comparison: Comparison) -> Result<u32, OutOfMemory>
        requires room { length self.old < 2 ^ 30 }
        ensures ok { IfOk result (Interns self.old self.new comparison) }
        ensures err { OnErr result (self.new ≡ self.old) }
        ensures distinct { AreDistinct self.new }
    {
        match self.find(comparison) {
            Some(number) => Ok(number),
            None => self.add(comparison),
        }
    }

    // The number of a comparison, if it is there.
    fn find(&self, comparison: Comparison) -> Option<u32>
        ensures found { IfSome result (λ number. slice_get self.now number ≡ Some comparison) }
        ensures absent { IfNone result (Contains self.now comparison → ⊥) }
        ensures distinct { AreDistinct self.now }
    {
        let left = comparison.left as usize;
        if left < self.firsts.len() {
            let first = self.firsts[left];
            if first == 0 {
                return None;
            }
            if self.list[first as usize - 1] == comparison {
                return Some(first - 1);
            }
        }
        self.others.get(&comparison).copied()
    }

    // Puts a comparison that is not there last.
    fn add(&mut self, comparison: Comparison) -> Result<u32, OutOfMemory>
        requires room { length self.old < 2 ^ 30 }
        requires absent { Contains self.old comparison → ⊥ }
        ensures last { IfOk result (λ number. number ≡ length self.old) }
        ensures grown { OnOk result (self.new ≡ self.old ++ comparison ∷ []) }
        ensures err { OnErr result (self.new ≡ self.old) }
        ensures distinct { AreDistinct self.new }
    {
        let number = self.list.len() as u32;
        self.list.push(comparison)?;
        let left = comparison.left as usize;
        if left < self.firsts.len() && self.firsts[left] == 0 {
            self.firsts[left] = number + 1;
            return Ok(number);
        }
        match self.others.insert(comparison, number) {
            Ok(_) => Ok(number),
            Err(_) => {
                let _ = self.list.pop();
                Err(OutOfMemory)
            }
        }
    }

    /// The comparisons in the order of their numbers.
    pub fn into_list(self) -> Vec<Comparison>
        ensures list { result.items ≡ self }
        ensures most { length result.items ≤ 2 ^ 30 }
    {
        let Comparisons { list, .. } = self;
        list
    }
}
