use crate::greatest::greatest_of;
use crate::parts::step_value;
use ra_condition::{Part, ValueText};
use ra_group::Reads;
use ra_text::{OutOfMemory, read_words};
use std::alloc::Global;
use std::marker::Model;

/// What is kept of a value between frames, the hits of the conditions of all parts and a number for
/// each part: docs/DEFINITIONS.md, "Values over frames".
#[derive(Drop)]
pub struct Value {
    hits: Vec<u32>,
    kept: Vec<u32>,
}

impl Model for Value {
    ghost use Rattle.ra_value.specs.Steps.{ValueKept};

    ghost Value = { ValueKept };

    ghost view = { λ v. record { hits = v.hits.items; numbers = v.kept.items } };
}

impl Value {
    ghost use Rattle.std.specs.Prelude.{◌≡◌, ◌*◌, length, IfOk};
    ghost use Rattle.std.specs.Borrow.{sem};
    ghost use Rattle.ra_condition.specs.Contents.{value_contents, value_hits};
    ghost use Rattle.ra_text.specs.Words.{words_at};
    ghost use Rattle.ra_value.specs.Kept.{orders_of, pauses_of, cleared};
    ghost use Rattle.ra_value.specs.Lends.{LendsHits};
    ghost use Rattle.ra_value.specs.Steps.{no_value, signed_greatest, step};

    /// A value with all numbers 0.
    pub fn new(alloc: Global, text: &ValueText) -> Result<Self, OutOfMemory>
        ensures { IfOk result (λ value. value ≡ no_value (value_contents text.now)) }
    {
        let mut count: usize = 0;
        for part in &text.parts {
            if let Part::Conditions(group) = part {
                count = count
                    .checked_add(group.conditions.len())
                    .ok_or(OutOfMemory)?;
            }
        }
        Ok(Value {
            hits: vec![in alloc; 0; count]?,
            kept: vec![in alloc; 0; text.parts.len()]?,
        })
    }

    /// Steps the value by a frame, and gives its greatest number: docs/DEFINITIONS.md, "Values over
    /// frames".
    ///
    /// `orders`, `truths` and `lefts` run over the conditions of the condition parts, `orders` with
    /// the pass order of each part. `pauses` and `sums` have an entry for each part: how many of its
    /// conditions stand in pause chains, 0 for a legacy part, and its legacy sum, 0 for a condition part.
    pub fn step(
        &mut self,
        text: &ValueText,
        orders: &[u32],
        pauses: &[u32],
        truths: &[bool],
        lefts: &[u32],
        sums: &[u32],
    ) -> i32
        requires orders { orders.now ≡ orders_of (value_contents text.now) }
        requires pauses { pauses.now ≡ pauses_of (value_contents text.now) }
        requires truths { length truths.now ≡ value_hits (value_contents text.now) }
        requires lefts { length lefts.now ≡ value_hits (value_contents text.now) }
        requires sums { length sums.now ≡ length (value_contents text.now) }
        requires hits { length self.old.hits ≡ value_hits (value_contents text.now) }
        requires numbers { length self.old.numbers ≡ length (value_contents text.now) }

        ensures kept { self.new ≡ step (value_contents text.now) truths.now lefts.now sums.now self.old }
        ensures greatest { result ≡ signed_greatest self.new.numbers }

        // The counts stay.
        ensures hits { length self.new.hits ≡ length self.old.hits }
        ensures numbers { length self.new.numbers ≡ length self.old.numbers }
    {
        let reads = Reads {
            orders,
            pauses,
            truths,
            lefts,
        };
        step_value(text, &reads, sums, &mut self.hits, &mut self.kept);
        greatest_of(&self.kept)
    }

    /// Brings all hits and numbers to 0.
    pub fn reset(&mut self)
        ensures { self.new ≡ cleared self.old }
    {
        self.hits.fill(0);
        self.kept.fill(0);
    }

    /// The greatest kept number, compared as signed ones; 0 without parts.
    pub fn greatest(&self) -> i32
        ensures { result ≡ signed_greatest self.now.numbers }
    {
        greatest_of(&self.kept)
    }

    /// The hits of the conditions of all parts, in text order.
    pub fn hits(&self) -> &[u32]
        ensures { result.now ≡ self.now.hits }
    {
        &self.hits
    }

    /// The hits of the conditions of all parts, in text order, to be changed. The numbers of the parts
    /// stay.
    pub fn hits_mut(&mut self) -> &mut [u32]
        ensures* writes_back { sem 𝓛 (LendsHits self.entry result) }
        ensures hits { result.now ≡ self.old.hits }
    {
        self.hits.as_mut_slice()
    }

    /// The number of each part, in text order.
    pub fn kept(&self) -> &[u32]
        ensures { result.now ≡ self.now.numbers }
    {
        &self.kept
    }

    /// Takes back what a progress file keeps, four little-endian bytes for each condition and for
    /// each part: docs/DEFINITIONS.md, "Progress file".
    pub fn put_back(&mut self, hits: &[u8], kept: &[u8])
        requires hits { length hits.now ≡ 4 * length self.old.hits }
        requires kept { length kept.now ≡ 4 * length self.old.numbers }
        ensures { self.new ≡ record {
          hits = words_at hits.now 0 (length self.old.hits);
          numbers = words_at kept.now 0 (length self.old.numbers);
        } }
    {
        read_words(&mut self.hits, hits, 0);
        read_words(&mut self.kept, kept, 0);
    }
}
