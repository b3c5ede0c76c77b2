ghost use Rattle.std.specs.Prelude.{◌≡◌, ◌+◌, ◌*◌, ◌<◌, ◌≤◌, ◌^◌, ◌==◌, ◌||◌, not, ℕ, true, false, length, replicate, slice_index, slice_index_or, slice_set, IfOk, IfSome, None, count_by};
ghost use Rattle.ra_memory.specs.Image.{raw, IsReadWidth};
ghost use Rattle.ra_operand.specs.Views.{mask_of, view_of};
ghost use Rattle.ra_indirect.specs.declared.node.Node.TheVariants.{View};
ghost use Rattle.ra_indirect.specs.Pools.{node_at};
ghost use Rattle.ra_memref.specs.Marks.{read_of, reads_of};
ghost use Rattle.ra_memref.specs.Pass.{prior_after, looked_in, priors_after, after_node, reads_at, IsWithin, IsAgreedIn, IsAgreedAt, IsAgreed, IsSizedFor, TakesFrame, earlier_at, value_at};
ghost use Rattle.ra_memref.specs.Flags.{NoneSet, IsFirstSet};
ghost use Rattle.ra_memref.specs.Changes.{AreNoted};
ghost use Rattle.ra_memref.specs.Due.{earlier_by, AreIdle};
ghost use Rattle.ra_memref.specs.Plans.{AreSettled, IsNodePlan};
ghost use Rattle.ra_memref.specs.Watches.{MarksWatchers, MarksOthers};
ghost use Rattle.ra_text.specs.Words.{words_at};

use crate::cell_view::CellView;
use crate::changes::Changes;
use crate::flags::{Flags, set_all};
use crate::late_watches::LateWatches;
use crate::node_plan::NodePlan;
use ra_indirect::Node;
use ra_memory::Image;
use ra_operand::{Kind, Size, compute, mask, transform, view};
use ra_text::{OutOfMemory, read_words};
use std::alloc::Global;
use std::marker::Model;

/// Which share of the nodes, and of the cells that change, a frame takes up one by one.
const SHARE: usize = 2;

/// What a node that was taken asks of the pass, and whether its number is another than before.
#[derive(Clone, Copy)]
struct Outcome {
    changed: bool,
    seen: bool,
    again: bool,
}

/// The numbers of a table: for each cell its own and the one of the frame before, with its watches, for
/// each tracked mask its prior, and for each node of the pool its value.
#[derive(Drop)]
pub struct Numbers {
    cells: Vec<u32>,
    earlier: Vec<u32>,
    watches: LateWatches,
    priors: Vec<u32>,
    values: Vec<u32>,
}

impl Model for Numbers {
    ghost use Rattle.ra_memref.specs.Numbers.{NumbersSeen};

    ghost Value = { NumbersSeen };

    ghost use Rattle.ra_memref.specs.NumbersView.{numbers_seen, AreNumbers};

    ghost view = { numbers_seen };

    ghost invariant = { AreNumbers };
}

impl Numbers {
    /// Zeros for this many tracked masks and nodes, and for the cells of these watches.
    pub fn new(
        alloc: Global,
        watches: LateWatches,
        priors: usize,
        values: usize,
    ) -> Result<Numbers, OutOfMemory>
        requires { length watches.marked ≡ length watches.places }
        ensures { IfOk result (λ n. n ≡ record {
          cells = replicate (length watches.places) 0;
          earlier = replicate (length watches.places) 0;
          watches = watches;
          priors = replicate priors 0;
          values = replicate values 0;
        }) }
    {
        let cells = vec![in alloc; 0; watches.len()]?;
        let earlier = vec![in alloc; 0; watches.len()]?;
        let priors = vec![in alloc; 0; priors]?;
        let values = vec![in alloc; 0; values]?;
        Ok(Numbers {
            cells,
            earlier,
            watches,
            priors,
            values,
        })
    }

    /// The number of each cell.
    pub fn cells(&self) -> &[u32]
        ensures { result.now ≡ self.now.cells }
    {
        &self.cells
    }

    /// The prior of each tracked mask.
    pub fn priors(&self) -> &[u32]
        ensures { result.now ≡ self.now.priors }
    {
        &self.priors
    }

    /// The number of a node.
    pub fn value(&self, node: usize) -> u32
        requires { node < length self.now.values }
        ensures { result ≡ slice_index self.now.values node }
    {
        self.values[node]
    }

    /// Marks the cells that watch a page of one of `count` bytes from the address `at` on.
    pub fn tell(&mut self, at: u32, count: u32)
        requires within { at + count ≤ self.old.watches.size }
        requires small { self.old.watches.size ≤ 2 ^ 27 }
        ensures marks { MarksWatchers self.old.watches self.new.watches at count }
        ensures rest { self.new ≡ record self.old { watches = self.new.watches } }
    {
        self.watches.tell(at, count);
    }

    /// Marks each cell that is not marked and has another number in the image, at its place, than it has.
    ///
    /// It reads each cell that is not marked, once, and no other.
    pub fn look<I: Image>(&mut self, image: &mut I)
        ensures marks { MarksOthers self.old.watches self.new.watches (I.bytes image.old) self.old.cells }
        ensures rest { self.new ≡ record self.old { watches = self.new.watches } }
        ensures reads { I.reads image.new ≡ I.reads image.old + count_by not self.old.watches.marked }
        ensures bytes { I.bytes image.new ≡ I.bytes image.old }
        ensures counter { I.counter image.new ≡ I.counter image.old }
    {
        self.watches.look(image, &self.cells);
    }

    /// Takes the numbers of the cells and then the priors from little-endian words, and marks all cells.
    pub fn put_back(&mut self, bytes: &[u8])
        requires { length bytes.now ≡ 4 * (length self.old.cells + length self.old.priors) }
        ensures { self.new ≡ record self.old {
          cells = words_at bytes.now 0 (length self.old.cells);
          priors = words_at bytes.now (4 * length self.old.cells) (length self.old.priors);
          watches = record self.old.watches { marked = replicate (length self.old.cells) true };
        } }
    {
        let priors_at = 4 * self.cells.len() as u64;
        read_words(&mut self.cells, bytes, 0);
        read_words(&mut self.priors, bytes, priors_at);
        self.watches.mark_all();
    }

    /// Sets the number of a cell, and marks all cells.
    pub fn put_cell(&mut self, cell: usize, number: u32)
        requires { cell < length self.old.cells }
        ensures { self.new ≡ record self.old {
          cells = slice_set self.old.cells cell number;
          watches = record self.old.watches { marked = replicate (length self.old.cells) true };
        } }
    {
        self.cells[cell] = number;
        self.watches.mark_all();
    }

    /// Sets the prior of a tracked mask, and marks all cells.
    pub fn put_prior(&mut self, prior: usize, number: u32)
        requires { prior < length self.old.priors }
        ensures { self.new ≡ record self.old {
          priors = slice_set self.old.priors prior number;
          watches = record self.old.watches { marked = replicate (length self.old.cells) true };
        } }
    {
        self.priors[prior] = number;
        self.watches.mark_all();
    }

    /// More than half of the cells were marked by looks since this was asked last, or marked cells are more
    /// than a quarter of all nodes. No clause says what it answers.
    pub fn saw_many(&mut self) -> bool
        ensures { self.new ≡ self.old }
    {
        self.watches.saw_many(self.values.len() / 4)
    }

    /// The first marked cell from one on. None exactly where none is.
    pub fn next_marked(&mut self, from: usize) -> Option<usize>
        ensures first { IfSome result (λ n. IsFirstSet self.old.watches.marked from n) }
        ensures none { result ≡ None → NoneSet self.old.watches.marked from (length self.old.watches.marked) }
        ensures same { self.new ≡ self.old }
    {
        self.watches.next_marked(from)
    }

    /// Takes up one frame. The nodes that are due are taken one by one, lowest first: a cell that is marked
    /// or moved is read, what names a node that changed is made due, and the node is listed. Once half of
    /// all have changed, or where all may be due, the others are taken in order, and those that changed are
    /// listed.
    ///
    /// It tells whether it took nodes in order. Then a node that is not due may be a cell that is to be due
    /// at the next frame.
    pub(crate) fn take_frame<I: Image>(
        &mut self,
        image: &mut I,
        plan: &NodePlan<'_>,
        due: &mut Flags,
        changes: &mut Changes,
    ) -> bool
        requires plan { IsNodePlan plan.now }
        requires sized { IsSizedFor plan.now.nodes.now self.old }
        requires agreed { IsAgreed self.old (I.bytes image.old) }
        requires dues { length due.old ≡ length plan.now.nodes.now }
        requires idle { plan.now.all ≡ false → AreIdle plan.now.nodes.now due.old self.old plan.now.slots.now }
        requires room { changes.old.room ≡ length plan.now.nodes.now }

        ensures taken { TakesFrame plan.now.nodes.now self.old self.new (I.bytes image.old) }
        ensures idle { result ≡ false → AreIdle plan.now.nodes.now due.new self.new plan.now.slots.now }
        ensures settled { result ≡ true → AreSettled plan.now due.new self.new }
        ensures dues { length due.new ≡ length due.old }
        ensures changed { AreNoted (length plan.now.nodes.now) (length plan.now.nodes.now) self.old.values self.new.values
            changes.new.listed }
        ensures room { changes.new.room ≡ changes.old.room }

        ensures bytes { I.bytes image.new ≡ I.bytes image.old }
        ensures counter { I.counter image.new ≡ I.counter image.old }
        ensures reads { I.reads image.new ≡ I.reads image.old + reads_of self.old.watches.marked self.old.watches.places self.new.watches.places }
    {
        let (nodes, slots, all) = (plan.nodes, plan.slots, plan.all);
        changes.clear();
        let mut left = nodes.len() / SHARE;
        let mut at = 0;
        while !all {
            let Some(number) = due.next_from(at) else {
                return false;
            };
            at = number;
            if left == 0 {
                due.clear_from(at);
                break;
            }
            let changed = self.take_due(image, plan, due, number);
            changes.note(number as u32, changed);
            at = number + 1;
            left -= usize::from(changed);
        }
        for number in at..nodes.len() {
            let changed = self.take_node::<I, true>(image, nodes[number], slots, number);
            changes.note(number as u32, changed);
        }
        true
    }

    /// Makes the cells due whose number is not the one of the frame before, unless these are more than
    /// half of all, or as many nodes changed, which it tells.
    pub(crate) fn note_cells(&self, changes: &Changes, due: &mut Flags, cell_nodes: &[u32]) -> bool
        requires cells { length cell_nodes.now ≡ length self.now.cells }
        requires few { length due.old < 2 ^ 30 }
        requires within { (k : ℕ) → k < length cell_nodes.now → slice_index cell_nodes.now k < length due.old }

        ensures long { length due.new ≡ length due.old }
        ensures kept { (n : ℕ) → slice_index_or due.new n true ≡ false → slice_index_or due.old n true ≡ false }
        ensures noted { result ≡ false → (cell : ℕ) → cell < length cell_nodes.now
            → slice_index_or due.new (slice_index cell_nodes.now cell) true ≡ false
            → earlier_at self.now cell ≡ slice_index self.now.cells cell }
    {
        if changes.are_more(self.values.len() / SHARE) {
            return true;
        }
        let mut room = cell_nodes.len() / SHARE;
        let (cells, earlier) = (&self.cells, &self.earlier);
        for cell in 0..cell_nodes.len() {
            if earlier[cell] != cells[cell] {
                if room == 0 {
                    return true;
                }
                room -= 1;
                due.put(cell_nodes[cell] as usize, true);
            }
        }
        false
    }

    // Takes up a node that is due, and tells whether its number changed. It is due at the next frame too
    // where it is a cell that changed, and those that name it are due where they see another number.
    fn take_due<I: Image>(
        &mut self,
        image: &mut I,
        plan: &NodePlan<'_>,
        due: &mut Flags,
        number: usize,
    ) -> bool
        requires plan { IsNodePlan plan.now }
        requires sized { IsSizedFor plan.now.nodes.now self.old }
        requires dues { length due.old ≡ length plan.now.nodes.now }
        requires idle { AreIdle plan.now.nodes.now due.old self.old plan.now.slots.now }
        requires here { number < length plan.now.nodes.now }
        requires agreed { IsAgreedAt (node_at plan.now.nodes.now number) self.old (I.bytes image.old)
            (slice_index plan.now.slots.now number) }

        ensures taken { self.new
            ≡ after_node (node_at plan.now.nodes.now number) self.old (I.bytes image.old) plan.now.slots.now number }
        ensures idle { AreIdle plan.now.nodes.now due.new self.new plan.now.slots.now }
        ensures dues { length due.new ≡ length due.old }
        ensures changed { result ≡ not (value_at self.old number == value_at self.new number) }

        ensures bytes { I.bytes image.new ≡ I.bytes image.old }
        ensures counter { I.counter image.new ≡ I.counter image.old }
        ensures reads { I.reads image.new ≡ I.reads image.old
            + reads_at (node_at plan.now.nodes.now number) self.old (slice_index plan.now.slots.now number) }
    {
        let (nodes, slots) = (plan.nodes, plan.slots);
        let outcome = self.follow(image, nodes[number], slots, number);
        due.put(number, outcome.again);
        if outcome.seen {
            set_all(due, plan.dependents.row(number));
        }
        outcome.changed
    }

    // Takes up a node, and tells whether its number changed, whether those that name it see another
    // number, of this frame or of the one before, and whether they would see another one at the next
    // frame too.
    fn follow<I: Image>(
        &mut self,
        image: &mut I,
        node: Node,
        slots: &[u32],
        number: usize,
    ) -> Outcome
        requires within { IsWithin node self.old slots.now number }
        requires here { number < length self.old.values }
        requires slots { length slots.now ≡ length self.old.values }
        requires agreed { IsAgreedAt node self.old (I.bytes image.old) (slice_index slots.now number) }

        ensures taken { self.new ≡ after_node node self.old (I.bytes image.old) slots.now number }
        ensures changed { result.changed ≡ not (value_at self.old number == value_at self.new number) }
        ensures seen { result.seen ≡ (not (value_at self.old number == value_at self.new number)
            || not (earlier_by node self.old slots.now number == earlier_by node self.new slots.now number)) }
        ensures again { result.again ≡ not (earlier_by node self.new slots.now number == value_at self.new number) }

        ensures bytes { I.bytes image.new ≡ I.bytes image.old }
        ensures counter { I.counter image.new ≡ I.counter image.old }
        ensures reads { I.reads image.new ≡ I.reads image.old + reads_at node self.old (slice_index slots.now number) }
    {
        let earlier = self.earlier_by(node, slots, number);
        let changed = self.take_node::<I, false>(image, node, slots, number);
        let earlier_now = self.earlier_by(node, slots, number);
        Outcome {
            changed,
            seen: changed || earlier != earlier_now,
            again: earlier_now != self.values[number],
        }
    }

    // The number that a cell had at the frame before; of another node its own.
    fn earlier_by(&self, node: Node, slots: &[u32], number: usize) -> u32
        requires within { IsWithin node self.now slots.now number }
        requires here { number < length self.now.values }
        requires slots { length slots.now ≡ length self.now.values }
        ensures { result ≡ earlier_by node self.now slots.now number }
    {
        match node {
            Node::Cell { .. } => self.earlier[slots[number] as usize],
            Node::Const(_) | Node::View { .. } | Node::Arith { .. } => self.values[number],
        }
    }

    // Takes up one node of the pass, and tells whether its number changed. `ALL` tells the two passes apart, so that
    // each has a function of its own, which the compiler puts in place.
    fn take_node<I: Image, const ALL: bool>(
        &mut self,
        image: &mut I,
        node: Node,
        slots: &[u32],
        number: usize,
    ) -> bool
        requires within { IsWithin node self.old slots.now number }
        requires here { number < length self.old.values }
        requires slots { length slots.now ≡ length self.old.values }
        requires agreed { IsAgreedAt node self.old (I.bytes image.old) (slice_index slots.now number) }

        ensures taken { self.new ≡ after_node node self.old (I.bytes image.old) slots.now number }
        ensures changed { result ≡ not (value_at self.old number == value_at self.new number) }

        ensures bytes { I.bytes image.new ≡ I.bytes image.old }
        ensures counter { I.counter image.new ≡ I.counter image.old }
        ensures reads { I.reads image.new ≡ I.reads image.old + reads_at node self.old (slice_index slots.now number) }
    {
        let before = self.values[number];
        let now = match node {
            Node::Const(n) => n,
            Node::Cell {
                pointer,
                offset,
                width,
            } => {
                let place = offset.wrapping_add(self.values[pointer as usize]);
                self.read_cell::<I, ALL>(image, slots[number] as usize, place, width)
            }
            Node::View { kind, size, cell } => {
                let cell = cell as usize;
                match kind {
                    Kind::Mem => view_in_place(size, self.values[cell]),
                    Kind::Delta | Kind::Prior | Kind::Bcd | Kind::Inverted => {
                        let looked = self.looked_at::<ALL>(
                            CellView { kind, size, cell },
                            slots,
                            number,
                        );
                        transform(kind, size, view(size, looked))
                    }
                }
            }
            Node::Arith { op, left, right } => {
                compute(op, self.values[left as usize], self.values[right as usize])
            }
        };
        self.values[number] = now;
        before != now
    }

    // Reads the cell of a slot at its place of this frame where it is marked or moved, and keeps the
    // number of the frame before.
    fn read_cell<I: Image, const ALL: bool>(
        &mut self,
        image: &mut I,
        slot: usize,
        place: u32,
        width: u8,
    ) -> u32
        requires slot { slot < length self.old.cells }
        requires agreed { IsAgreedIn self.old (I.bytes image.old) slot width }
        requires width { IsReadWidth width }

        ensures number { result ≡ raw width (I.bytes image.old) place }
        ensures taken { self.new ≡ record self.old {
          cells = slice_set self.old.cells slot result;
          earlier = slice_set self.old.earlier slot (slice_index self.old.cells slot);
          watches = record self.old.watches {
            places = slice_set self.old.watches.places slot place;
            marked = slice_set self.old.watches.marked slot false;
          };
        } }

        ensures bytes { I.bytes image.new ≡ I.bytes image.old }
        ensures counter { I.counter image.new ≡ I.counter image.old }
        ensures reads { I.reads image.new ≡ I.reads image.old
            + read_of (slice_index_or self.old.watches.marked slot true) (slice_index self.old.watches.places slot) place }
    {
        let before = self.cells[slot];
        self.earlier[slot] = before;
        if !self.watches.settle::<ALL>(slot, place) {
            return before;
        }
        let number = if width == 1 {
            image.read(place, 1)
        } else {
            image.read(place, width)
        };
        self.cells[slot] = number;
        number
    }

    // The number that a view of the cell looks at, which moves the prior where it is one.
    fn looked_at<const ALL: bool>(&mut self, seen: CellView, slots: &[u32], number: usize) -> u32
        requires within { IsWithin (View seen.kind seen.size seen.cell) self.old slots.now number }
        requires here { number < length slots.now }
        requires slots { length slots.now ≡ length self.old.values }

        ensures looked { result ≡ looked_in seen.kind self.old (mask_of seen.size) (slice_index slots.now number)
            (slice_index slots.now seen.cell) seen.cell }
        ensures taken { self.new
            ≡ record self.old { priors = priors_after (View seen.kind seen.size seen.cell) self.old slots.now number } }
    {
        let CellView { kind, size, cell } = seen;
        match kind {
            Kind::Delta => self.earlier[slots[cell] as usize],
            Kind::Prior => {
                let cell_slot = slots[cell] as usize;
                let slot = slots[number] as usize;
                let prior = moved_prior(
                    self.priors[slot],
                    self.earlier[cell_slot],
                    self.values[cell],
                    mask(size),
                );
                self.priors[slot] = prior;
                prior
            }
            Kind::Mem | Kind::Bcd | Kind::Inverted => self.values[cell],
        }
    }
}

// The view of a number, of which that of a whole byte is in place.
#[inline(always)]
fn view_in_place(size: Size, number: u32) -> u32
    ensures { result ≡ view_of size number }
{
    match size {
        Size::Byte => number & 0xFF,
        _ => view(size, number),
    }
}

// The prior after a frame, from the numbers of the frame before and of this one.
fn moved_prior(prior: u32, before: u32, now: u32, mask: u32) -> u32
    ensures { result ≡ prior_after mask before now prior }
{
    if now & mask == before & mask {
        prior
    } else {
        before & mask
    }
}
