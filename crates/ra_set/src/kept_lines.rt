use crate::ids::Ids;
use crate::item::Item;
use crate::refused::SetRefused;
use ra_condition::Fault;
use std::alloc::Global;

/// The first line that repeats an id of its own letter.
#[derive(Clone, Copy)]
pub struct Repeat {
    /// The id.
    pub id: u32,
    /// The line, counted from 1.
    pub line: u32,
}

/// What is kept of the lines of a file, as far as they are read.
#[derive(Drop)]
pub struct KeptLines {
    items: Vec<Item>,
    ids: Ids,
    count: u32,
    repeat: Option<Repeat>,
}

impl KeptLines {
    ghost use Rattle.std.specs.Prelude.{◌≡◌, ◌+◌, ◌<◌, ◌^◌, ◌∷◌, [], ◌++◌, ℕ, IfErr, IfOk, List, None, Some, OnOk, if◌then◌else◌, map, option_map};
    ghost use Rattle.std.specs.List.{IsDistinct};
    ghost use Rattle.ra_set.specs.Accepted.{repeats};
    ghost use Rattle.ra_set.specs.Contents.{item_contents};
    ghost use Rattle.ra_set.specs.Grammar.{Line, items_of};
    ghost use Rattle.ra_set.specs.Kept.{Keeps, KeepsBefore, NotesId, earlier_repeat};
    ghost use Rattle.ra_set.specs.Refusals.{FirstRepeat};

    /// No line.
    pub fn none(alloc: Global) -> Self
        ensures kept { Keeps result [] }
        ensures count { result.count ≡ 0 }
    {
        KeptLines {
            items: Vec::new(alloc),
            ids: Ids::none(alloc),
            count: 0,
            repeat: None,
        }
    }

    /// Keeps one line more.
    pub fn add(&mut self, line: Option<Item>) -> Result<(), Fault>
        requires { self.old.count + 1 < 2 ^ 32 }
        ensures kept { OnOk result
            ((lines : List Line) → Keeps self.old lines → Keeps self.new (lines ++ option_map item_contents line ∷ [])) }
        ensures count { OnOk result (self.new.count ≡ self.old.count + 1) }
        ensures err { IfErr result (λ fault. fault ≡ Fault.Memory) }
    {
        self.count += 1;
        match line {
            Some(item) => self.add_item(item),
            None => Ok(()),
        }
    }

    // Keeps the item of the line that is counted last.
    fn add_item(&mut self, item: Item) -> Result<(), Fault>
        ensures kept { OnOk result
            ((lines : List Line) → KeepsBefore self.old lines → Keeps self.new (lines ++ Some (item_contents item) ∷ [])) }
        ensures count { OnOk result (self.new.count ≡ self.old.count) }
        ensures err { IfErr result (λ fault. fault ≡ Fault.Memory) }
    {
        self.note_id(&item)?;
        self.items.push(item)?;
        Ok(())
    }

    // Notes the id of the line that is counted last, and where it is the first that repeats one.
    fn note_id(&mut self, item: &Item) -> Result<(), Fault>
        ensures noted { OnOk result (NotesId self.old (item_contents item.now) self.new) }
        ensures err { IfErr result (λ fault. fault ≡ Fault.Memory) }
    {
        let is_new = self.ids.add(item)?;
        self.repeat = self.repeat_with(is_new, item.id());
        Ok(())
    }

    // The first line that repeats an id, where the last one that is counted has this id.
    fn repeat_with(&self, is_new: bool, id: u32) -> Option<Repeat>
        ensures { result ≡ earlier_repeat self.now.repeat (if is_new then None else Some (record { id = id; line = self.now.count })) }
    {
        if self.repeat.is_some() {
            self.repeat
        } else if is_new {
            None
        } else {
            Some(Repeat {
                id,
                line: self.count,
            })
        }
    }

    /// The items. `DuplicateId` where a line repeats an id of its own letter.
    pub fn distinct(self) -> Result<Vec<Item>, SetRefused>
        ensures ok { IfOk result
            (λ items. (lines : List Line) → Keeps self lines → (map item_contents items.items ≡ items_of lines) × IsDistinct repeats (items_of lines)) }
        ensures err { IfErr result (λ why. (lines : List Line) → Keeps self lines
            → (id : ℕ) × (number : ℕ) × (why ≡ SetRefused.DuplicateId id number) × FirstRepeat lines id number) }
    {
        match self.repeat {
            Some(repeat) => Err(SetRefused::DuplicateId {
                id: repeat.id,
                line: repeat.line,
            }),
            None => Ok(self.items),
        }
    }
}
