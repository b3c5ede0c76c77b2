ghost use Rattle.std.specs.Prelude.{◌≡◌, ◌++◌, OnOk, string_bytes};
ghost use Rattle.serde_json.specs.View.{view};
ghost use Rattle.ra_patch.specs.Leaving.{line_of};

use crate::fields::id_of;
use crate::item_kind::ItemKind;
use crate::left::Left;
use crate::left_out::{LeftCause, LeftList, LeftOut};
use crate::patches::{items_or_none, script_of};
use crate::refused::PatchField;
use crate::scope::{Scope, is_wanted};
use crate::text::{write_achievement, write_board, write_presence};
use crate::verdict::{script_place, verdict};
use ra_text::OutOfMemory;
use serde_json::Value;
use std::alloc::{AllocError, Global};
use std::collections::BTreeSet;

/// What is left of the lists of a document, as far as they are read.
#[derive(Drop)]
pub struct Sifted {
    // The ids of the items of the list that stay.
    ids: BTreeSet<u32>,
    // How many items of the list are read.
    count: usize,
    text: String,
    left_out: Vec<LeftOut>,
}

impl Sifted {
    ghost use Rattle.std.specs.Prelude.{◌≤◌};
    ghost use Rattle.std.specs.Prelude.{◌≡◌, ◌+◌, ◌<◌, ◌^◌, ◌++◌, ◌∷◌, [], ℕ, false, List, None, Some, OnOk, length, map, string_bytes};
    ghost use Rattle.serde_json.specs.Data.{Data};
    ghost use Rattle.serde_json.specs.View.{view};
    ghost use Rattle.ra_patch.specs.Leaving as spec;
    ghost use Rattle.ra_patch.specs.Leaving.{script_row};
    ghost use Rattle.ra_patch.specs.Official.{wanted};
    ghost use Rattle.ra_patch.specs.Patches.{items_of, script_in};
    ghost use Rattle.ra_patch.specs.Sifting.{Puts, Sifts, SiftsScript, holds};

    /// Nothing read.
    pub fn new(alloc: Global) -> Self
        ensures text { string_bytes result.text ≡ [] }
        ensures left_out { result.left_out.items ≡ [] }
    {
        Sifted {
            ids: BTreeSet::new(alloc),
            count: 0,
            text: String::new(alloc),
            left_out: Vec::new(alloc),
        }
    }

    /// Reads a whole list: the items of a kind of each of these objects, as far as they are looked at.
    pub fn take_list(
        &mut self,
        alloc: Global,
        kind: ItemKind,
        scope: Scope,
        holders: &[Value],
    ) -> Result<(), OutOfMemory>
        requires { length (items_of kind (map view holders.now)) < 2 ^ 64 }
        ensures { OnOk result
            (Sifts kind self.old (wanted scope (items_of kind (map view holders.now))) self.new) }
    {
        self.restart(alloc);
        for holder in holders {
            self.take_items(alloc, kind, scope, items_or_none(kind, holder))?;
        }
        Ok(())
    }

    // Begins another list.
    fn restart(&mut self, alloc: Global)
        ensures ids { (id : ℕ) → holds self.new id ≡ false }
        ensures count { self.new.count ≡ 0 }
        ensures text { self.new.text ≡ self.old.text }
        ensures left_out { self.new.left_out ≡ self.old.left_out }
    {
        self.ids = BTreeSet::new(alloc);
        self.count = 0;
    }

    // Reads items after others of the list, as far as they are looked at.
    fn take_items(
        &mut self,
        alloc: Global,
        kind: ItemKind,
        scope: Scope,
        items: &[Value],
    ) -> Result<(), OutOfMemory>
        requires { self.old.count + length items.now < 2 ^ 64 }
        ensures { OnOk result ((start : Sifted) (before : List Data)
            → Sifts kind start before self.old
            → Sifts kind start (before ++ wanted scope (map view items.now)) self.new) }
    {
        for item in items {
            self.take_wanted(alloc, kind, scope, item)?;
        }
        Ok(())
    }

    // Reads one item more of the list where it is looked at.
    fn take_wanted(
        &mut self,
        alloc: Global,
        kind: ItemKind,
        scope: Scope,
        item: &Value,
    ) -> Result<(), OutOfMemory>
        requires { self.old.count + 1 < 2 ^ 64 }
        ensures sifts { OnOk result ((start : Sifted) (before : List Data)
            → Sifts kind start before self.old
            → Sifts kind start (before ++ wanted scope (view item.now ∷ [])) self.new) }
        ensures count { OnOk result (self.new.count ≤ self.old.count + 1) }
    {
        if is_wanted(scope, item) {
            self.take_item(alloc, kind, item)
        } else {
            Ok(())
        }
    }

    // Reads one item more of the list.
    fn take_item(&mut self, alloc: Global, kind: ItemKind, item: &Value) -> Result<(), OutOfMemory>
        requires { self.old.count + 1 < 2 ^ 64 }
        ensures sifts { OnOk result ((start : Sifted) (before : List Data)
            → Sifts kind start before self.old
            → Sifts kind start (before ++ view item.now ∷ []) self.new) }
        ensures count { OnOk result (self.new.count ≡ self.old.count + 1) }
    {
        let id = id_of(item).unwrap_or(0);
        let taken = self.ids.contains(&id);
        let cause = verdict(alloc, kind, taken, item)?;
        self.put(kind, id, item, cause)
    }

    // Keeps an item with this id, or leaves it out.
    fn put(
        &mut self,
        kind: ItemKind,
        id: u32,
        item: &Value,
        cause: Option<LeftCause>,
    ) -> Result<(), OutOfMemory>
        requires fits { self.old.count + 1 < 2 ^ 64 }
        requires id { id ≡ spec.id_of (view item.now) }
        ensures { OnOk result (Puts kind self.old (view item.now) cause self.new) }
    {
        match cause {
            Some(cause) => self.leave_out(kind, item, cause),
            None => self.keep(kind, id, item),
        }
    }

    // Leaves an item out.
    fn leave_out(
        &mut self,
        kind: ItemKind,
        item: &Value,
        cause: LeftCause,
    ) -> Result<(), OutOfMemory>
        requires { self.old.count + 1 < 2 ^ 64 }
        ensures { OnOk result (Puts kind self.old (view item.now) (Some cause) self.new) }
    {
        let index = self.count;
        self.left_out.push(LeftOut {
            list: kind.list(),
            index,
            id: id_of(item),
            cause,
        })?;
        self.count = index + 1;
        Ok(())
    }

    // Keeps an item with this id.
    fn keep(&mut self, kind: ItemKind, id: u32, item: &Value) -> Result<(), OutOfMemory>
        requires fits { self.old.count + 1 < 2 ^ 64 }
        requires id { id ≡ spec.id_of (view item.now) }
        ensures { OnOk result (Puts kind self.old (view item.now) None self.new) }
    {
        self.ids.insert(id)?;
        write_item(kind, &mut self.text, item)?;
        self.count += 1;
        Ok(())
    }

    /// Reads the presence string of a patch.
    pub fn take_script(&mut self, alloc: Global, patch: &Value) -> Result<(), OutOfMemory>
        ensures { OnOk result (SiftsScript (script_in (view patch.now)) self.old self.new) }
    {
        match script_of(patch) {
            Some(script) => self.take_text(alloc, script),
            None => self.leave_out_script(LeftCause::Field(PatchField::RichPresencePatch)),
        }
    }

    // Reads a presence string.
    fn take_text(&mut self, alloc: Global, script: &str) -> Result<(), OutOfMemory>
        ensures { OnOk result (SiftsScript (Some script.now) self.old self.new) }
    {
        match script_place(alloc, script)? {
            Some(at) => self.leave_out_script(LeftCause::Syntax { at }),
            None => Ok(write_presence(&mut self.text, script)?),
        }
    }

    // Leaves the presence string out.
    fn leave_out_script(&mut self, cause: LeftCause) -> Result<(), OutOfMemory>
        ensures text { OnOk result (self.new.text ≡ self.old.text) }
        ensures rows { OnOk result
            (self.new.left_out.items ≡ self.old.left_out.items ++ script_row (Some cause)) }
    {
        self.left_out.push(LeftOut {
            list: LeftList::Presence,
            index: 0,
            id: None,
            cause,
        })?;
        Ok(())
    }

    /// What is left.
    pub fn left(self) -> Left
        ensures text { result.text.items ≡ string_bytes self.text }
        ensures left_out { result.left_out ≡ self.left_out }
    {
        Left {
            text: self.text.into_bytes(),
            left_out: self.left_out,
        }
    }
}

// The line of an item, at the end of a text.
fn write_item(kind: ItemKind, text: &mut String, item: &Value) -> Result<(), AllocError>
    ensures { OnOk result
        (string_bytes text.new ≡ string_bytes text.old ++ line_of kind (view item.now)) }
{
    match kind {
        ItemKind::Achievement => write_achievement(text, item),
        ItemKind::Leaderboard => write_board(text, item),
    }
}
