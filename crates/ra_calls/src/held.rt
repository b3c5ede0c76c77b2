ghost use Rattle.std.specs.Prelude.{◌≡◌, ◌⊎◌, ◌↔◌, ◌≤◌, ◌^◌};
ghost use Rattle.std.specs.Prelude.{true, All, replicate, length, map, IfOk, IfErr, OnOk, OnErr, option_map};
ghost use Rattle.ra_set.specs.Names.{IsNamed};
ghost use Rattle.ra_set.specs.Refusals.{Refuses};
ghost use Rattle.ra_set.specs.Spelled.{IsSpelled};
ghost use Rattle.ra_progress.specs.Layout.{length_of};
ghost use Rattle.ra_meaning.specs.Order.{shape_of};
ghost use Rattle.ra_goals.specs.Goals.{goal_of};
ghost use Rattle.ra_calls.specs.Answers.{IsLoaded};
ghost use Rattle.ra_calls.specs.Most.{IsWithinMost};

use crate::kept_slots::{keep_in, slots_of, take_from};
use crate::showing::presence_of;
use crate::told_event::ToldEvent;
use crate::told_item::ToldItem;
use ra_goals::{Goal, format_in, goals_of, named_in};
use ra_memory::Image;
use ra_progress::ProgressRefused;
use ra_runtime::{Course, Kept};
use ra_set::{SetRefused, parse_set};
use ra_text::OutOfMemory;
use ra_value_format::format_value;
use std::alloc::Global;
use std::marker::Model;

/// A course as a handle holds it. It is seen as the course.
#[derive(Drop)]
pub struct Held {
    course: Course,
    // the progress bytes of the set before its first frame, for a reset
    first: Vec<u8>,
    // what each item aims at
    goals: Vec<Goal>,
}

impl Model for Held {
    ghost use Rattle.ra_runtime.specs.Courses.{CourseSeen};

    ghost Value = { CourseSeen };

    ghost use Rattle.ra_calls.specs.Views.{held_seen, IsHeld};

    ghost view = { held_seen };

    ghost invariant = { IsHeld };
}

// The course of a set's text, and what its items aim at.
fn course_of(alloc: Global, text: &[u8], size: u32) -> Result<(Course, Vec<Goal>), SetRefused>
    requires { size ≤ 2 ^ 27 }
    ensures loaded { IfOk result (λ both. IsLoaded text.now size both.0) }
    ensures spelled { IfOk result (λ both. IsSpelled both.0.set) }
    ensures named { IfOk result (λ both. IsNamed both.0.set) }
    ensures goals { IfOk result (λ both. both.1.items ≡ map goal_of both.0.set.items) }
    ensures refused { IfErr result (λ why. why ≡ SetRefused.Memory ⊎ Refuses text.now why) }
{
    let set = parse_set(alloc, text)?;
    let goals = goals_of(alloc, &set.items)?;
    match Course::for_looks(alloc, set, size) {
        Ok(course) => Ok((course, goals)),
        Err(_) => Err(SetRefused::Memory),
    }
}

impl Held {
    ghost use Rattle.ra_runtime.specs.Courses.{TakesImage};
    ghost use Rattle.ra_calls.specs.Answers.{AreEventsOf, AreLinesOf, BeginsAgain, EarnsIds, IsSaveOf, RefusesProgress, TakesProgress};
    ghost use Rattle.ra_calls.specs.GameViews.{openings_of};
    ghost use Rattle.ra_calls.specs.Shows.{IsShownBy};
    ghost use Rattle.ra_calls.specs.Standing.{IsSlotOf};
    ghost use Rattle.ra_memory.specs.Image.{AreBytes};
    ghost use Rattle.ra_runtime.specs.Keeping.{Takes};
    ghost use Rattle.ra_calls.specs.ToldItems.{AreItemsOf, number_in};

    /// The course of a set's text over memories of `size` bytes.
    ///
    /// A text that is no set is refused for the first reason that comes; `Memory` tells that memory ran out.
    pub fn new(alloc: Global, text: &[u8], size: u32) -> Result<Held, SetRefused>
        requires { size ≤ 2 ^ 27 }
        ensures loaded { IfOk result (IsLoaded text.now size) }
        ensures refused { IfErr result (λ why. why ≡ SetRefused.Memory ⊎ Refuses text.now why) }
    {
        let (mut course, goals) = course_of(alloc, text, size)?;
        match Held::first_of(alloc, &mut course) {
            Ok(first) => Ok(Held {
                course,
                first,
                goals,
            }),
            Err(_) => {
                drop(course);
                Err(SetRefused::Memory)
            }
        }
    }

    // The progress bytes of a course, whose names are made, since each save has them. The progress of a set is never too
    // long.
    fn first_of(alloc: Global, course: &mut Course) -> Result<Vec<u8>, OutOfMemory>
        ensures same { course.new ≡ course.old }
        ensures short { length_of (shape_of course.old.set) ≤ 8388608 }
        ensures first { IfOk result (λ first. IsSaveOf course.old first.items) }
    {
        course.name();
        let _size = course.save_size();
        course.save(alloc)
    }

    /// How many bytes the memory has.
    pub fn size(&self) -> u32
        ensures { result ≡ self.now.size }
    {
        self.course.size()
    }

    /// Whether the count of frames is 0.
    pub fn is_unplayed(&self) -> bool
        ensures { result ≡ true ↔ self.now.kept.frames ≡ 0 }
    {
        self.course.frames() == 0
    }

    /// Takes one frame of an image of the size.
    pub fn follow<I: Image>(&mut self, image: &mut I)
        requires size { length (I.bytes image.old) ≡ self.old.size }
        requires are_bytes { AreBytes (I.bytes image.old) }
        ensures taken { TakesImage self.old self.new (I.bytes image.old) }
        ensures bytes { I.bytes image.new ≡ I.bytes image.old }
    {
        self.course.follow(image);
    }

    /// The events of the last frame.
    pub fn events(&self, alloc: Global) -> Result<Vec<ToldEvent>, OutOfMemory>
        ensures told { IfOk result (λ told. AreEventsOf self.now told.items) }
        ensures most { IfOk result (λ told. IsWithinMost (length told.items) self.now) }
    {
        let mut told = Vec::new(alloc);
        for event in self.course.events() {
            told.push(ToldEvent::of(event))?;
        }
        Ok(told)
    }

    /// The lines of the last frame.
    pub fn lines(&self, alloc: Global) -> Result<Vec<u8>, OutOfMemory>
        ensures { IfOk result (λ text. AreLinesOf self.now text.items) }
    {
        let mut text = Vec::new(alloc);
        self.course.tell_lines(&mut text)?;
        Ok(text)
    }

    /// How the items stand, in the order of the set.
    pub fn items(&self, alloc: Global) -> Result<Vec<ToldItem>, OutOfMemory>
        ensures { IfOk result (λ told. AreItemsOf self.now told.items) }
    {
        let mut told = Vec::new(alloc);
        let mut rest = self.goals.as_slice();
        let mut place = 0usize;
        while let Some((goal, more)) = rest.split_first() {
            told.push(ToldItem::of(goal, self.course.is_earned(place), self.course.item(place)))?;
            rest = more;
            place += 1;
        }
        Ok(told)
    }

    /// Adds the achievements of these ids to what is earned. Where memory runs out nothing changes.
    pub fn earn(&mut self, alloc: Global, ids: &[u32]) -> Result<(), OutOfMemory>
        ensures earned { OnOk result (EarnsIds ids.now self.old self.new) }
        ensures kept { OnErr result (self.new ≡ self.old) }
    {
        let named = named_in(alloc, &self.goals, ids)?;
        self.course.earn(&named);
        Ok(())
    }

    /// The number in the format of the leaderboard of an id; none where no leaderboard has it.
    pub fn number(
        &self,
        alloc: Global,
        id: u32,
        number: i32,
    ) -> Result<Option<Vec<u8>>, OutOfMemory>
        ensures { IfOk result (λ text. option_map (λ t. t.items) text ≡ number_in self.now id number) }
    {
        match format_in(&self.goals, id) {
            Some(format) => {
                let text = format_value(alloc, format, number)?;
                Ok(Some(text))
            }
            None => Ok(None),
        }
    }

    /// The presence text after the last frame.
    pub fn presence(&self, alloc: Global) -> Result<Vec<u8>, OutOfMemory>
        ensures { IfOk result (λ text. IsShownBy self.now text.items) }
    {
        presence_of(alloc, &self.course)
    }

    /// How many bytes the progress of the set has.
    pub fn save_size(&self) -> usize
        ensures { result ≡ length_of (shape_of self.now.set) }
    {
        self.first.len()
    }

    /// The progress bytes.
    pub fn save(&self, alloc: Global) -> Result<Vec<u8>, OutOfMemory>
        ensures saved { IfOk result (λ bytes. IsSaveOf self.now bytes.items) }
        ensures long { IfOk result (λ bytes. length bytes.items ≡ length_of (shape_of self.now.set)) }
    {
        self.course.save(alloc)
    }

    /// Takes up what progress bytes say.
    pub fn restore(&mut self, bytes: &[u8]) -> Result<(), ProgressRefused>
        ensures ok { OnOk result (TakesProgress bytes.now self.old self.new) }
        ensures err { IfErr result (λ why. RefusesProgress bytes.now why self.old self.new) }
        ensures size { self.new.size ≡ self.old.size }
    {
        self.course.restore(bytes)
    }

    /// Takes up the progress bytes before the first frame, which are never refused.
    pub fn reset(&mut self)
        ensures { BeginsAgain self.old self.new }
    {
        let _ = self.course.restore(self.first.as_slice());
    }

    /// This many kept states, each the present one.
    pub fn slots(&self, alloc: Global, count: u32) -> Result<Vec<Kept>, OutOfMemory>
        ensures present { IfOk result (λ slots. openings_of slots.items ≡ replicate count self.now.kept) }
        ensures of_set { IfOk result (λ slots. All (IsSlotOf self.now.set) slots.items) }
    {
        slots_of(alloc, &self.course, count)
    }

    /// Keeps the present state in the place of a kept one of this set.
    pub fn keep(&self, kept: &mut Kept)
        requires { IsSlotOf self.now.set kept.old }
        ensures opening { kept.new.opening ≡ self.now.kept }
        ensures of_set { IsSlotOf self.now.set kept.new }
    {
        keep_in(&self.course, kept);
    }

    /// Takes up a kept state of this set.
    pub fn take(&mut self, kept: &Kept)
        requires { IsSlotOf self.old.set kept.now }
        ensures { Takes self.old self.new kept.now.opening }
    {
        take_from(&mut self.course, kept);
    }
}
