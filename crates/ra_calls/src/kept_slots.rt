//! States of a course that are kept in slots.

ghost use Rattle.std.specs.Prelude.{◌≡◌, All, IfOk, replicate};
ghost use Rattle.ra_calls.specs.GameViews.{openings_of};
ghost use Rattle.ra_calls.specs.Standing.{HasStood, IsSlotOf};
ghost use Rattle.ra_meaning.specs.Order.{shape_of};
ghost use Rattle.ra_runtime.specs.Keeping.{IsKeptFor, Takes};

use ra_runtime::{Course, Kept};
use ra_text::OutOfMemory;
use std::alloc::Global;

/// This many kept states of a course, each the present one.
pub fn slots_of(alloc: Global, course: &Course, count: u32) -> Result<Vec<Kept>, OutOfMemory>
    requires { HasStood course.now.set course.now.kept }
    ensures present { IfOk result (λ slots. openings_of slots.items ≡ replicate count course.now.kept) }
    ensures of_set { IfOk result (λ slots. All (IsSlotOf course.now.set) slots.items) }
{
    let mut slots = Vec::new(alloc);
    for _ in 0..count {
        let kept = Kept::new(alloc, course)?;
        slots.push(kept)?;
    }
    Ok(slots)
}

/// Keeps the present state of a course in the place of a kept one of its set.
pub fn keep_in(course: &Course, kept: &mut Kept)
    requires stood { HasStood course.now.set course.now.kept }
    requires of_set { IsSlotOf course.now.set kept.old }
    ensures opening { kept.new.opening ≡ course.now.kept }
    ensures of_set { IsSlotOf course.now.set kept.new }
{
    let _ = course.keep(kept);
}

/// Takes up a kept state of the set of a course.
pub fn take_from(course: &mut Course, kept: &Kept)
    requires { IsKeptFor (shape_of course.old.set) kept.now }
    ensures { Takes course.old course.new kept.now.opening }
{
    let _ = course.take(kept);
}
