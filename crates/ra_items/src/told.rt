ghost use Rattle.ra_items.specs.Rests.{events_at};
ghost use Rattle.std.specs.Prelude.{map, ◌≡◌, ℕ, false, [], ◌++◌, ◌&&◌, ◌||◌, not, IfNone};
ghost use Rattle.std.specs.Option.{option_to_list};
ghost use Rattle.ra_set.specs.Contents.{ItemContents, item_contents};
ghost use Rattle.ra_leaderboard.specs.States as states;
ghost use Rattle.ra_meaning.specs.Events.{event_if, is_started, same_number};
ghost use Rattle.ra_items.specs.RunEvents.{achievement_run_events, board_run_events, change_events, measured_event, run_events, told_events};

use crate::achievement_run::AchievementRun;
use crate::board_run::BoardRun;
use crate::item_run::ItemRun;
use ra_leaderboard::{BoardChange, BoardState};
use ra_meaning::Event;
use ra_set::Item;
use ra_trigger::{Change, State};
use ra_value_format::Format;

/// The events of an item at its last frame, in order: at most four, each until it is taken.
#[derive(Clone, Copy)]
pub(crate) struct Told {
    pub first: Option<Event>,
    pub second: Option<Event>,
    pub third: Option<Event>,
    pub fourth: Option<Event>,
}

impl Told {
    // No events.
    pub(crate) fn nothing() -> Told
        ensures { told_events result ≡ [] }
    {
        Told {
            first: None,
            second: None,
            third: None,
            fourth: None,
        }
    }

    // The events of the item at a place; none past the last one.
    pub(crate) fn at(items: &[Item], runs: &[ItemRun], place: usize) -> Told
        ensures { told_events result ≡ events_at (map item_contents items.now) runs.now place }
    {
        match (items.get(place), runs.get(place)) {
            (Some(item), Some(run)) => Told::of(item, run),
            _ => Told::nothing(),
        }
    }

    // The events of an item.
    pub(crate) fn of(item: &Item, run: &ItemRun) -> Told
        ensures { told_events result ≡ run_events (item_contents item.now) run.now }
    {
        match (item, run) {
            (Item::Achievement { id, .. }, ItemRun::Achievement(run)) => {
                Told::of_achievement(*id, run)
            }
            (Item::Leaderboard { id, format, .. }, ItemRun::Leaderboard(run)) => {
                Told::of_board(*id, *format, run)
            }
            _ => Told::nothing(),
        }
    }

    // The events of an achievement, which has none where it was earned before its last frame.
    fn of_achievement(id: u32, run: &AchievementRun) -> Told
        ensures { told_events result ≡ achievement_run_events id run.now }
    {
        if run.silent {
            Told::nothing()
        } else {
            Told::of_change(id, &run.change)
        }
    }

    // The events of an achievement by what its last frame did.
    fn of_change(id: u32, change: &Change) -> Told
        ensures { told_events result ≡ change_events id change.now }
    {
        let primed = matches!(change.before, State::Primed);
        let now_primed = matches!(change.after, State::Primed);
        let triggered = matches!(change.before, State::Triggered);
        let now_triggered = matches!(change.after, State::Triggered);
        Told {
            first: measured(id, change.measured),
            second: told_if(!primed && now_primed, Event::Primed { id }),
            third: told_if(primed && !now_primed, Event::Unprimed { id }),
            fourth: told_if(!triggered && now_triggered, Event::Unlock { id }),
        }
    }

    // The events of a board.
    fn of_board(id: u32, format: Format, run: &BoardRun) -> Told
        ensures { told_events result ≡ board_run_events id format run.now }
    {
        let (tracked, value) = (run.tracked(), run.value());
        let track = Event::Track {
            id,
            number: tracked,
            format,
        };
        let submit = Event::Submit {
            id,
            number: value,
            format,
        };
        Told {
            first: told_if(became_started(&run.change), Event::Start { id }),
            second: told_if(is_told(run, tracked), track),
            third: told_if(became_cancelled(&run.change), Event::Cancel { id }),
            fourth: told_if(became_submitted(&run.change), submit),
        }
    }

    // Takes the first event that is left.
    pub(crate) fn next(&mut self) -> Option<Event>
        ensures first { told_events self.old ≡ option_to_list result ++ told_events self.new }
        ensures none { IfNone result (told_events self.new ≡ []) }
    {
        if let Some(event) = self.first.take() {
            return Some(event);
        }
        if let Some(event) = self.second.take() {
            return Some(event);
        }
        if let Some(event) = self.third.take() {
            return Some(event);
        }
        self.fourth.take()
    }
}

// Whether an item may have events at its last frame: it has none where its state and its number stayed.
pub(crate) fn may_tell(run: &ItemRun) -> bool
    ensures { result ≡ false → (item : ItemContents) → run_events item run.now ≡ [] }
{
    match run {
        ItemRun::Achievement(run) => changes(&run.change),
        ItemRun::Leaderboard(run) => runs_or_changes(&run.change),
    }
}

// Whether the state or the measured number of an achievement is another one.
fn changes(change: &Change) -> bool
    ensures { result ≡ false → (id : ℕ) → change_events id change.now ≡ [] }
{
    change.measured.is_some() || change.before != change.after
}

// Whether a board runs, or its state is another one.
fn runs_or_changes(change: &BoardChange) -> bool
    ensures { result ≡ false → (id : ℕ) (format : Format) (run : BoardRun) → run.change ≡ change.now
        → board_run_events id format run ≡ [] }
{
    is_started(change) || change.before != change.after
}

// The event of a new measured number, if there is one.
fn measured(id: u32, measured: Option<u32>) -> Option<Event>
    ensures { option_to_list result ≡ measured_event id measured }
{
    match measured {
        Some(number) => Some(Event::Measured { id, number }),
        None => None,
    }
}

// An event, where it happened.
fn told_if(happened: bool, event: Event) -> Option<Event>
    ensures { option_to_list result ≡ event_if happened event }
{
    if happened { Some(event) } else { None }
}

// The tracked number is told: the board runs, and just started or has another number.
fn is_told(run: &BoardRun, tracked: i32) -> bool
    ensures { result ≡ (is_started run.now.change.after
        && (states.became_started run.now.change.before run.now.change.after
        || not (same_number run.now.tracked_before tracked))) }
{
    let changed = run.tracked_before.cast_unsigned() != tracked.cast_unsigned();
    is_started(&run.change) && (became_started(&run.change) || changed)
}

// The board's state became started at the frame, and so on.
fn became_started(change: &BoardChange) -> bool
    ensures { result ≡ states.became_started change.now.before change.now.after }
{
    matches!(change.before, BoardState::Active) && is_started(change)
}

fn became_cancelled(change: &BoardChange) -> bool
    ensures { result ≡ states.became_cancelled change.now.before change.now.after }
{
    matches!(change.before, BoardState::Started) && matches!(change.after, BoardState::Cancelled)
}

fn became_submitted(change: &BoardChange) -> bool
    ensures { result ≡ states.became_submitted change.now.before change.now.after }
{
    matches!(change.before, BoardState::Active | BoardState::Started)
        && matches!(change.after, BoardState::Submitted)
}

// The board runs after the frame.
fn is_started(change: &BoardChange) -> bool
    ensures { result ≡ is_started change.now.after }
{
    matches!(change.after, BoardState::Started)
}
