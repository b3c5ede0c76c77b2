//! What holds of all traces.

ghost use Rattle.std.specs.Prelude.{◌≡◌, ℕ, ◌-◌, ◌^◌, ◌≤◌, Bool, true, List, [], ◌∷◌, ◌++◌, length, replicate, All};
ghost use Rattle.ra_trace.specs.Entries.{Entry, Ended, trace_bytes, most_memory};
ghost use Rattle.ra_trace.specs.Cutting.{Reached, trace_of, trace_with};
ghost use Rattle.ra_trace.specs.Rules.{Fits, AllTakeFilled, whole_trace};
ghost use Rattle.ra_trace.specs.Workload.{made_entries, made_size, made_trace};

/// What is written is cut into the records again: docs/DEFINITIONS.md, "Trace file".
///
/// A law; no effect at run time. It holds for every size and all records within the rules, and nothing after the end
/// record is looked at.
pub fn written_records_are_cut()
    ensures all_filled { (size : ℕ) (entries : List Entry) (behind : List ℕ) → size ≤ most_memory → All (Fits size) entries → trace_with (replicate 16 true) (trace_bytes size (entries ++ Ended ∷ []) ++ behind) ≡ whole_trace size entries }
    ensures some_filled { (filled : List Bool) (size : ℕ) (entries : List Entry) (behind : List ℕ) → size ≤ most_memory → All (Fits size) entries → AllTakeFilled filled entries → trace_with filled (trace_bytes size (entries ++ Ended ∷ []) ++ behind) ≡ whole_trace size entries }
{}

/// The trace of a workload reaches its end record, restores filled slots only, and fits every limit from 2^19 bytes on:
/// docs/DEFINITIONS.md, "Workload".
///
/// A law; no effect at run time. It holds for every number.
pub fn made_traces_reach_their_end()
    ensures end { (number : ℕ) → trace_of (made_trace number) ≡ record { size = made_size; entries = made_entries number; stop = Reached (length (made_trace number) - 1) } }
    ensures short { (number : ℕ) → length (made_trace number) ≤ 2 ^ 19 }
{}
