//! Nodes that change, and the readers that they make due.

ghost use Rattle.std.specs.Prelude.{◌≡◌, length, IfOk};

use ra_schedule::{NotedReaders, Readers};
use ra_text::OutOfMemory;
use std::alloc::Global;

// Three nodes and three readers. The first node is read by 1, the last one by 2 twice and by 0.
fn noted(alloc: Global) -> Result<Readers, OutOfMemory>
    ensures rows { IfOk result (λ readers. length readers.rows ≡ 3) }
    ensures due { IfOk result (λ readers. length readers.due ≡ 3) }
{
    let mut noted = NotedReaders::new(alloc, 3, 3)?;
    note_all(&mut noted)?;
    Readers::new(alloc, noted)
}

fn note_all(noted: &mut NotedReaders) -> Result<(), OutOfMemory>
    requires rows { length noted.old.rows ≡ 3 }
    requires due { length noted.old.due ≡ 3 }
    ensures rows { length noted.new.rows ≡ 3 }
    ensures due { length noted.new.due ≡ 3 }
{
    noted.note(0, 1)?;
    noted.note(2, 2)?;
    noted.note(2, 2)?;
    noted.note(2, 0)
}

// Which readers are due at first, while the first rests, and while all do.
fn due_at_rest(readers: &mut Readers) -> [Option<usize>; 3]
    requires { length readers.old.due ≡ 3 }
    ensures rows { readers.new.rows ≡ readers.old.rows }
    ensures due { length readers.new.due ≡ 3 }
{
    let first = readers.next_due(0);
    readers.put(0, false);
    let second = readers.next_due(0);
    readers.put(1, false);
    readers.put(2, false);
    [first, second, readers.next_due(0)]
}

// Which is due when a node changed that nobody reads, and which are when the last one did, counted from the second on.
fn due_of_changed(readers: &mut Readers) -> [Option<usize>; 4]
    requires { length readers.old.rows ≡ 3 }
    ensures { length readers.new.due ≡ length readers.old.due }
{
    readers.wake(0, &[1]);
    let none = readers.next_due(0);
    readers.wake(1, &[0, 1]);
    let last = readers.next_due(0);
    [none, last, readers.next_due(1), readers.next_due(3)]
}

// Which is due after the first when the first rests and then all are due.
fn due_of_all(readers: &mut Readers) -> Option<usize>
    requires { length readers.old.due ≡ 3 }
{
    readers.put(0, false);
    readers.wake_all();
    readers.next_due(1)
}

fn wakes_alone(readers: &mut Readers) -> bool
    requires rows { length readers.old.rows ≡ 3 }
    requires due { length readers.old.due ≡ 3 }
{
    due_at_rest(readers) == [Some(0), Some(1), None]
        && due_of_changed(readers) == [None, Some(0), Some(2), None]
        && due_of_all(readers) == Some(1)
}

#[test]
fn changed_nodes_wake_their_readers_alone(rt: HostRuntime) -> Result<(), OutOfMemory> {
    let mut readers = noted(rt.alloc())?;
    let alone = readers.nodes() == 3 && wakes_alone(&mut readers);
    assert!(rt; alone);
    Ok(())
}
