//! A set that an emulator loads, and its first frames.

ghost use Rattle.std.specs.Prelude.{◌≡◌, length};

use crate::{load, play_frame};
use ra_runtime::{Event, Runtime};
use std::alloc::Global;

const SET: &str = "A 1 0xH0010=5
P
Display:
Lives @Number(0xH0010)
";

// Whether a frame after one write of this byte tells these events and this line.
fn tells(alloc: Global, runtime: &mut Runtime, byte: u8, events: &[Event], line: &str) -> bool
    requires { length runtime.old.image ≡ 64 }
    ensures { length runtime.new.image ≡ 64 }
{
    match play_frame(alloc, runtime, 0x10, &[byte]) {
        Ok(told) => told.events.as_slice() == events && told.presence.as_slice() == line.as_bytes(),
        Err(_) => false,
    }
}

// Whether the two frames tell what they have to.
fn plays(alloc: Global, runtime: &mut Runtime) -> bool
    requires { length runtime.old.image ≡ 64 }
{
    tells(alloc, runtime, 3, &[], "presence 1 Lives 3\n")
        && tells(
            alloc,
            runtime,
            5,
            &[Event::Unlock { id: 1 }],
            "presence 2 Lives 5\n",
        )
}

// Whether the set is loaded, and then plays so.
fn loads_and_plays(alloc: Global) -> bool {
    match load(alloc, SET.as_bytes(), 64) {
        Ok(mut runtime) => plays(alloc, &mut runtime),
        Err(_) => false,
    }
}

#[test]
fn a_frame_tells_its_events_and_the_presence(rt: HostRuntime) {
    assert!(rt; loads_and_plays(rt.alloc()));
}

// Whether a text is refused as no set at this place.
fn is_refused_at(alloc: Global, text: &[u8], at: usize) -> bool {
    match load(alloc, text, 64) {
        Ok(_) => false,
        Err(refused) => refused == ra_set::SetRefused::Syntax { at },
    }
}

#[test]
fn a_text_that_is_no_set_is_refused(rt: HostRuntime) {
    assert!(rt; is_refused_at(rt.alloc(), b"A 1 0xH10=5.3\n", 13));
}
