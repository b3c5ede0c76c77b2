ghost use Rattle.std.specs.Prelude.{◌≡◌, ◌⊎◌, ◌≤◌, ◌^◌, IfOk, IfErr};
ghost use Rattle.ra_set.specs.Refusals.{Refuses};
ghost use Rattle.ra_embed.specs.Embedding.{IsLoaded};

use ra_runtime::Runtime;
use ra_set::{SetRefused, parse_set};
use std::alloc::Global;

/// The runtime of a set's text over a memory of `size` bytes: docs/DEFINITIONS.md, "What a runtime
/// keeps".
///
/// All bytes of the memory are 0, and no frame came. A text that is no set is refused for the first
/// reason that comes; `Memory` reports running out of memory.
pub fn load(alloc: Global, text: &[u8], size: u32) -> Result<Runtime, SetRefused>
    requires { size ≤ 2 ^ 27 }
    ensures loaded { IfOk result (IsLoaded text.now size) }
    ensures refused { IfErr result (λ why. why ≡ SetRefused.Memory ⊎ Refuses text.now why) }
{
    let set = parse_set(alloc, text)?;
    match Runtime::new(alloc, set, size) {
        Ok(runtime) => Ok(runtime),
        Err(_) => Err(SetRefused::Memory),
    }
}
