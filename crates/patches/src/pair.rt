// When two blocks are enough.
ghost use Rattle.std.specs.Prelude.{◌≡◌, ◌<◌};
ghost use Rattle.runs.specs.Gather.{quick};

use block::{Verdict, version};

// Whether data block j and parity are both readable with lead 0.
pub fn quick(block: &Verdict, parity: &Verdict, j: u32) -> bool
    requires { j < 7 }
    ensures { result ≡ quick block.now parity.now j }
{
    match (block, parity) {
        (Ok(b), Ok(p)) => version(b, 0) == version(p, j),
        _ => false,
    }
}
