ghost use Rattle.std.specs.Prelude.{◌≡◌, ◌≤◌, length};
ghost use Rattle.protocol.specs.Limits.{limits};

use protocol::{ArgumentType, LIMITS};

mod methods;

// The most types that a message may have.
const MOST: usize = LIMITS.arguments;

// The types of one message: the first `len` of `types`. An array with its length, since a signature can be copied and a vector of any kind can't.
#[derive(Clone, Copy)]
pub struct Signature {
    types: [ArgumentType; MOST],
    len: usize,
    ghost ok: { (len ≤ limits.arguments) × (length types ≡ limits.arguments) },
}
