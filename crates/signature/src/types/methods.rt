ghost use Rattle.std.specs.Prelude.{◌≡◌, [], ◌∷◌, ◌++◌, length, is_some, if◌then◌else◌, Some, nat_lt};
ghost use Rattle.std.specs.Option.{option_map};
ghost use Rattle.protocol.specs.Limits.{limits};
ghost use Rattle.signature.specs.Few.{at_most};
ghost use Rattle.signature.specs.View.{types_in};

use crate::types::{MOST, Signature};
use protocol::ArgumentType;

impl Signature {
    pub fn types(&self) -> &[ArgumentType]
        ensures { result.now ≡ types_in self.now }
    {
        &self.types[..self.len]
    }

    // A message with no arguments.
    pub(crate) fn empty() -> Signature
        ensures { types_in result ≡ [] }
    {
        Signature {
            types: [ArgumentType::Int; MOST],
            len: 0,
        }
    }

    // Adds a type at the end; None, and nothing is changed, where there is no room.
    pub(crate) fn push(&mut self, last: ArgumentType) -> Option<()>
        ensures room { is_some result ≡ nat_lt (length (types_in self.old)) limits.arguments }
        ensures after { types_in self.new ≡ (if is_some result then types_in self.old ++ last ∷ [] else types_in self.old) }
    {
        // A test, and no `get_mut(..)?`: behind that a proof does not know that the signature is whole.
        if self.len == MOST {
            return None;
        }
        self.types[self.len] = last;
        self.len += 1;
        Some(())
    }

    // These types, if they are few enough. No TryFrom: there is one way to fail, and callers answer None too.
    pub fn from_slice(list: &[ArgumentType]) -> Option<Signature>
        ensures { option_map types_in result ≡ at_most limits.arguments (Some list.now) }
    {
        let len = list.len();
        // A test here too: the proof of a copy behind `get_mut(..)?` needs names that are the checker's own.
        if len > MOST {
            return None;
        }
        let mut types = [ArgumentType::Int; MOST];
        types[..len].copy_from_slice(list);
        Some(Signature { types, len })
    }
}
