ghost use Rattle.std.specs.Prelude.{◌≡◌, ℕ, List, Option};
ghost use Rattle.std.specs.Option.{option_map};
ghost use Rattle.protocol.specs.Limits.{limits};
ghost use Rattle.protocol.specs.declared.argument.ArgumentType.{ArgumentType};
ghost use Rattle.signature.specs.Few.{Few};
ghost use Rattle.signature.specs.View.{types_in};

use crate::types::Signature;

// Knows the types of the arguments of each message, by its sender and opcode.
pub trait SignatureSource {
    // the types of a message from this sender with this opcode, where it has a signature: the same whenever asked
    ghost types: { Self → ℕ → ℕ → Option (List ArgumentType) };

    // they are never more than a message may have
    ghost few: { (source : Self) (sender opcode : ℕ) → Few limits.arguments (types source sender opcode) };

    // Sender and opcode are two numbers, as in a header: so callers of every source have them.
    fn signature(&self, sender: u32, opcode: u16) -> Option<Signature>
        ensures { option_map types_in result ≡ types self.now sender opcode };
}
