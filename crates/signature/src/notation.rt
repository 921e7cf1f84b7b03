ghost use Rattle.std.specs.Prelude.{◌≡◌, List, Some, Option};
ghost use Rattle.std.specs.Option.{option_map};
ghost use Rattle.protocol.specs.Limits.{limits};
ghost use Rattle.protocol.specs.declared.argument.ArgumentType.{ArgumentType};
ghost use Rattle.signature.specs.Few.{at_most};
ghost use Rattle.signature.specs.View.{types_in};

use crate::types::Signature;
use protocol::ArgumentType;

// What the body of a source is made of: a part of it means a list of types, or none.
pub trait Notation: Copy {
    // the types that a part of a body is read as, however many, or none where it is no notation
    ghost meaning: { List Self → Option (List ArgumentType) };

    fn read(part: &[Self]) -> Option<Signature>
        ensures { option_map types_in result ≡ at_most limits.arguments (meaning part.now) };
}

// A list of types means itself.
impl Notation for ArgumentType {
    ghost meaning = { λ part. Some part };

    fn read(part: &[ArgumentType]) -> Option<Signature> {
        Signature::from_slice(part)
    }
}
