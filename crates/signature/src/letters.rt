ghost use Rattle.std.specs.Prelude.{◌≡◌, false};
ghost use Rattle.std.specs.Option.{option_map};
ghost use Rattle.protocol.specs.Limits.{limits};
ghost use Rattle.signature.specs.Few.{at_most};
ghost use Rattle.signature.specs.Letters.{step_of, past_digits, types_from, letters_mean};
ghost use Rattle.signature.specs.View.{types_in};

use crate::notation::Notation;
use crate::types::Signature;
use protocol::{AllowNull, ArgumentType};

// What one letter does: it allows null for the next, or it is a type. No Option: both go on, and None is for a letter that may not stand.
#[derive(Clone, Copy, Debug, PartialEq, Eq)]
pub(crate) enum Step {
    Mark,
    Put(ArgumentType),
}

// `marked` says that a question mark stands right before the letter; None where the letter may not stand there. Its cases are letters, as the rules write them.
fn step_at(marked: bool, letter: char) -> Option<Step>
    ensures { result ≡ step_of marked letter }
{
    let kind = match (marked, letter) {
        (false, '?') => return Some(Step::Mark),
        (false, 'i') => ArgumentType::Int,
        (false, 'u') => ArgumentType::Uint,
        (false, 'f') => ArgumentType::Fixed,
        (false, 's') => ArgumentType::Str(AllowNull::No),
        (true, 's') => ArgumentType::Str(AllowNull::Yes),
        (false, 'o') => ArgumentType::Object(AllowNull::No),
        (true, 'o') => ArgumentType::Object(AllowNull::Yes),
        (false, 'n') => ArgumentType::NewId,
        (false, 'a') => ArgumentType::Array,
        (false, 'h') => ArgumentType::Fd,
        _ => return None,
    };
    Some(Step::Put(kind))
}

// libwayland puts the version in front, as digits.
fn past_digits(letters: &[u8]) -> &[u8]
    ensures { result.now ≡ past_digits letters.now }
{
    let mut rest = letters;
    while let [b'0'..=b'9', tail @ ..] = rest {
        rest = tail;
    }
    rest
}

// The types of letters that come after the digits, if they are few enough.
fn types_from(letters: &[u8]) -> Option<Signature>
    ensures { option_map types_in result ≡ at_most limits.arguments (types_from false letters.now) }
{
    let mut read = Signature::empty();
    let mut marked = false;
    for letter in letters {
        match step_at(marked, char::from(*letter))? {
            Step::Mark => marked = true,
            Step::Put(last) => {
                read.push(last)?;
                marked = false;
            }
        }
    }
    (!marked).then_some(read)
}

// The letters that libwayland writes a signature with.
impl Notation for u8 {
    ghost meaning = { letters_mean };

    fn read(part: &[u8]) -> Option<Signature> {
        types_from(past_digits(part))
    }
}
