ghost use Rattle.std.specs.Prelude.{◌≡◌, ◌+◌, ◌≤◌};
ghost use Rattle.quicklook.specs.Captions.{parts_of, word_parts, block_parts, covered};
ghost use Rattle.wire.specs.Records.{field_length};

use protocol::Argument;
use wire::padding_len;

// How many bytes of a field each caption covers, in the order in which they lie in a frame.
#[derive(Clone, Copy)]
pub(crate) struct Parts {
    // a number, or the length of what follows
    pub(crate) word: usize,
    pub(crate) bytes: usize,
    // a string's final 0
    pub(crate) end: usize,
    pub(crate) padding: usize,
}

// So many bytes of a number.
fn word_parts(word: usize) -> Parts
    ensures { result ≡ word_parts word }
{
    Parts {
        word,
        bytes: 0,
        end: 0,
        padding: 0,
    }
}

// A length, so many bytes, and `end` bytes 0 behind them.
fn block_parts(len: usize, end: usize) -> Parts
    requires { end ≤ 1 }
    ensures { result ≡ block_parts len end }
{
    Parts {
        word: 4,
        bytes: len,
        end,
        // only the rest counts, and with it the sum fits
        padding: padding_len(len % 4 + end),
    }
}

// The parts of an argument's field: together they are the whole field.
pub(crate) fn parts_of<Fd>(argument: &Argument<Fd>) -> Parts
    ensures parts { result ≡ parts_of argument.now }
    ensures whole { covered result ≡ field_length argument.now }
{
    match argument {
        Argument::Str(text) => block_parts(text.len, 1),
        Argument::Array(text) => block_parts(text.len, 0),
        Argument::Fd(_) => word_parts(0),
        _ => word_parts(4),
    }
}
