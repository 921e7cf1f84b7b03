ghost use Rattle.std.specs.Prelude.{◌≡◌, ◌+◌, ◌-◌, ◌^◌, min};
ghost use Rattle.wire.specs.Frame.{padding};
ghost use Rattle.wire.specs.Read.{no_zero};
ghost use Rattle.wire.specs.Records.{block_length, field_length, number_of};

use protocol::Argument;

// So many bytes are enough for a search over groups of them.
const FEW: usize = 8;

// How many bytes n lacks to a multiple of 4.
pub fn padding_len(n: usize) -> usize
    ensures { result ≡ padding n }
{
    (4 - n % 4) % 4
}

// Four bytes of length, then so many bytes and their padding.
pub(crate) fn block_len(n: usize) -> usize
    ensures { result ≡ min (block_length n) (2 ^ 64 - 1) }
{
    n.saturating_add(4 + padding_len(n))
}

// The bytes that an argument takes in a frame.
pub(crate) fn field_len<Fd>(argument: &Argument<Fd>) -> usize
    ensures { result ≡ min (field_length argument.now) (2 ^ 64 - 1) }
{
    match argument {
        Argument::Str(text) => block_len(text.len.saturating_add(1)),
        Argument::Array(text) => block_len(text.len),
        Argument::Fd(_) => 0,
        _ => 4,
    }
}

// The descriptor of an argument, if it is one.
pub(crate) fn fd_of<Fd: Copy>(argument: &Argument<Fd>) -> Option<Fd>
    ensures { result ≡ number_of argument.now }
{
    match argument {
        Argument::Fd(fd) => Some(*fd),
        _ => None,
    }
}

// A few bytes are walked over: `contains` sets up for many.
pub(crate) fn no_zero(bytes: &[u8]) -> bool
    ensures { result ≡ no_zero bytes.now }
{
    if bytes.len() < FEW {
        return bytes.iter().all(|byte| *byte != 0);
    }
    !bytes.contains(&0)
}
