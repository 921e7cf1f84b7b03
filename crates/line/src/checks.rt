ghost use Rattle.std.specs.Prelude.{◌≡◌};
ghost use Rattle.protocol.specs.Limits.{limits};
ghost use Rattle.line.specs.Checks.{Passed, Sendable, Receivable};
ghost use Rattle.line.specs.Choices.{first_code};
ghost use Rattle.line.specs.Line.{send_refusal, receive_refusal};

use protocol::{LIMITS, Refusal};

// The code of a line that its host shuts without one: that of a broken pipe.
const BROKEN_PIPE: u32 = 32;

// Whether a line takes anything of a send of so many bytes and duplicates: the four numbers are those of `send_refusal`, in its order.
pub(crate) fn check_send(window: usize, shut: u32, bytes: usize, fds: usize) -> Result<(), Refusal>
    ensures { Passed (send_refusal limits window shut bytes fds) (Sendable limits window shut bytes fds) result }
{
    if bytes == 0 || bytes > LIMITS.bytes || fds > LIMITS.descriptors {
        return Err(Refusal::Limit);
    }
    if shut > 0 {
        return Err(Refusal::Broken(shut));
    }
    if window == 0 {
        return Err(Refusal::Again);
    }
    Ok(())
}

// Whether a line gives anything to one who has room for so many bytes and duplicates: the numbers of `receive_refusal`.
pub(crate) fn check_receive(
    waiting: usize,
    shut: u32,
    bytes: usize,
    fds: usize,
) -> Result<(), Refusal>
    ensures { Passed (receive_refusal limits waiting shut bytes fds) (Receivable limits waiting bytes fds) result }
{
    if bytes == 0 || fds < LIMITS.descriptors {
        return Err(Refusal::Limit);
    }
    if waiting > 0 {
        return Ok(());
    }
    Err(if shut > 0 {
        Refusal::Pipe
    } else {
        Refusal::Again
    })
}

// The code of a line that had the code `was`, 0 if it was open, once its host shuts it with `code`.
pub(crate) fn first_code(was: u32, code: u32) -> u32
    ensures { result ≡ first_code was code }
{
    match (was, code) {
        (0, 0) => BROKEN_PIPE,
        (0, _) => code,
        _ => was,
    }
}
