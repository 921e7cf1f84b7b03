ghost use Rattle.std.specs.Prelude.{◌≡◌, ◌++◌, length, IfOk, vec_len, OnOk};
ghost use Rattle.quicklook.specs.Shown.{drafted, told};

use protocol::{Argument, Message, RawFd, Text};
use std::alloc::{AllocError, Global};

// What the queue knows of one exposure.
#[derive(Clone, Copy)]
pub(crate) struct Exposure<'a> {
    pub(crate) number: u32,
    pub(crate) filter: &'a [u8],
    pub(crate) label: &'a [u8],
    pub(crate) thumbnail: &'a [u8],
    pub(crate) picture: RawFd,
}

// A message that is put together: its arguments, and the bytes of its strings and arrays one after another.
#[derive(Drop)]
pub(crate) struct Draft {
    args: Vec<Argument<RawFd>>,
    text: Vec<u8>,
}

// Puts bytes behind those of a text, and says where they lie. As replay's `add_text`: the programs share no crate of their own.
fn append(text: &mut Vec<u8>, bytes: &[u8]) -> Result<Text, AllocError>
    ensures place { IfOk result (λ t. t.place ≡ vec_len text.old) }
    ensures len { IfOk result (λ t. t.len ≡ length bytes.now) }
    ensures items { OnOk result (text.new.items ≡ text.old.items ++ bytes.now) }
{
    let place = text.len();
    text.extend_from_slice(bytes)?;
    Ok(Text {
        place,
        len: bytes.len(),
    })
}

// The arguments of `show` for an exposure.
pub(crate) fn draft_of(heap: Global, exposure: &Exposure) -> Result<Draft, AllocError>
    ensures { IfOk result (λ draft. drafted draft ≡ told exposure.now) }
{
    let mut text = Vec::new(heap);
    let filter = append(&mut text, exposure.filter)?;
    let label = append(&mut text, exposure.label)?;
    let thumbnail = append(&mut text, exposure.thumbnail)?;
    let args = vec![in heap;
        Argument::Uint(exposure.number),
        Argument::Str(filter),
        Argument::Str(label),
        Argument::Array(thumbnail),
        Argument::Fd(exposure.picture),
    ]?;
    Ok(Draft { args, text })
}

impl Draft {
    pub(crate) fn message(&self, sender: u32, opcode: u16) -> Message<'_, RawFd>
        ensures head { (result.sender ≡ sender) × (result.opcode ≡ opcode) }
        ensures args { result.args.now ≡ self.now.args.items }
        ensures text { result.text.now ≡ self.now.text.items }
    {
        Message {
            sender,
            opcode,
            args: self.args.as_slice(),
            text: self.text.as_slice(),
        }
    }
}
