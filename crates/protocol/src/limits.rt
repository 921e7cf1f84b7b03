// The four numbers of a link that its ends and lines agree on.
#[derive(Clone, Copy, Debug, PartialEq, Eq)]
pub struct Limits {
    // descriptors that one send may carry
    pub descriptors: usize,
    // bytes that one send may carry
    pub bytes: usize,
    // arguments of one message
    pub arguments: usize,
    // bytes that an end holds unread
    pub incoming: usize,
}

pub const LIMITS: Limits = Limits {
    descriptors: 28,
    bytes: 4096,
    arguments: 20,
    incoming: 4096,
};
