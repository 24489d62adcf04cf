//! Leaves that are to be written.
ghost use Rattle.std.specs.Prelude.{◌<◌, length};

// A leaf that is to be written: its number, how many objects it has, their largest serial, and its
// payload.
#[derive(Drop)]
pub(crate) struct FreshLeaf {
    pub number: u64,
    pub count: u64,
    pub serial: u32,
    pub payload: Vec<u8>,
    ghost some: { 0 < length payload.items },
}
