// A field of a frame: a number in one, two or four bytes, or a signed number in four.
#[derive(Clone, Copy, PartialEq, Eq, Debug)]
pub enum Field {
    Byte(u8),
    Half(u16),
    Word(u32),
    Signed(i32),
}
