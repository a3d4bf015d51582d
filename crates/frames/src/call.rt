// The calls that a line can make.

use yard::edit::Edit;

#[derive(Clone, Copy, PartialEq, Eq, Debug)]
pub enum Call {
    Edit(Edit),
    Place,
    Why,
    Dearest { k: u8 },
    Nearest { pillar: u8, k: u8 },
}
