//! What a job gives an axis, and what a font names.

/// A value that a job gives to each axis with a tag, in 16.16.
#[derive(Clone, Copy)]
pub struct AxisValue {
    pub tag: [u8; 4],
    pub value: i32,
}

/// A named instance of a font.
#[derive(Clone, Copy)]
pub struct NamedInstance {
    /// The number of the instance's name.
    pub name: u16,
    pub flags: u16,
}
