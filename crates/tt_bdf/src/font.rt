//! The facts of a font in its file.

/// A font at a size.
#[derive(Drop)]
pub struct BdfFont {
    /// The name of the family, without a character that divides an X font name.
    pub family: String,
    pub bold: bool,
    pub italic: bool,
    /// Pixels per em.
    pub size: u32,
    /// Font units per em.
    pub em: u16,
    /// Rows of a line above its base line.
    pub rise: i32,
    /// Rows of a line below its base line.
    pub depth: i32,
}
