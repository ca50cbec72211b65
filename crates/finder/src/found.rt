/// What a finder answers when it is asked for a rival.
#[derive(Clone, Copy, Debug, PartialEq, Eq)]
pub enum Found {
    /// A rival; it is in the strip.
    Rival,
    /// None: the clues admit only the given grid.
    NoRival,
}
