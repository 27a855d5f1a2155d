use numbers::Format;

// A length word that was opened: it must be filled, or given up. It is neither copied nor let go.
#[derive(Debug, PartialEq, Eq, Hash)]
pub struct InitialLengthOffset {
    pub(super) offset: usize,
    pub(super) format: Format,
}
