// What the caller states about a trace.
use layout::Layout;

// The identifiers of its eight attributes, and how a trace is laid out: every question about a trace needs both. The long field
// stands first: behind a byte and its padding it takes longer to copy.
#[derive(Clone, Copy, Debug, PartialEq, Eq)]
pub struct Terms {
    pub sheet: [u32; 8],
    pub layout: Layout,
}
