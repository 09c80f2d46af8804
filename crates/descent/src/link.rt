// A link between two types.

/// A link from a type up to one of its bases; types are numbers.
#[derive(Clone, Copy, Debug, PartialEq, Eq)]
pub struct Link {
    pub from: u16,
    pub to: u16,
}
