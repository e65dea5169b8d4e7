//! A node as it is held, in eight bytes.
const _: () = prove!(size_of::<Kept>() == 8);

/// The nodes that have children.
#[derive(Clone, Copy, Debug, PartialEq, Eq)]
pub enum Branch {
    Construct,
    Parameter,
    Part,
}

/// A node: the number of a text, or a node that has children with the place where they end.
#[derive(Clone, Copy, Debug, PartialEq, Eq)]
pub enum Kept {
    Text(u32),
    Equals,
    Branch(Branch, u32),
}
