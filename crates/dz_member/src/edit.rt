//! Edits of a listing: what is at one label, in place of what was there.

use crate::listing::Node;
use dz_name::Label;

/// The node that is at a label after an edit; none where the edit takes it out.
#[derive(Debug, Drop)]
pub struct Edit {
    pub label: Label,
    /// The node, whose label is that of the edit.
    pub node: Option<Node>,
}
