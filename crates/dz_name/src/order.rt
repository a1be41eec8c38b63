//! The canonical order of names and of labels (RFC 4034 section 6.1).

ghost use Rattle.std.specs.Prelude.{◌≡◌, ℕ, ◌+◌, ◌<◌, List, [], length, take, drop, slice_index, slice_index_or};
ghost use Rattle.std.specs.Prelude.{refl};
ghost use Rattle.std.specs.Ordering.{as_partial_cmp};
ghost use Rattle.dz_name.specs.Name.{canonical_order, same_name, label_order, same_label};
ghost use Rattle.dz_name.specs.Order.{canonical_total, names_equal, names_partly_equal, names_ordered, same_ties};
ghost use Rattle.dz_name.specs.Order.{label_total, labels_equal, labels_partly_equal, labels_ordered, same_label_ties};

use crate::label::Label;
use crate::name::Name;
use std::cmp::Ordering;

impl Name {
    /// Canonical order: labels from the right, each as octets; a missing label or octet sorts first.
    pub fn canonical_cmp(&self, other: &Name) -> Ordering
        ensures { result ≡ canonical_order self.now other.now }
    {
        self.as_ref().canonical_cmp(&other.as_ref())
    }
}

impl PartialEq for Name {
    ghost eq = { same_name };

    ghost laws = { names_partly_equal };

    /// Whether the two names are the same.
    fn eq(&self, other: &Name) -> bool {
        self.same(other)
    }
}

impl Eq for Name {
    ghost laws = { names_equal };
}

impl PartialOrd for Name {
    ghost partial_cmp = { as_partial_cmp canonical_order };

    ghost laws = { names_ordered };

    /// Canonical order, which is total.
    fn partial_cmp(&self, other: &Name) -> Option<Ordering> {
        Some(self.canonical_cmp(other))
    }
}

impl Ord for Name {
    ghost cmp = { canonical_order };

    ghost total = { canonical_total };

    ghost matches_partial_cmp = { λ a b. refl };

    ghost matches_eq = { same_ties };

    /// Canonical order of names (RFC 4034 section 6.1).
    fn cmp(&self, other: &Name) -> Ordering {
        self.canonical_cmp(other)
    }
}

impl PartialEq for Label {
    ghost eq = { same_label };

    ghost laws = { labels_partly_equal };

    /// Whether the two labels have the same octets.
    fn eq(&self, other: &Label) -> bool {
        self.octets() == other.octets()
    }
}

impl Eq for Label {
    ghost laws = { labels_equal };
}

impl PartialOrd for Label {
    ghost partial_cmp = { as_partial_cmp label_order };

    ghost laws = { labels_ordered };

    /// The order of labels as octet strings, which is total.
    fn partial_cmp(&self, other: &Label) -> Option<Ordering> {
        Some(self.cmp(other))
    }
}

impl Ord for Label {
    ghost cmp = { label_order };

    ghost total = { label_total };

    ghost matches_partial_cmp = { λ a b. refl };

    ghost matches_eq = { same_label_ties };

    /// The order of labels as octet strings.
    fn cmp(&self, other: &Label) -> Ordering {
        self.octets().cmp(other.octets())
    }
}
