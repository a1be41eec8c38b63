//! Labels as the keys of a map.

ghost use Rattle.std.specs.Prelude.{◌≡◌, refl};
ghost use Rattle.std.specs.Ordering.{as_partial_cmp};
ghost use Rattle.dz_name.specs.Name.{label_order, same_label};
ghost use Rattle.dz_name.specs.Order.{label_total, labels_equal, labels_partly_equal, labels_ordered, same_label_ties};
ghost use Rattle.dz_index.specs.Lead.{lead_of};
ghost use Rattle.dz_keys.specs.Labels.{label_decides, label_same};

use dz_chunks::Lead;
use dz_index::{LEAD, lead_of};
use dz_name::Label;
use std::cmp::Ordering;
use std::marker::Model;

/// What a map of labels is asked with: a label after its first octets, by which the map tells most labels apart. Contracts
/// see the octets of the label.
#[derive(Clone, Copy)]
pub struct LabelKey {
    lead: [u8; LEAD],
    label: Label,
}

impl Model for LabelKey {
    ghost use Rattle.std.specs.Prelude.{◌≡◌};
    ghost use Rattle.std.proofs.Common.{sym, ap};
    ghost use Rattle.dz_name.specs.Words.{Octets};
    ghost use Rattle.dz_index.specs.Lead.{lead_of};

    ghost Value = { Octets };

    ghost view = { λ k. k.label };

    ghost invariant = { λ k. k.lead ≡ lead_of 16 k.label };

    ghost inverse = { λ label. record { lead = lead_of 16 label; label = label } };

    ghost inverse_ok = { λ k h. ap (λ lead. record { lead = lead; label = k.label }) (sym h) };
}

impl LabelKey {
    /// The key of a label.
    pub fn of(label: &Label) -> LabelKey
        ensures { result ≡ label.now }
    {
        LabelKey {
            lead: lead_of(label.octets()),
            label: *label,
        }
    }

    /// The label.
    pub fn label(&self) -> &Label
        ensures { result.now ≡ self.now }
    {
        &self.label
    }
}

impl PartialEq for LabelKey {
    ghost eq = { same_label };

    ghost laws = { labels_partly_equal };

    /// Whether the labels have the same octets.
    fn eq(&self, other: &LabelKey) -> bool {
        self.label == other.label
    }
}

impl Eq for LabelKey {
    ghost laws = { labels_equal };
}

impl PartialOrd for LabelKey {
    ghost partial_cmp = { as_partial_cmp label_order };

    ghost laws = { labels_ordered };

    /// The order of the labels as octet strings; any two compare.
    fn partial_cmp(&self, other: &LabelKey) -> Option<Ordering> {
        Some(self.cmp(other))
    }
}

impl Ord for LabelKey {
    ghost cmp = { label_order };

    ghost total = { label_total };

    ghost matches_partial_cmp = { λ a b. refl };

    ghost matches_eq = { same_label_ties };

    /// The order of the labels as octet strings.
    fn cmp(&self, other: &LabelKey) -> Ordering {
        self.label.cmp(&other.label)
    }
}

impl Lead for LabelKey {
    ghost lead = { λ label. lead_of 16 label };

    ghost decides = { label_decides };

    ghost one = { label_same };

    /// The first octets of the label.
    fn lead(&self) -> [u8; LEAD] {
        self.lead
    }
}
