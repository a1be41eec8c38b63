//! The order of a zone's records, and which of them are the same.

ghost use Rattle.std.specs.Ordering.{as_partial_cmp};
ghost use Rattle.std.specs.Prelude.{refl};
ghost use Rattle.dz_record.specs.Order.{record_total, records_equal, records_ordered, records_partly_equal, same_ties};
ghost use Rattle.dz_record.specs.Record.{record_order, same_record};

use crate::rr::Rr;
use std::cmp::Ordering;

/// Records are equal where owner, type and RDATA agree; the TTL is ignored (RFC 2181 section 5).
impl PartialEq for Rr {
    ghost eq = { same_record };

    ghost laws = { records_partly_equal };

    /// Whether owner, type and RDATA agree.
    fn eq(&self, other: &Rr) -> bool {
        self.same(other)
    }
}

impl Eq for Rr {
    ghost laws = { records_equal };
}

impl PartialOrd for Rr {
    ghost partial_cmp = { as_partial_cmp record_order };

    ghost laws = { records_ordered };

    /// The order of owner, type and RDATA, which is total.
    fn partial_cmp(&self, other: &Rr) -> Option<Ordering> {
        Some(self.record_cmp(other))
    }
}

/// The order of owner, type and RDATA (RFC 4034 sections 6.1 and 6.3).
impl Ord for Rr {
    ghost cmp = { record_order };

    ghost total = { record_total };

    ghost matches_partial_cmp = { λ a b. refl };

    ghost matches_eq = { same_ties };

    /// The order of owner, type and RDATA.
    fn cmp(&self, other: &Rr) -> Ordering {
        self.record_cmp(other)
    }
}
