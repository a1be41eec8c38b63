//! Laws of the script. Each is a contract without a call, so its body is empty.

ghost use Rattle.dz_gen.specs.Reading.{IsReadable};
ghost use Rattle.dz_gen.specs.Outcomes.{ZonesCome, CatalogComes, CatalogChanges};

/// A reader of scripts takes each line of the script of up to 1,000 zones, as the settings, jobs and requests that it
/// spells.
pub fn is_readable(number: u16)
    ensures { IsReadable number }
{}

/// What comes of each transfer of a zone is what the script is meant for: the part that breaks off is incomplete, and any
/// other is a valid version, which the zone's policy accepts.
pub fn zones_come()
    ensures { ZonesCome }
{}

/// What comes of the catalog's transfers is a valid version, which its policy accepts: of the first, which has a message
/// for each zone, and of the change.
pub fn catalog_comes(number: u16, id: u16)
    ensures first { CatalogComes number }
    ensures changes { CatalogChanges number id }
{}
