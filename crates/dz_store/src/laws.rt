//! Laws of what a store keeps. Each is a contract without a call, so its body is empty.

ghost use Rattle.dz_store.specs.Laws.{SavedIsKept, ForgottenIsGone, CrashKeeps, ReadsStrictly, WrittenReads};

use dz_disk::one_joins;

/// What was saved is kept.
pub fn saved_is_kept()
    ensures { SavedIsKept }
{}

/// What was forgotten isn't kept.
pub fn forgotten_is_gone()
    ensures { ForgottenIsGone }
{}

/// A crash leaves of each zone what was kept before a call, or what is kept with its record.
pub fn crash_keeps()
    ensures { CrashKeeps }
{
    one_joins();
}

/// What is written of a zone can be read.
pub fn written_reads()
    ensures { WrittenReads }
{}

/// A payload that can be read is what is written of the zone that it says.
pub fn reads_strictly()
    ensures { ReadsStrictly }
{}
