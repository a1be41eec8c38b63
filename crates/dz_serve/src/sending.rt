//! What may be sent to threads.

ghost use denote.Param.Send.{IsSend};
ghost use Rattle.dz_desk.specs.contracts.publisher.Publisher.{the_row};

use dz_desk::Publisher;

/// What may be sent to a thread is known to be so.
fn may_be_sent<T: Send>()
    ensures { IsSend T.row }
{}

/// A publisher may be sent to a thread. It says so for a proof alone: the search for it is too long beside other facts.
pub(crate) fn publishers_may_be_sent()
    ensures { IsSend the_row }
{
    may_be_sent::<Publisher>();
}
