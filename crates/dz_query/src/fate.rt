//! What becomes of replies.

ghost use Rattle.std.specs.Prelude.{◌≡◌};
ghost use Rattle.dz_query.specs.inner.Replying.{has_unheard};

/// What became of the reply that was due to a request, if one was.
#[derive(Clone, Copy, Debug, PartialEq, Eq)]
pub enum Fate {
    /// It went out, or none was due.
    Sent,
    /// The send failed.
    Lost,
    /// A NOTIFY was not heard, since the log could not be written.
    Unheard,
}

/// Whether a NOTIFY was not heard, after one more request.
pub(crate) fn has_unheard(unheard: bool, fate: Fate) -> bool
    ensures { result ≡ has_unheard unheard fate }
{
    match fate {
        Fate::Unheard => true,
        Fate::Sent | Fate::Lost => unheard,
    }
}
