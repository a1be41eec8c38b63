//! Laws of frames. Each is a contract without a call, so its body is empty.

ghost use Rattle.dz_message.specs.Frame.{ComesBack, ComesBackBeforeAPart, EachIsCut};

/// What was put into frames is read back, also where it is followed by part of a frame.
pub fn comes_back()
    ensures whole { ComesBack }
    ensures cut { ComesBackBeforeAPart }
{}

/// Every string of octets consists of the frames of its whole messages, followed by part of a frame.
pub fn each_is_cut()
    ensures { EachIsCut }
{}
