//! That no frame goes out before its line is kept: each law is the contract of a function that does nothing.

ghost use Rattle.kept_link.specs.KeepingLaw.{IsInOrder, IsInParts, IsTooEarly, NoFrameGoesFirst};

/// Lines are told, all of them are kept, and bytes go out, any number of times and in any order in which bytes go out
/// only where no line is left to keep. Then at each moment the bytes that went out are a beginning of those that the
/// kept lines stand for.
pub fn no_frame_goes_before_its_line()
    ensures { NoFrameGoesFirst }
{}

/// Two lines are kept by one call, and their bytes go out.
pub fn lines_are_kept_and_go_out()
    ensures { IsInOrder }
{}

/// Bytes of a line that isn't kept aren't allowed, and would be lost to a later life.
pub fn a_frame_before_its_line_is_not_allowed()
    ensures { IsTooEarly }
{}

/// The link takes bytes in parts, and a line that stands for none waits.
pub fn bytes_may_go_out_in_parts()
    ensures { IsInParts }
{}
