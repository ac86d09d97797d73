//! The other hosts that a host met, as the lines of its journal tell.

ghost use Rattle.std.specs.Prelude.{◌≡◌};
ghost use Rattle.rvm_journal.specs.Meetings.{meeting_of};

use crate::noted::meeting_in;
use crate::replay::text_in;
use rvm_debug::Words;
use rvm_station::Meeting;

/// The meeting that a line of a journal tells, which comes without its line feed; none if it tells none. Looks at no
/// digest.
pub(crate) fn meeting_of(line: &[u8]) -> Option<Meeting>
    ensures { result ≡ meeting_of line.now }
{
    meeting_in(Words::new(text_in(line)))
}
