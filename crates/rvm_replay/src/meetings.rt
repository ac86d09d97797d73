//! Whether what journals tell of the hosts that were met agrees with the journals of these hosts.

ghost use Rattle.std.specs.Prelude.{◌≡◌, ◌<◌, IfErr, IfNone, IfSome, OnOk, Some, false, length, slice_get, true};
ghost use Rattle.rvm_journal.specs.Meetings.{AllMeetings, SomeMeeting};
ghost use Rattle.rvm_replay.specs.Audited.{AreOfOneWorld};
ghost use Rattle.rvm_replay.specs.Journals.{header_number, headers_in};
ghost use Rattle.rvm_replay.specs.Meetings.{Agrees, HasMet, HasOtherProcess, HaveMet, HaveProcess, IsOtherProcess, IsProcess};
ghost use Rattle.rvm_replay.specs.Unaudited.{AreMetOther, HasMetOther, IsOtherMeeting};

use crate::file::{FileFault, JournalsFault, ReadFile};
use rvm_journal::{Header, letter_of};
use rvm_station::Meeting;

/// Checks that each host that a journal tells to have been met is of the process that its own journal tells, if that is
/// here, and of the world of the journal that has the header `opening`, with whose guest the world began.
pub(crate) fn check_meetings(files: &[ReadFile<'_>], opening: &Header) -> Result<(), JournalsFault>
    requires { AreOfOneWorld (headers_in files.now) opening.now.hosts opening.now }
    ensures met { OnOk result (HaveMet files.now (length files.now) opening.now.world) }
    ensures fault { IfErr result (AreMetOther files.now) }
{
    for index in 0..files.len() {
        if let Some(fault) = fault_in_file(files, opening, index) {
            return Err(JournalsFault::File(index, fault));
        }
    }
    Ok(())
}

/// What is wrong with the first meeting that does not agree with the journals, of those that the journal with this index
/// tells.
fn fault_in_file(files: &[ReadFile<'_>], opening: &Header, index: usize) -> Option<FileFault>
    requires index { index < length files.now }
    requires world { AreOfOneWorld (headers_in files.now) opening.now.hosts opening.now }
    ensures none { IfNone result (HasMet files.now opening.now.world (slice_get files.now index)) }
    ensures some { IfSome result (HasMetOther files.now index) }
{
    fault_in(files, opening, files[index].journal().meetings())
}

/// What is wrong with the first of these meetings that does not agree with the journals.
fn fault_in(files: &[ReadFile<'_>], opening: &Header, meetings: &[Meeting]) -> Option<FileFault>
    ensures none { IfNone result (AllMeetings (Agrees files.now opening.now.world) meetings.now) }
    ensures some { IfSome result
        (λ fault. SomeMeeting (IsOtherMeeting files.now opening.now fault) meetings.now) }
{
    for index in 0..meetings.len() {
        if let Some(fault) = fault_of(files, opening, &meetings[index]) {
            return Some(fault);
        }
    }
    None
}

/// What is wrong with a meeting, if it does not agree with the journals.
fn fault_of(files: &[ReadFile<'_>], opening: &Header, meeting: &Meeting) -> Option<FileFault>
    ensures none { IfNone result (Agrees files.now opening.now.world meeting.now) }
    ensures some { IfSome result (λ fault. IsOtherMeeting files.now opening.now fault meeting.now) }
{
    if meeting.world != 0 && meeting.world != opening.world {
        return Some(FileFault::MetOtherWorld);
    }
    if have_process(files, meeting) {
        None
    } else {
        Some(FileFault::OtherProcess(letter_of(meeting.host)))
    }
}

/// Whether no journal tells another process of the host that was met.
fn have_process(files: &[ReadFile<'_>], meeting: &Meeting) -> bool
    ensures all { result ≡ true → HaveProcess files.now meeting.now (length files.now) }
    ensures other { result ≡ false → HasOtherProcess files.now meeting.now }
{
    for index in 0..files.len() {
        if !is_process(files, index, meeting) {
            return false;
        }
    }
    true
}

/// Whether the journal with this index is of another host than the one that was met, or tells its process.
fn is_process(files: &[ReadFile<'_>], index: usize, meeting: &Meeting) -> bool
    requires { index < length files.now }
    ensures same { result ≡ true → IsProcess meeting.now (header_number files.now index) }
    ensures other { result ≡ false → IsOtherProcess meeting.now (header_number files.now index) }
{
    let header = files[index].journal().header();
    header.host != meeting.host || header.process == meeting.process
}
