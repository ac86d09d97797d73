//! Runs of steps.

ghost use Rattle.std.specs.Prelude.{◌≡◌, ◌<◌, ◌^◌};
ghost use Rattle.rvm_recorder.specs.Items.{ends_run, run_of, steps_of};

use rvm_board::Retired;
use rvm_message::StepReply;

/// The replies to consecutive steps: `retired` steps that retired an instruction, and after them one with another
/// reply, if there is one.
#[derive(Clone, Copy, Debug, PartialEq, Eq)]
pub struct StepRun {
    pub retired: u32,
    pub last: Option<StepReply>,
}

impl StepRun {
    /// The run of the steps that a host made.
    pub(crate) fn of(made: Retired) -> StepRun
        ensures { result ≡ run_of made }
    {
        StepRun {
            retired: made.count,
            last: match made.last {
                None => None,
                Some(stepped) => Some(StepReply::Stepped(stepped)),
            },
        }
    }

    /// Returns how many steps the run has.
    pub fn count(self) -> u32
        requires { steps_of self < 2 ^ 32 }
        ensures { result ≡ steps_of self }
    {
        match self.last {
            None => self.retired,
            Some(_) => self.retired + 1,
        }
    }

    /// Whether the last step of the run ends a slice.
    pub fn ends_steps(self) -> bool
        ensures { result ≡ ends_run self }
    {
        match self.last {
            None => false,
            Some(reply) => reply.ends_steps(),
        }
    }
}
