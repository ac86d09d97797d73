//! Work as a value, for a thread that has others beside it.

ghost use Rattle.std.specs.Prelude.{◌≡◌};

/// What a thread does while others work beside it. The contract of a closure that is handed to `thread::join` or
/// `thread::scope` says nothing of what it borrows and changes; that of a task says what it gives.
pub trait Task {
    type Output;

    ghost can_run: { Self → Type 0 };

    ghost gives: { Self → Self.Output → Type 0 };

    /// Does the task.
    fn run(self) -> Self::Output
        requires { can_run self }
        ensures { gives self result };
}

/// Does nothing. For the borrow checker, this use ties a reference that came back to the one that was lent.
pub fn take_back<T>(_place: &mut T)
    ensures { _place.new ≡ _place.old }
{}
