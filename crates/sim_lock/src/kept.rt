//! The value that a lock guards.
ghost use Rattle.std.specs.Prelude.{◌≡◌, ℕ, ◌+◌, List, [], ◌∷◌, ◌++◌, Option, length, IfOk, IfErr};
ghost use Rattle.sim_lock.specs.Entries.{of_session};

/// A value with a scenario that never changes, and a history to which each turn that is taken adds
/// one entry.
pub trait Kept {
    /// The part that never changes.
    type Scenario;
    /// What a session asks for.
    type Command;
    /// What the history keeps of a command: its session, its number in that session, the command,
    /// and the reply.
    type Entry: Drop;
    /// Why a command is not taken.
    type NotTaken;

    ghost scenario: { Self → Self.Scenario };

    // the history
    ghost entries: { Self → List Self.Entry };

    ghost session_of: { Self.Entry → ℕ };

    ghost number_of: { Self.Entry → ℕ };

    ghost command_of: { Self.Entry → Self.Command };

    // what a `NotTaken` says about the history
    ghost tells: { Self.NotTaken → List Self.Entry → Type 0 };

    /// Returns the session of an entry.
    fn session(entry: &Self::Entry) -> u8
        ensures { result ≡ session_of entry.now };

    /// Returns the number of an entry in its session, from 1.
    fn number(entry: &Self::Entry) -> u32
        ensures { result ≡ number_of entry.now };

    /// Carries out a session's command and returns its entry. After an error the history is as
    /// before.
    fn turn(&mut self, session: u8, command: Self::Command) -> Result<Self::Entry, Self::NotTaken>
        ensures scenario { scenario self.new ≡ scenario self.old }
        ensures asked { IfOk result (λ e. (session_of e ≡ session) × (command_of e ≡ command)) }
        ensures number { IfOk result (λ e. number_of e ≡ length
            (of_session session_of session (entries self.old)) + 1) }
        ensures kept { IfOk result (λ e. entries self.new ≡ entries self.old ++ e ∷ []) }
        ensures not_taken { IfErr result (λ why. (entries self.new ≡ entries self.old)
            × tells why (entries self.old)) };
}

/// A kept value that can also return a frozen copy of one of its branches.
pub trait Freezes: Kept {
    /// A frozen copy.
    type Frozen;

    // the command that freezes a branch
    ghost freezing: { ℕ → Self.Command };

    // which frozen copy comes with an entry, by the scenario
    ghost gives: { Self.Scenario → Self.Entry → Option Self.Frozen → Type 0 };

    /// Carries out a session's command to freeze a branch, and returns the entry and the frozen
    /// copy.
    fn freeze(
        &mut self,
        session: u8,
        branch: u32,
    ) -> Result<(Self::Entry, Option<Self::Frozen>), Self::NotTaken>
        ensures scenario { Self.scenario self.new ≡ Self.scenario self.old }
        ensures asked { IfOk result (λ r. (Self.session_of r.0 ≡ session)
            × (Self.command_of r.0 ≡ freezing branch)) }
        ensures number { IfOk result (λ r. Self.number_of r.0 ≡ length
            (of_session Self.session_of session (Self.entries self.old)) + 1) }
        ensures kept { IfOk result (λ r. Self.entries self.new ≡ Self.entries self.old ++ r.0
            ∷ []) }
        ensures given { IfOk result (λ r. gives (Self.scenario self.old) r.0 r.1) }
        ensures not_taken { IfErr result (λ why. (Self.entries self.new ≡ Self.entries self.old)
            × Self.tells why (Self.entries self.old)) };
}
