/// Which of two mistakes a server makes.
#[derive(Clone, Copy)]
pub struct Rules {
    /// It commits an entry of an older term because a majority has it.
    pub eager: bool,
    /// It reports a vote before the vote is stable.
    pub hasty: bool,
}

/// A variant of Raft: the rules that its servers follow.
pub trait Variant {
    const RULES: Rules;

    ghost use Rattle.example_raft.specs.declared.rules.Rules.{Rules};

    /// The rules, for contracts.
    ghost RULES: { Rules };
}

/// Raft without a mistake.
pub struct Sound;

impl Variant for Sound {
    ghost use Rattle.std.specs.Prelude.{true, false};

    const RULES: Rules = Rules {
        eager: false,
        hasty: false,
    };

    ghost RULES = { record { eager = false; hasty = false } };
}

/// Raft with a mistake: a leader commits what a majority has, of whatever term. A value committed
/// this way can be replaced later.
pub struct Eager;

impl Variant for Eager {
    ghost use Rattle.std.specs.Prelude.{true, false};

    const RULES: Rules = Rules {
        eager: true,
        hasty: false,
    };

    ghost RULES = { record { eager = true; hasty = false } };
}

/// Raft with a mistake: a server reports its vote before it is stable. If it starts again, it can
/// vote twice in a term, and so a term can have two leaders.
pub struct Hasty;

impl Variant for Hasty {
    ghost use Rattle.std.specs.Prelude.{true, false};

    const RULES: Rules = Rules {
        eager: false,
        hasty: true,
    };

    ghost RULES = { record { eager = false; hasty = true } };
}
