ghost use Rattle.std.specs.Prelude.{◌≡◌};
ghost use Rattle.sim_node.specs.Work.{Work, turned, copied, undone};

/// Counts the calls of nodes: boots and reactions (`turns`), copies (`copies`) and reactions undone
/// (`undos`). Contracts see the three numbers.
///
/// Each method adds one to its own number and leaves the other two unchanged. A meter of a program
/// can be of no size and count for contracts alone. The trait has no constructor, so that generic
/// code cannot make a meter of its own.
pub trait Meter: Drop {
    /// The work that was counted.
    ghost work: { Self → Work };

    /// Counts a boot or a reaction.
    fn turn(&mut self)
        ensures { work self.new ≡ turned (work self.old) };

    /// Counts a copy.
    fn copied(&mut self)
        ensures { work self.new ≡ copied (work self.old) };

    /// Counts a reaction undone.
    fn undone(&mut self)
        ensures { work self.new ≡ undone (work self.old) };
}
