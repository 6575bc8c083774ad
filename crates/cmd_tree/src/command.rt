//! Commands and what each of them keeps.
ghost use Rattle.cmd_tree.specs.Limits.{IsCommand, IsCommand-prop};

use crate::name::NameSet;
use crate::tree::Proc;
use sqlite_items::Items;

/// A command: processes woven with one another over common symbols. `names` are the names of the
/// symbols in order of first occurrence, so symbol k has the k-th name. The ghost field says what every
/// command keeps: shape, names and limits.
#[derive(Drop)]
pub struct Command {
    pub names: NameSet,
    pub procs: Items<Proc>,
    ghost valid: { IsCommand names procs } by { IsCommand-prop names procs },
}
