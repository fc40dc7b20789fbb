//! What the commands of a tick leave of the rows and the shape.
ghost use Rattle.std.specs.Prelude.{◌≡◌};
ghost use Rattle.view_shares.specs.Standing.{all_commanded, commanded_at, has_command, stand};

use aps_ctl::perform;
use aps_model::limits::MOST_PARTITIONS;
use aps_model::{CommandRow, CtlView, Shape};
use aps_tree::Tree;

/// Does the commands of a tick over the tree and the shape, in their order. What they answer and which threads they mark is
/// left out.
pub fn do_commands(commands: &[CommandRow], tick: u32, tree: &mut Tree, shape: &mut Shape)
    requires { tree.old.parts ≡ shape.old.parts }
    ensures { stand tree.new.rows shape.new ≡ all_commanded tick commands.now (stand tree.old.rows shape.old) }
{
    for row in commands {
        do_command(row, tick, tree, shape);
    }
}

/// Does a command if it is one of this tick, whatever it would see of threads and usages: rows and shape don't depend on that.
fn do_command(row: &CommandRow, tick: u32, tree: &mut Tree, shape: &mut Shape)
    requires { tree.old.parts ≡ shape.old.parts }
    ensures stands { stand tree.new.rows shape.new ≡ commanded_at tick (stand tree.old.rows shape.old) row.now }
    ensures parts { tree.new.parts ≡ shape.new.parts }
{
    if row.tick != tick {
        return;
    }
    let view = CtlView {
        used: [0; MOST_PARTITIONS],
        critical_used: [0; MOST_PARTITIONS],
        thread: None,
    };
    let _answer = perform(&row.call, tree, shape, &view);
}

/// Whether some command is one of this tick.
pub fn has_command(commands: &[CommandRow], tick: u32) -> bool
    ensures { result ≡ has_command tick commands.now }
{
    commands.iter().any(|row| row.tick == tick)
}
