//! An activity's path.

ghost use Rattle.std.specs.Prelude.{◌≡◌, ◌<◌, length};
ghost use Rattle.san_net.specs.Laid.{acts_of};
ghost use Rattle.san_report.specs.Lines.{act_name, leaf_of, leaf_path, name_of};

use san_base::{ActId, LeafId};
use san_net::{Flat, Part};

fn name_of(part: &Part, at: u32) -> &[u8]
    requires { at < length part.now.atomic.acts }
    ensures { result.now ≡ name_of part.now at }
{
    let (name, _) = &part.atomic.get().acts.as_slice()[at as usize];
    name.as_bytes()
}

/// The path of the leaf that has an activity.
pub(crate) fn leaf_path(flat: &Flat, act: ActId) -> &[u8]
    requires { act.0 < acts_of flat.now.parts }
    ensures { result.now ≡ leaf_path flat.now (leaf_of flat.now act.0) }
{
    flat.path(flat.leaf_of(act))
}

/// The name of an activity.
pub(crate) fn act_name(flat: &Flat, act: ActId) -> &[u8]
    requires { act.0 < acts_of flat.now.parts }
    ensures { result.now ≡ act_name flat.now act.0 }
{
    let part = flat.part(flat.leaf_of(act)).get();
    name_of(part, act.0 - part.first.0)
}
