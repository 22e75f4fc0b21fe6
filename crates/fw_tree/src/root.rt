ghost use Rattle.std.specs.Prelude.{◌≡◌, ◌<◌, ℕ, None};
ghost use Rattle.fw_tree.specs.Cables.{InRange};
ghost use Rattle.fw_tree.specs.Forest.{AreCables, HasNoLoop};
ghost use Rattle.fw_tree.specs.Parents.{IsTheRoot, IsParent, Settled, parent_at};

use crate::facts::AllCables;
use crate::rounds::Parent;

/// The root of the bus: the way up from device 0 ends there.
pub fn find_root(g: &AllCables, parents: &[Option<Parent>; 63]) -> u8
    requires range { InRange g.now }
    requires cables { AreCables g.now }
    requires loops { HasNoLoop g.now }
    requires parents { (d : ℕ) → d < 63 → IsParent g.now d (parent_at parents.now d) }
    requires settled { (r : ℕ) × Settled g.now r }
    ensures device { result < 63 }
    ensures root { IsTheRoot g.now result }
    ensures none { parent_at parents.now result ≡ None }
{
    let mut d: u8 = 0;
    while let Some(parent) = parents[usize::from(d)] {
        d = match g[usize::from(d)][usize::from(parent.port)] {
            Some(end) => end.device,
            None => unreachable!(),
        };
    }
    d
}
