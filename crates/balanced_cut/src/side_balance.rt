//! The balance of one side, computed vertex by vertex.

ghost use Rattle.std.specs.Prelude.{◌≡◌, length};
ghost use Rattle.cut_definitions.specs.Balance.{balance};

use cut_definitions::VertexWeights;
use vertex_set::Side;

/// The balance of a side: the lesser of its mass and that of all other vertices.
///
/// It takes one step for each vertex, and no memory.
pub fn balance_of(side: &Side, weights: &VertexWeights) -> u128
    requires { length weights.now ≡ side.now.vertices }
    ensures { result ≡ balance weights.now side.now.members }
{
    let mut inside: u128 = 0;
    let mut outside: u128 = 0;
    'vertices: for v in 1..weights.len() + 1 {
        let mass = weights.of(v) as u128;
        if side.has(v) {
            inside += mass;
        } else {
            outside += mass;
        }
    }
    inside.min(outside)
}
