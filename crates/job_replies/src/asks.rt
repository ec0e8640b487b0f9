//! What a job asks of a listing, and those of some sides for which it asks.

ghost use Rattle.std.specs.Prelude.{ℕ, ◌≡◌, ◌==◌, ◌&&◌, All, length};
ghost use Rattle.std.specs.List.{filter};
ghost use Rattle.cut_definitions.specs.Cuts.{has, mincuts};
ghost use Rattle.cut_definitions.specs.Graph.{Graph as EdgeGraph};
ghost use Rattle.cut_listing.specs.Asks.{HasMasses, IsAskWithin, has_masses-prop, lets};
ghost use Rattle.vertex_set.specs.Side.{members_of};
ghost use Rattle.job_replies.specs.Asked.{cuts_for};
ghost use Rattle.job_replies.specs.Jobs.{asked_of};

use balanced_cut::balance_of;
use cut_definitions::VertexWeights;
use cut_listing::Ask;
use program_words::Job;
use vertex_set::Side;

/// What the job `cuts` lists: all minimum cuts, or those of at least a balance.
pub fn ask_of(least: Option<u64>, weights: &VertexWeights) -> Ask
    ensures cuts { (g : EdgeGraph) → cuts_for result g ≡ asked_of Job.Cuts least weights.now (mincuts g) }
    ensures within { (n : ℕ) → length weights.now ≡ n → IsAskWithin n result }
{
    match least {
        Some(number) => Ask::Least(number, weights),
        None => Ask::All,
    }
}

/// Whether a number is a vertex of a side.
fn has_number(side: &Side, v: u32) -> bool
    ensures { result ≡ has side.now.members v }
{
    let n = side.n();
    if v < 1 || n < v {
        return false;
    }
    side.has(v)
}

/// A question about the sides over n.
#[derive(Drop)]
struct Asked<'a> {
    n: u32,
    ask: Ask<'a>,
    ghost masses: { HasMasses n ask } by { has_masses-prop n ask },
}

impl Asked<'_> {
    /// Whether a side is over n and asked for.
    fn selects(&self, side: &Side) -> bool
        ensures { result ≡ (side.now.vertices == self.now.n && lets self.now.ask side.now.members) }
    {
        if side.n() != self.n {
            return false;
        }
        match self.ask {
            Ask::All => true,
            Ask::Parting(u, v) => has_number(side, u) != has_number(side, v),
            Ask::Least(least, weights) => balance_of(side, weights) >= least as u128,
        }
    }
}

/// Those of some sides over n that are asked for, in their order. It takes no memory.
pub fn select_asked(ask: Ask, n: u32, mut sides: Vec<Side>) -> Vec<Side>
    requires over_n { All (λ s. s.vertices ≡ n) sides.items }
    requires within { IsAskWithin n ask }
    ensures { members_of result.items ≡ filter (lets ask.entry) (members_of sides.items) }
{
    let asked = Asked { n, ask };
    sides.retain(
        |side: &Side| -> bool
            ensures { result ≡ (side.now.vertices == asked.entry.n && lets asked.entry.ask side.now.members) }
        { asked.selects(side) },
    );
    sides
}
