//! Whether what a region is fed lies far from where the sweep goes on.

ghost use Rattle.std.specs.Prelude.{◌≡◌, ◌↔◌, ◌<◌, ◌≤◌, ◌+◌, ◌-◌, ◌*◌, ◌/◌, ◌^◌, max, min, true, false, IsTrue, IsFalse};

/// How many vertices a search from what is fed may find before that is called far.
const NEAR: usize = 64;

/// How many it may find before the sweep leaves the order of the newest. A search that meets near
/// by may still find some two hundred, most of them fed vertices of a long front that it only
/// began from, as on a torus.
const FAR: usize = 256;

/// How many splits are passed over once it was in vain to feed a vertex beside.
const PAUSE: u32 = 3;

/// How far the searches of splits went to what the region is fed, and whether it helps to feed a
/// vertex beside the next one.
///
/// On a long closed band in which each vertex is a minimum cut alone, what a region is fed comes
/// to lie at the other end of the band, and a search from there goes halfway round at each
/// split, or at each second or third. A little that is brought near once stays near. So a far
/// search is remembered for a while. Where feeding was in vain, some splits are passed over
/// before it is tried again.
#[derive(Clone, Copy)]
pub struct Supply {
    // how many vertices the searches from what is fed found in the last splits:
    // a sixteenth is forgotten at each
    reach: usize,
    // whether a vertex beside was fed since
    tried: bool,
    // how many splits are still passed over
    pause: u32,
}

impl Supply {
    /// Before the first split.
    pub fn new() -> Supply
        ensures reach { result.reach ≡ 0 }
        ensures tried { result.tried ≡ false }
        ensures pause { result.pause ≡ 0 }
    {
        Supply {
            reach: 0,
            tried: false,
            pause: 0,
        }
    }

    /// Whether searches of the last splits went so far that another vertex is
    /// to enter than the newest.
    pub fn went_far(self) -> bool
        ensures { IsTrue result ↔ 256 < self.reach }
    {
        self.reach > FAR
    }

    /// Whether a vertex beside the next one is to be fed.
    pub fn is_far(self) -> bool
        ensures { IsTrue result ↔ ((64 < self.reach) × (self.tried ≡ false) × (self.pause ≡ 0)) }
    {
        self.reach > NEAR && !self.tried && self.pause == 0
    }

    /// What a vertex is to be fed that is fed so much already:
    /// something, and where searches went very far one more.
    pub fn wanted(self, fed: u64) -> u64
        ensures far { 256 < self.reach → result ≡ min (fed + 1) (2 ^ 64 - 1) }
        ensures near { self.reach ≤ 256 → result ≡ 1 }
    {
        if self.went_far() {
            fed.saturating_add(1)
        } else {
            1
        }
    }

    /// How many arcs that may take: some more than the rows of what these searches found.
    pub fn most(self) -> usize
        ensures { result ≡ min (self.reach * 16) (2 ^ 64 - 1) }
    {
        self.reach.saturating_mul(16)
    }

    /// After a vertex beside was fed.
    pub fn after_feeding(self) -> Supply
        ensures { result ≡ record self { tried = true } }
    {
        Supply {
            tried: true,
            ..self
        }
    }

    /// After a split whose search from what is fed found so many vertices.
    pub fn after_split(self, found: usize) -> Supply
        ensures reach { result.reach ≡ max found (self.reach - self.reach / 16) }
        ensures tried { result.tried ≡ false }
        ensures vain { self.tried ≡ true → 64 < found → result.pause ≡ 3 }
        ensures helped { self.tried ≡ true → found ≤ 64 → result.pause ≡ self.pause - 1 }
        ensures other { self.tried ≡ false → result.pause ≡ self.pause - 1 }
    {
        let was_in_vain = self.tried && found > NEAR;
        Supply {
            reach: found.max(self.reach - self.reach / 16),
            tried: false,
            pause: pause_after(was_in_vain, self.pause),
        }
    }
}

/// How many splits are passed over from there on.
fn pause_after(was_in_vain: bool, pause: u32) -> u32
    ensures vain { IsTrue was_in_vain → result ≡ 3 }
    ensures other { IsFalse was_in_vain → result ≡ pause - 1 }
{
    if was_in_vain {
        PAUSE
    } else {
        pause.saturating_sub(1)
    }
}
