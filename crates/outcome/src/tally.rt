// How many trials there were, and how many of them differ.
ghost use Rattle.std.specs.Prelude.{◌≡◌, ◌+◌, cond, min};

#[derive(Clone, Copy, Debug, Default)]
pub struct Tally {
    pub tried: u32,
    pub differ: u32,
}

impl Tally {
    pub fn new() -> Tally
        ensures tried { result.tried ≡ 0 }
        ensures differ { result.differ ≡ 0 }
    {
        Tally::default()
    }

    pub fn and(self, differs: bool) -> Tally
        ensures tried { result.tried ≡ min (self.tried + 1) u32.MAX }
        ensures differ { result.differ ≡ min (self.differ + cond differs 1 0) u32.MAX }
    {
        Tally {
            tried: self.tried.saturating_add(1),
            differ: self.differ.saturating_add(u32::from(differs)),
        }
    }
}
