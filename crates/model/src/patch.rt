// A tint patch (docs/SPECIFICATION.md §20.1).
ghost use Rattle.std.specs.Prelude.{◌≡◌};
ghost use Rattle.model.specs.Patch.{patch_fits};

// Its first corner, its tiles each way, its tint and its first id.
#[derive(Clone, Copy)]
pub struct Patch {
    pub x: i32,
    pub y: i32,
    pub columns: u32,
    pub rows: u32,
    pub tint: u32,
    pub first_id: u32,
}

impl Patch {
    // Whether refusal 13 lets it pass (§20.5): 1 to 64 tiles each way, and a tint of at most 256.
    #[tactic(auto, unfolding(crate::specs::Patch::patch_fits))]
    pub fn in_range(self) -> bool
        ensures { result ≡ patch_fits self }
    {
        let across = (1 <= self.columns) & (self.columns <= 64);
        let down = (1 <= self.rows) & (self.rows <= 64);
        across & down & (self.tint <= 256)
    }
}
