//! How many entries the wires have.

ghost use Rattle.std.specs.Prelude.{◌≡◌, ℕ, ◌<◌, ◌+◌, ◌^◌, ◌==◌, ◌&&◌, cond};
ghost use Rattle.lapi_array.specs.Counting.{entries_of};

/// The most tasks of a script.
const TASKS: usize = 8;

/// How many entries each wire has, from each task to each.
#[derive(Clone, Copy, Debug)]
pub struct Entries {
    items: [u32; 64],
}

impl Entries {
    /// No wire has any.
    pub fn none() -> Entries
        ensures { (x y : ℕ) → x < 8 → y < 8 → entries_of result x y ≡ 0 }
    {
        Entries { items: [0; 64] }
    }

    /// Those of one wire.
    pub fn of(&self, from: u32, to: u32) -> u32
        requires { (from < 8) × (to < 8) }
        ensures { result ≡ entries_of self.now from to }
    {
        self.items[TASKS * from as usize + to as usize]
    }

    /// A wire gets so many more.
    pub fn add(&mut self, from: u32, to: u32, many: u32)
        requires tasks { (from < 8) × (to < 8) }
        requires room { entries_of self.old from to + many < 2 ^ 32 }
        ensures { (x y : ℕ) → x < 8 → y < 8
            → entries_of self.new x y ≡ entries_of self.old x y + cond (x == from && y == to) many 0 }
    {
        let place = TASKS * from as usize + to as usize;
        self.items[place] += many;
    }
}
