//! What is known of the addresses that tasks gave.
ghost use Rattle.std.specs.Prelude.{◌≡◌, ℕ, Bool};

/// The addresses that tasks gave in their address rounds, as far as one task knows them. A task knows
/// them by the joins that came to it, and whoever judges a journal by the events so far.
pub trait Entries {
    // When it may be asked.
    ghost valid: { Self → Type 0 };

    // Whether a round's addresses are known.
    ghost is_known: { Self → ℕ → Bool };

    // The address that a task gave in a round. It counts only where the round is known.
    ghost given: { Self → ℕ → ℕ → ℕ };

    /// Whether the addresses of this round are known.
    fn knows(&self, round: u32) -> bool
        requires { valid self.now }
        ensures { result ≡ is_known self.now round };

    /// The address that a task gave in a round; any number where the round isn't known.
    fn entry(&self, round: u32, task: u32) -> u32
        requires { valid self.now }
        ensures { result ≡ given self.now round task };
}
