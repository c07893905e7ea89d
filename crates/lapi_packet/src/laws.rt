ghost use Rattle.std.specs.Prelude.{◌≡◌, ◌≢◌, ℕ, ◌≤◌, List, [], ◌++◌, length, Ok, Err};
ghost use Rattle.lapi_base.specs.declared.packet.Packet.{Packet};
ghost use Rattle.lapi_base.specs.declared.reply.Bad.{Bad};
ghost use Rattle.lapi_base.specs.declared.reply.Reason.TheVariants.{Short};
ghost use Rattle.lapi_base.specs.Laws.Entries.{layout_in};
ghost use Rattle.lapi_base.specs.Packet.Layout.{Layout, layout_of, longest_packet};
ghost use Rattle.lapi_base.specs.Packet.Spelling.{Spells, Refuses, decoded};

/// The laws of spellings. Nothing runs: a caller takes them from the contract.
pub fn spelling_laws()
    // A packet has one spelling, and bytes spell one packet.
    ensures one_spelling { (p : Packet) (a b : List ℕ) → Spells p a → Spells p b → a ≡ b }
    ensures one_packet { (p q : Packet) (bytes : List ℕ) → Spells p bytes → Spells q bytes → p ≡ q }

    // What is spelled is read again, and where it is cut it is too short.
    ensures round_trip { (p : Packet) (bytes : List ℕ) → Spells p bytes → decoded bytes ≡ Ok p }
    ensures cut { (p : Packet) (front more : List ℕ) → Spells p (front ++ more) → more ≢ []
        → decoded front ≡ Err (record { place = length front; reason = Short }) }
    ensures no_prefix { (p q : Packet) (bytes more : List ℕ) → Spells p bytes
        → Spells q (bytes ++ more) → more ≡ [] }

    // Bytes have one first fault, and none where they spell a packet.
    ensures one_fault { (bytes : List ℕ) (bad : Bad) → Refuses bytes bad → decoded bytes ≡ Err bad }

    // The longest spelling of each layout.
    ensures longest { (p : Packet) (bytes : List ℕ) → Spells p bytes
        → length bytes ≤ longest_packet (layout_of (layout_in p)) }
    ensures reached { (layout : Layout) → (p : Packet) × (bytes : List ℕ) × Spells p bytes
        × (layout_of (layout_in p) ≡ layout) × (length bytes ≡ longest_packet layout) }
{}
