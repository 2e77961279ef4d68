// What a walk counts of the structures that it meets: how many there are, or how many there are of each type.
ghost use Rattle.std.specs.Prelude.{◌≡◌, ◌<◌, ℕ, List, [], ◌∷◌};
ghost use Rattle.meaning.specs.Structure.{Row};
ghost use Rattle.meaning.specs.Message.{types};
ghost use Rattle.walk.specs.Counters.{CounterLaws, number_laws, tally_laws, numbered, NumberRoom, TallyRoom};
ghost use Rattle.walk.specs.Tallies.{added};

pub trait Counter: Copy {
    // the counter once these rows were met
    ghost counted: { Self → List Row → Self };

    // it can count so many structures more
    ghost Room: { Self → ℕ → Type 0 };

    ghost laws: { CounterLaws counted Room };

    // Counts one structure more, of this type.
    fn count(&mut self, kind: u32)
        requires known { kind < types }
        requires room { Room self.old 1 }
        ensures { (r : Row) → r.kind ≡ kind → self.new ≡ counted self.old (r ∷ []) };
}

// The number of structures.
impl Counter for usize {
    ghost counted = { numbered };

    ghost Room = { NumberRoom };

    ghost laws = { number_laws };

    #[inline(always)]
    fn count(&mut self, _kind: u32) {
        *self += 1;
    }
}

// The number of structures of each type, 0 to 26.
impl Counter for [u32; 27] {
    ghost counted = { added 0 };

    ghost Room = { TallyRoom };

    ghost laws = { tally_laws };

    #[inline(always)]
    fn count(&mut self, kind: u32) {
        self[kind as usize] += 1;
    }
}
