// Laws of machine texts.
ghost use Rattle.std.specs.Prelude.{◌≡◌, ◌⊎◌, ℕ, List};
ghost use Rattle.tile_io.specs.declared.mark.Mark.{Mark};
ghost use Rattle.tile_io.specs.declared.fault.Cause.{Cause};
ghost use Rattle.tile_io.specs.Formats.{Fault, IsFaulty};
ghost use Rattle.machine_text.specs.declared.limits.TheConstants.{MOST_STATES, MOST_SYMBOLS, LONGEST_SHORT_NAME, MOST_CELLS, MOST_ROWS};
ghost use Rattle.machine_text.specs.Machines.{TuringMachine};
ghost use Rattle.machine_text.specs.MachineText.{ReadsMachine, machine_format};

/// Each text, from each start, either reads as one machine, up to one mark, or has one fault.
pub fn law_machine_text()
    ensures one { (text : List ℕ) (from : Mark) →
        ((M : TuringMachine) × (to : Mark) × ReadsMachine text from M to)
        ⊎ IsFaulty machine_format text from }
    ensures not_both { (text : List ℕ) (from to : Mark) (M : TuringMachine) (number : ℕ)
        (cause : Cause) → ReadsMachine text from M to →
        Fault machine_format text from number cause → ⊥ }
    ensures one_machine { (text : List ℕ) (from s t : Mark) (M N : TuringMachine) →
        ReadsMachine text from M s → ReadsMachine text from N t → (M ≡ N) × (s ≡ t) }
    ensures one_fault { (text : List ℕ) (from : Mark) (m n : ℕ) (a b : Cause) →
        Fault machine_format text from m a →
        Fault machine_format text from n b → (m ≡ n) × (a ≡ b) }
{}

/// The limits of machines, as numbers.
pub fn law_limits()
    ensures states { MOST_STATES ≡ 64 }
    ensures symbols { MOST_SYMBOLS ≡ 64 }
    ensures name { LONGEST_SHORT_NAME ≡ 8 }
    ensures cells { MOST_CELLS ≡ 512 }
    ensures rows { MOST_ROWS ≡ 1024 }
{}
