// Laws of quadrant texts and of the tiles of a quadrant, each as the contract of a function that
// does nothing.
ghost use Rattle.std.specs.Prelude.{◌≡◌, ◌⊎◌, ℕ, List};
ghost use Rattle.tile_io.specs.declared.mark.Mark.{Mark};
ghost use Rattle.tile_io.specs.declared.fault.Cause.{Cause};
ghost use Rattle.tile_io.specs.Formats.{Fault, IsFaulty};
ghost use Rattle.quadrant_compile.specs.Quadrants.{RuleQuadrant};
ghost use Rattle.quadrant_compile.specs.QuadrantText.{ReadsQuadrant, quadrant_format};
ghost use Rattle.quadrant_compile.specs.Examples.{ExclusiveOrIsShown, OnesStopAtOnce};
ghost use Rattle.quadrant_compile.specs.Laws.{TheRecurrenceIsMet, TheRecurrenceIsOne, PlacesAreOfTheQuadrant, PlacesAreInTheBox, FullGrowthsAreTheQuadrant, FullGrowthsShowTheRecurrence, QuadrantsAreDeterministic, QuadrantSystemsAreValid, QuadrantSystemsAreSmall};

/// Each text, from each start, either reads as one quadrant, up to one mark, or has one fault.
pub fn law_quadrant_text()
    ensures one { (text : List ℕ) (from : Mark) →
        ((q : RuleQuadrant) × (to : Mark) × ReadsQuadrant text from q to)
        ⊎ IsFaulty quadrant_format text from }
    ensures not_both { (text : List ℕ) (from to : Mark) (q : RuleQuadrant) (number : ℕ)
        (cause : Cause) →
        ReadsQuadrant text from q to → Fault quadrant_format text from number cause → ⊥ }
    ensures one_quadrant { (text : List ℕ) (from s t : Mark) (v q : RuleQuadrant) →
        ReadsQuadrant text from v s → ReadsQuadrant text from q t → (v ≡ q) × (s ≡ t) }
    ensures one_fault { (text : List ℕ) (from : Mark) (m n : ℕ) (a b : Cause) →
        Fault quadrant_format text from m a →
        Fault quadrant_format text from n b → (m ≡ n) × (a ≡ b) }
{}

/// The recurrence of the rules has a solution, and no other one.
pub fn law_recurrence()
    ensures met { TheRecurrenceIsMet }
    ensures one { TheRecurrenceIsOne }
{}

/// Whatever a legal sequence places lies in the box and has the tile that belongs there; a producible
/// assembly that nothing extends in the box shows the recurrence cell by cell, and is empty where it
/// has none; and nothing else grows.
pub fn law_quadrant()
    ensures places { PlacesAreOfTheQuadrant }
    ensures in_box { PlacesAreInTheBox }
    ensures filled { FullGrowthsAreTheQuadrant }
    ensures recurrence { FullGrowthsShowTheRecurrence }
    ensures deterministic { QuadrantsAreDeterministic }
{}

/// An example: exclusive or over two columns and two rows, and the same without the rule for two
/// ones.
pub fn law_example()
    ensures shown { ExclusiveOrIsShown }
    ensures stops { OnesStopAtOnce }
{}

/// The system of every quadrant is within all limits.
pub fn law_valid()
    ensures valid { QuadrantSystemsAreValid }
    ensures small { QuadrantSystemsAreSmall }
{}
