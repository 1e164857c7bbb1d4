// Laws of system texts.
ghost use Rattle.std.specs.Prelude.{◌≡◌, ◌≤◌, ◌⊎◌, ◌++◌, ℕ, List, drop, length};
ghost use Rattle.tile_io.specs.declared.mark.Mark.{Mark};
ghost use Rattle.tile_io.specs.declared.fault.Cause.{Cause};
ghost use Rattle.tile_io.specs.Formats.{Reads, Fault, IsRead, IsFaulty};
ghost use Rattle.tile_io.specs.NextLine.{IsMark};
ghost use Rattle.tile_text.specs.SystemText.{SystemItem, IsSystemOf, ReadsVersion, ReadsAny, FaultAny, IsReadAny, IsFaultyAny, system_format, system_items};
ghost use Rattle.tile_text.specs.declared.version.Version.{Version};
ghost use Rattle.tile_text.specs.Spelling.{spelling_by, end_of_print};
ghost use Rattle.atam.specs.TileSystem.{TileSystem, IsValid};

/// Each text, from each start, either reads under a version as one list of items, of one system,
/// up to one mark, or has one fault. The same holds of both versions together.
pub fn law_one_of_two()
    ensures one { (version : Version) (text : List ℕ) (from : Mark) →
        IsRead (system_format version) text from ⊎ IsFaulty (system_format version) text from }
    ensures not_both { (version : Version) (text : List ℕ) (from to : Mark)
        (items : List SystemItem) (number : ℕ) (cause : Cause) →
        Reads (system_format version) text from items to
        → Fault (system_format version) text from number cause → ⊥ }
    ensures one_value { (version : Version) (text : List ℕ) (from : Mark)
        (a b : List SystemItem) (s t : Mark) →
        Reads (system_format version) text from a s → Reads (system_format version) text from b t
        → (a ≡ b) × (s ≡ t) }
    ensures one_system { (version : Version) (text : List ℕ) (from s t : Mark)
        (sys other : TileSystem) →
        ReadsVersion version text from sys s → ReadsVersion version text from other t
        → (sys ≡ other) × (s ≡ t) }
    ensures one_fault { (version : Version) (text : List ℕ) (from : Mark) (m n : ℕ) (a b : Cause) →
        Fault (system_format version) text from m a → Fault (system_format version) text from n b
        → (m ≡ n) × (a ≡ b) }

    // Of either version.
    ensures any_one { (text : List ℕ) (from : Mark) → IsReadAny text from ⊎ IsFaultyAny text from }
    ensures any_not_both { (text : List ℕ) (from to : Mark) (sys : TileSystem)
        (number : ℕ) (cause : Cause) →
        ReadsAny text from sys to → FaultAny text from number cause → ⊥ }
    ensures any_one_system { (text : List ℕ) (from s t : Mark) (sys other : TileSystem) →
        ReadsAny text from sys s → ReadsAny text from other t → (sys ≡ other) × (s ≡ t) }
    ensures any_one_fault { (text : List ℕ) (from : Mark) (m n : ℕ) (a b : Cause) →
        FaultAny text from m a → FaultAny text from n b → (m ≡ n) × (a ≡ b) }
{}

/// A text that reads is that of a valid system, and under version 1 of one that has one seed and no
/// pairs.
pub fn law_reads_valid()
    ensures version { (version : Version) (text : List ℕ) (from to : Mark)
        (items : List SystemItem) →
        Reads (system_format version) text from items to →
        (sys : TileSystem) × (items ≡ system_items sys) × IsValid sys × IsSystemOf version sys }
    ensures any { (text : List ℕ) (from to : Mark) (sys : TileSystem) →
        ReadsAny text from sys to → IsValid sys }
{}

/// A text that reads reads so whatever follows it, up to the same mark.
pub fn law_reads_onward()
    ensures same { (front behind : List ℕ) (from to : Mark) (sys : TileSystem) →
        from.at ≤ length front → ReadsAny front from sys to
        → ReadsAny (front ++ behind) from sys to }
    ensures mark { (front behind : List ℕ) (from to : Mark) (sys : TileSystem) →
        from.at ≤ length front → IsMark (front ++ behind) from → ReadsAny front from sys to
        → IsMark (front ++ behind) to }
{}

/// The printed text of a valid system reads as this system, up to the end of the print, whatever
/// follows: by each version that has it, and so by either.
pub fn law_reads_printed()
    ensures version { (version : Version) (sys : TileSystem) (text rest : List ℕ) (from : Mark) →
        IsValid sys → IsSystemOf version sys →
        drop from.at text ≡ spelling_by version sys ++ rest →
        ReadsVersion version text from sys (end_of_print version sys from) }
    ensures any { (version : Version) (sys : TileSystem) (text rest : List ℕ) (from : Mark) →
        IsValid sys → IsSystemOf version sys →
        drop from.at text ≡ spelling_by version sys ++ rest →
        ReadsAny text from sys (end_of_print version sys from) }
{}
