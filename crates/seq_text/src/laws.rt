// Laws of growth and schedule texts.
ghost use Rattle.tile_io.specs.Lines.{first_mark};
ghost use Rattle.std.specs.Prelude.{◌≡◌, ◌≤◌, ◌⊎◌, ◌++◌, ℕ, List, Bool, true, false, Option, length, drop};
ghost use Rattle.tile_io.specs.declared.mark.Mark.{Mark};
ghost use Rattle.tile_io.specs.declared.fault.Cause.{Cause};
ghost use Rattle.tile_io.specs.Checks.{table_format};
ghost use Rattle.tile_io.specs.Formats.{Fault, IsRead, IsFaulty};
ghost use Rattle.atam.specs.declared.place.Place.{Place};
ghost use Rattle.atam.specs.declared.place.TypeId.{TypeId};
ghost use Rattle.atam.specs.declared.site.Site.{Site};
ghost use Rattle.atam.specs.Assembly.{Fits};
ghost use Rattle.atam.specs.Placements.{HasDistinctSites};
ghost use Rattle.atam.specs.TileSystem.{TileSystem, IsValid};
ghost use Rattle.atam.specs.declared.verdict.Verdict.{Verdict};
ghost use Rattle.tile_text.specs.declared.version.Version.{Version};
ghost use Rattle.tile_text.specs.declared.version.Version.TheVariants.{Two};
ghost use Rattle.tile_text.specs.SystemText.{ReadsAny};
ghost use Rattle.tile_text.specs.Spelling.{spelling, spelling_by, newest_spelling, version_of, end_of_print};
ghost use Rattle.seq_text.specs.PrintedGrowths.{growth_lines, MayBePrinted};
ghost use Rattle.atam.specs.declared.event.Event.{Event};
ghost use Rattle.seq_text.specs.GrowthText.{growth_table, ReadsPlaces};
ghost use Rattle.seq_text.specs.ScheduleText.{schedule_format, ReadsEvents};

/// Each text, from each start, as a sequence or as a grid, either reads as one list of places or
/// has one fault.
pub fn law_growth_one_of_two()
    ensures one { (distinct : Bool) (sys : TileSystem) (text : List ℕ) (from : Mark) →
        IsRead (table_format (growth_table distinct sys)) text from
        ⊎ IsFaulty (table_format (growth_table distinct sys)) text from }
    ensures not_both { (distinct : Bool) (sys : TileSystem) (text : List ℕ) (from : Mark)
        (places : List Place) (number : ℕ) (cause : Cause) →
        ReadsPlaces distinct sys text from places →
        Fault (table_format (growth_table distinct sys)) text from number cause → ⊥ }
    ensures one_list { (distinct : Bool) (sys : TileSystem) (text : List ℕ) (from : Mark)
        (a b : List Place) →
        ReadsPlaces distinct sys text from a →
        ReadsPlaces distinct sys text from b → a ≡ b }
    ensures one_fault { (distinct : Bool) (sys : TileSystem) (text : List ℕ) (from : Mark)
        (m n : ℕ) (a b : Cause) →
        Fault (table_format (growth_table distinct sys)) text from m a →
        Fault (table_format (growth_table distinct sys)) text from n b → (m ≡ n) × (a ≡ b) }
{}

/// What a growth text reads as is of types of the system, within its box, and no longer than the
/// text. The sites differ where it is read as a grid.
pub fn law_growth_fits()
    ensures sequence { (sys : TileSystem) (text : List ℕ) (from : Mark) (places : List Place) →
        ReadsPlaces false sys text from places → Fits sys places }
    ensures grid { (sys : TileSystem) (text : List ℕ) (from : Mark) (places : List Place) →
        ReadsPlaces true sys text from places → Fits sys places × HasDistinctSites places }
    ensures count { (distinct : Bool) (sys : TileSystem) (text : List ℕ) (from : Mark)
        (places : List Place) →
        ReadsPlaces distinct sys text from places → length places ≤ length text }
{}

/// The lines of places that fit a valid system, then maybe a `closed` line and then maybe the line
/// on local determinism, read as these places, to the end of the text, whatever stands before them.
/// As a grid they do where their sites differ.
pub fn law_growth_reads_printed()
    ensures sequence { (sys : TileSystem) (places : List Place)
        (closed : Option (Option (Site × TypeId))) (verdict : Option Verdict)
        (text : List ℕ) (from : Mark) → IsValid sys → MayBePrinted sys places closed verdict →
        drop from.at text ≡ growth_lines sys places closed verdict →
        ReadsPlaces false sys text from places }
    ensures grid { (sys : TileSystem) (places : List Place)
        (closed : Option (Option (Site × TypeId))) (verdict : Option Verdict)
        (text : List ℕ) (from : Mark) → IsValid sys → MayBePrinted sys places closed verdict →
        HasDistinctSites places → drop from.at text ≡ growth_lines sys places closed verdict →
        ReadsPlaces true sys text from places }
{}

/// A growth that is printed behind its system's one text, or behind that of the newest version,
/// reads, from the start of the input, as this system and then as its places.
pub fn law_input_reads_printed()
    ensures system { (sys : TileSystem) (tail : List ℕ) → IsValid sys →
        ReadsAny (spelling sys ++ tail) first_mark sys
        (end_of_print (version_of sys) sys first_mark) }
    ensures newest { (sys : TileSystem) (tail : List ℕ) → IsValid sys →
        ReadsAny (newest_spelling sys ++ tail) first_mark sys (end_of_print Two sys first_mark) }
    ensures sequence { (version : Version) (sys : TileSystem) (places : List Place)
        (closed : Option (Option (Site × TypeId))) (verdict : Option Verdict) → IsValid sys →
        MayBePrinted sys places closed verdict →
        ReadsPlaces false sys (spelling_by version sys ++ growth_lines sys places closed verdict)
        (end_of_print version sys first_mark) places }
    ensures grid { (version : Version) (sys : TileSystem) (places : List Place)
        (closed : Option (Option (Site × TypeId))) (verdict : Option Verdict) → IsValid sys →
        MayBePrinted sys places closed verdict → HasDistinctSites places →
        ReadsPlaces true sys (spelling_by version sys ++ growth_lines sys places closed verdict)
        (end_of_print version sys first_mark) places }
{}

/// Each text, from each start, either reads as one list of events or has one fault.
pub fn law_schedule_one_of_two()
    ensures one { (sys : TileSystem) (text : List ℕ) (from : Mark) →
        IsRead (schedule_format sys) text from ⊎ IsFaulty (schedule_format sys) text from }
    ensures not_both { (sys : TileSystem) (text : List ℕ) (from : Mark) (events : List Event)
        (number : ℕ) (cause : Cause) → ReadsEvents sys text from events →
        Fault (schedule_format sys) text from number cause → ⊥ }
    ensures one_list { (sys : TileSystem) (text : List ℕ) (from : Mark) (a b : List Event) →
        ReadsEvents sys text from a → ReadsEvents sys text from b → a ≡ b }
    ensures one_fault { (sys : TileSystem) (text : List ℕ) (from : Mark) (m n : ℕ) (a b : Cause) →
        Fault (schedule_format sys) text from m a →
        Fault (schedule_format sys) text from n b → (m ≡ n) × (a ≡ b) }
{}
