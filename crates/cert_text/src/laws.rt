// Laws of certificate texts.
ghost use Rattle.std.specs.Prelude.{◌≡◌, ℕ, List, drop};
ghost use Rattle.tile_io.specs.declared.mark.Mark.{Mark};
ghost use Rattle.atam.specs.TileSystem.{TileSystem, IsValid};
ghost use Rattle.tile_text.specs.declared.version.Version.TheVariants.{Two};
ghost use Rattle.tile_text.specs.Spelling.{version_of};
ghost use Rattle.cert_check.specs.declared.entry.Entry.{Entry};
ghost use Rattle.cert_text.specs.CertificateLines.{mark_lines};
ghost use Rattle.cert_text.specs.CertificateText.{ReadsCertificate};
ghost use Rattle.cert_text.specs.PrintedCertificates.{MayBePrinted, ReadsBack};

/// The lines of a certificate that fits a valid system read as its entries, to the end of the
/// text, whatever stands before them. Behind the system's one text, or behind that of the newest
/// version, the input reads, from its start, as this system and then as these entries.
pub fn law_certificate_reads_printed()
    ensures lines { (sys : TileSystem) (c : List Entry) (text : List ℕ) (from : Mark) →
        IsValid sys → MayBePrinted sys c → drop from.at text ≡ mark_lines sys c →
        ReadsCertificate sys text from c }
    ensures input { (sys : TileSystem) (c : List Entry) → IsValid sys → MayBePrinted sys c →
        ReadsBack (version_of sys) sys c }
    ensures newest { (sys : TileSystem) (c : List Entry) → IsValid sys → MayBePrinted sys c →
        ReadsBack Two sys c }
{}
