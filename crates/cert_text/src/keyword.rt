// The keyword of a certificate text.
ghost use Rattle.std.specs.Prelude.{◌≡◌, option_map, find, bytes_eq};
ghost use Rattle.atam.specs.TileSystem.{TileSystem};
ghost use Rattle.cert_text.specs.CertificateText.{certificate_table};
ghost use Rattle.cert_text.specs.Inner.SoFar.{row_of};

/// The keyword.
#[derive(Clone, Copy, Debug, PartialEq, Eq)]
pub(crate) enum LineKind {
    Mark,
}

impl LineKind {
    /// The keyword that a word is.
    #[tactic(auto, unfolding(crate::specs::CertificateText::certificate_table))]
    pub(crate) fn of(word: &[u8]) -> Option<LineKind>
        ensures { (sys : TileSystem) → option_map (row_of sys) result
            ≡ find (λ row. bytes_eq word.now row.word) (certificate_table sys).keywords }
    {
        match word {
            b"mark" => Some(LineKind::Mark),
            _ => None,
        }
    }
}
