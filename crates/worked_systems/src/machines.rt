// Turing machines, as texts, and what grows from their tiles.
use std::alloc::{AllocError, Global};

/// A machine that flips three bits.
pub const BIT_FLIPPER: &str =
    "machine 1\nstate F\nsymbol 0\nsymbol 1\nrule F 0 F 1 R\nrule F 1 F 0 R\ncells 3\nrows 5\n\
    head 0\ntape 1 0 1\nend\n";

/// The same in a box of two rows.
pub const CLIPPED_FLIPPER: &str =
    "machine 1\nstate F\nsymbol 0\nsymbol 1\nrule F 0 F 1 R\nrule F 1 F 0 R\ncells 3\nrows 2\n\
    head 0\ntape 1 0 1\nend\n";

/// A machine without rules.
pub const IDLE: &str = "machine 1\nstate F\nsymbol 0\ncells 2\nrows 3\nhead 0\nend\n";

/// A machine that leaves its cells to the left.
pub const LEFT_RUNNER: &str =
    "machine 1\nstate F\nsymbol 0\nsymbol 1\nrule F 0 F 1 L\ncells 2\nrows 3\nhead 0\nend\n";

/// A machine that stays in its one cell, in another state.
pub const STAYER: &str =
    "machine 1\nstate F\nstate G\nsymbol _\nsymbol x\nrule G x F _ L\nrule F _ G x S\ncells 1\n\
    rows 1\nhead 0\nend\n";

/// The tiles of the machine that flips three bits.
pub const FLIPPER: &str =
    "tiles 1\ntau 2\nglue s:0 1\nglue s:1 1\nglue h:F:0 2\nglue h:F:1 2\nglue r 1\n\
    glue l 1\nglue R:F 1\nglue L:F 1\nglue c:1 2\nglue c:2 2\ntile t:0 h:F:1 c:1 - -\n\
    tile t:1 s:0 c:2 - c:1\ntile t:2 s:1 - - c:2\ntile a:F:0 s:1 R:F h:F:0 l\n\
    tile a:F:1 s:0 R:F h:F:1 l\ntile R:F:0 h:F:0 r s:0 R:F\ntile R:F:1 h:F:1 r s:1 R:F\n\
    tile L:F:0 h:F:0 L:F s:0 l\ntile L:F:1 h:F:1 L:F s:1 l\ntile r:0 s:0 r s:0 r\n\
    tile r:1 s:1 r s:1 r\ntile l:0 s:0 l s:0 l\ntile l:1 s:1 l s:1 l\nbox 0 0 2 4\n\
    seed 0 0 t:0\nend\n";

/// What grows from them, in canonical order.
pub const FLIPPED: &str =
    "place 0 0 t:0\nplace 1 0 t:1\nplace 2 0 t:2\nplace 0 1 a:F:1\nplace 1 1 R:F:0\n\
    place 2 1 r:1\nplace 1 2 a:F:0\nplace 0 2 l:0\nplace 2 2 R:F:1\nplace 2 3 a:F:1\n\
    place 1 3 l:1\nplace 0 3 l:0\n";

/// What grows from the tiles of the machine that leaves its cells to the left.
pub const RUN_LEFT: &str = "place 0 0 t:0\nplace 1 0 t:1\nplace 0 1 a:F:0\nplace 1 1 r:0\n";

/// A machine of one row, of as many states, symbols and cells as there may be, with a rule for each
/// pair or with none.
pub fn widest_machine(alloc: Global, has_rules: bool) -> Result<String, AllocError> {
    let mut text = String::from_str(alloc, "machine 1\n")?;
    for state in 0..64u32 {
        text.push_str(format!(in alloc; "state q{state}\n")?.as_str())?;
    }
    for symbol in 0..64u32 {
        text.push_str(format!(in alloc; "symbol a{symbol}\n")?.as_str())?;
    }
    if has_rules {
        push_rules(alloc, &mut text)?;
    }
    text.push_str("cells 512\nrows 1\nhead 0\nend\n")?;
    Ok(text)
}

// A rule for each state and each symbol.
fn push_rules(alloc: Global, text: &mut String) -> Result<(), AllocError> {
    for pair in 0..4096u32 {
        let (state, symbol) = (pair / 64, pair % 64);
        let rule = format!(in alloc; "rule q{state} a{symbol} q{symbol} a{state} R\n")?;
        text.push_str(rule.as_str())?;
    }
    Ok(())
}
