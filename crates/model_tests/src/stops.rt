// The words of the errors.
use replay_order::ReplayStop;
use std::test::Fail;
use tile_system::{BuildStop, Site};

#[test]
fn builder_stops_in_words(rt: HostRuntime) -> Result<(), Fail> {
    let words = [
        (BuildStop::BadName, "bad name"),
        (BuildStop::DoubleName, "double name"),
        (BuildStop::UnknownGlue, "unknown glue"),
        (BuildStop::UnknownType, "unknown type"),
        (BuildStop::OutOfRange, "out of range"),
        (BuildStop::TooMany, "too many"),
        (BuildStop::NoArea, "no area"),
        (BuildStop::NoSeed, "no seed"),
        (BuildStop::SeedOutside, "seed outside"),
        (BuildStop::NoMemory, "no memory"),
        (BuildStop::DoubleSite, "double site"),
        (BuildStop::DoublePair, "double pair"),
    ];
    for (stop, text) in words {
        let printed = format!(in rt.alloc(); "{stop}")?;
        assert!(rt; printed.as_str() == text);
    }
    Ok(())
}

#[test]
fn replay_stops_in_words(rt: HostRuntime) -> Result<(), Fail> {
    let least = Site { x: 0, y: 0 };
    let words = [
        (ReplayStop::NoSeedThere, "no seed there"),
        (ReplayStop::Stuck { left: 1, least }, "stuck"),
        (ReplayStop::NoMemory, "no memory"),
    ];
    for (stop, text) in words {
        let printed = format!(in rt.alloc(); "{stop}")?;
        assert!(rt; printed.as_str() == text);
    }
    Ok(())
}
