// Pictures of grids, and reports.
use picture::print_picture;
use report::report_text;
use seq_text::read_grid;
use std::alloc::Global;
use std::test::Fail;
use tile_io::{MOST_INPUT, Mark, MemorySink};
use tile_text::read_system;
use worked_systems::{MISMATCH, SMALL_COUNTER, system};

// A system of 63 types, one more than have a character of their own.
fn many_types(alloc: Global) -> Result<String, Fail> {
    let mut text = String::from_str(alloc, "tiles 1\ntau 1\n")?;
    for index in 0..63 {
        text.push_str(format!(in alloc; "tile t{index} - - - -\n")?.as_str())?;
    }
    text.push_str("box 0 0 2 0\nseed 0 0 t62\nend\n")?;
    Ok(text)
}

// The picture of the places behind a system.
#[tactic(auto, using(tile_io::proofs::Progress::start_is_mark))]
fn picture(alloc: Global, system: &str, places: &str) -> Result<Vec<u8>, Fail> {
    let text = format!(in alloc; "{system}{places}")?;
    let bytes = text.as_bytes();
    if bytes.len() > MOST_INPUT {
        return Ok(Vec::new(alloc));
    }
    let (system, from) = read_system(alloc, bytes, Mark::start())?;
    let grid = read_grid(alloc, &system, bytes, from)?;
    let mut sink = MemorySink::make(alloc, 200, 7, Vec::new(alloc))?;
    print_picture(&system, &grid, &mut sink)?;
    Ok(sink.bytes().to_vec(alloc)?)
}

#[test]
fn pictures_have_their_bytes(rt: HostRuntime) -> Result<(), Fail> {
    let alloc = rt.alloc();
    let many = many_types(alloc)?;
    for (system, places, want) in [
        (
            MISMATCH,
            "place 0 0 S\nplace 2 0 D\n",
            "picture 3 2\nA S\nC D\n...\nA.C\n",
        ),
        (
            many.as_str(),
            "place 0 0 t62\nplace 1 0 t61\nplace 2 0 t26\n",
            "picture 3 1\na t26\n9 t61\n#9a\n",
        ),
    ] {
        let shown = picture(alloc, system, places)?;
        assert!(rt; shown.as_slice() == want.as_bytes());
    }
    Ok(())
}

#[test]
fn reports_are_one_line(rt: HostRuntime) -> Result<(), Fail> {
    let system = system(rt.alloc(), SMALL_COUNTER)?;
    let whole = report_text(rt.alloc(), &system, 16, &[15], false, true)?;
    assert_eq!(rt;
        whole.as_str(),
        "{\"closed\":\"terminal\",\"glues\":14,\"height\":8,\"tau\":2,\"tiles\":16,\"types\":18,\
        \"unique\":\"yes\",\"width\":2,\"won\":[15]}"
    );
    let raced = report_text(rt.alloc(), &system, 16, &[], false, false)?;
    assert_eq!(rt;
        raced.as_str(),
        "{\"closed\":\"terminal\",\"glues\":14,\"height\":8,\"tau\":2,\"tiles\":16,\"types\":18,\
        \"unique\":\"no\",\"width\":2,\"won\":[]}"
    );
    let part = report_text(rt.alloc(), &system, 6, &[3, 0, 2], true, false)?;
    assert_eq!(rt;
        part.as_str(),
        "{\"closed\":\"clipped\",\"glues\":14,\"height\":8,\"tau\":2,\"tiles\":6,\"types\":18,\
        \"unique\":\"no\",\"width\":2,\"won\":[3,0,2]}"
    );
    Ok(())
}
