// The line of a report.
ghost use Rattle.std.specs.Prelude.{◌≡◌, IfOk, codes, string_bytes, if◌then◌else◌};
ghost use Rattle.serde_json.specs.View.{items_of, items_view, view};
ghost use Rattle.report.specs.Reports.{report_line};
ghost use Rattle.report.specs.Inner.Values.{number_data, report_data};

use serde_json::{Value, json};
use std::alloc::{AllocError, Global};
use tile_system::{NoMemory, System};

/// The line of a report, without its newline: whether a type attaches outside the box, the counts
/// of glues and types, the temperature, the size of the box, how many tiles stand, whether the
/// verdict is yes, and how many claims each worker has won, worker 0 first.
pub fn report_text(
    alloc: Global,
    sys: &System,
    tiles: u32,
    won: &[u32],
    clipped: bool,
    unique: bool,
) -> Result<String, NoMemory>
    ensures { IfOk result (λ line. string_bytes line
        ≡ report_line sys.now tiles won.now clipped unique) }
{
    let value = report_value(alloc, sys, tiles, won, clipped, unique)?;
    Ok(value.to_string(alloc)?)
}

// The report as a value of JSON.
fn report_value(
    alloc: Global,
    sys: &System,
    tiles: u32,
    won: &[u32],
    clipped: bool,
    unique: bool,
) -> Result<Value, AllocError>
    ensures { IfOk result (λ value. view value
        ≡ report_data sys.now tiles won.now clipped unique) }
{
    let closed = closed_word(clipped);
    let glues = sys.glue_count();
    let height = sys.area().height();
    let tau = sys.tau();
    let types = sys.type_count();
    let unique = verdict_word(unique);
    let width = sys.area().width();
    let won = Value::Array(numbers(alloc, won)?);
    json!(in alloc; {
        "closed": closed,
        "glues": glues,
        "height": height,
        "tau": tau,
        "tiles": tiles,
        "types": types,
        "unique": unique,
        "width": width,
        "won": won
    })
}

fn numbers(alloc: Global, won: &[u32]) -> Result<Vec<Value>, AllocError>
    ensures { IfOk result (λ values. items_view values.items ≡ items_of (number_data won.now)) }
{
    let mut values = Vec::new(alloc);
    for count in won {
        values.push(Value::from(*count))?;
    }
    Ok(values)
}

fn closed_word(clipped: bool) -> &'static str
    ensures { result.now ≡ (if clipped then codes "clipped" else codes "terminal") }
{
    if clipped { "clipped" } else { "terminal" }
}

fn verdict_word(unique: bool) -> &'static str
    ensures { result.now ≡ (if unique then codes "yes" else codes "no") }
{
    if unique { "yes" } else { "no" }
}
