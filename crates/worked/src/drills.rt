//! Checks the output of drills.
use drill::{DrillFault, drill_over_lists};
use over_tables::drill_engine;
use std::alloc::{AllocError, Global};
use text_io::RunStop;
use worked_exchanges::Scripted;
use worked_files::{Case, CaseFault, Line, check_bytes};

/// Checks that a script has its expected output with a store over tables.
pub fn check_script(alloc: Global, case: &Case) -> Result<(), CaseFault> {
    let mut script = String::new(alloc);
    let mut wanted = String::new(alloc);
    for line in &case.lines {
        if line.is_answer {
            put_line(&mut wanted, line)?;
        } else {
            put_line(&mut script, line)?;
        }
    }
    let mut input = script.as_bytes();
    let mut printed = Vec::new(alloc);
    match drill_engine(alloc, &mut input, &mut printed) {
        Ok(()) => {}
        Err(RunStop::Own(DrillFault::BadLine(line))) => {
            let stop = format!(in alloc; "bad line {line}\n")?;
            printed.extend_from_slice(stop.as_bytes())?;
        }
        Err(_) => return Err(CaseFault::Memory),
    }
    check_bytes(
        alloc,
        case.number,
        "drill",
        wanted.as_bytes(),
        printed.as_slice(),
    )
}

/// Checks that a drill with a list store prints the status and the body of each response.
pub fn check_scripted(alloc: Global, scripted: &Scripted) -> Result<(), CaseFault> {
    let mut input = scripted.script.as_bytes();
    let mut printed = Vec::new(alloc);
    if drill_over_lists(alloc, &mut input, &mut printed).is_err() {
        return Err(CaseFault::Memory);
    }
    let (wanted, came) = (scripted.printed.as_slice(), printed.as_slice());
    check_bytes(alloc, scripted.line, "drill", wanted, came)
}

fn put_line(text: &mut String, line: &Line) -> Result<(), AllocError> {
    text.push_str(line.text.as_str())?;
    text.push('\n')
}
