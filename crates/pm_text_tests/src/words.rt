//! Words that call for settings and words that call for none, with ample memory.
use pm_values::Txt;
use pm_words::{RunSettings, Settings, read_words};
use std::alloc::{AllocError, Global};
use std::test::Fail;

fn copied(alloc: Global, words: &[&str]) -> Result<Vec<Txt>, AllocError> {
    let mut copies = Vec::new(alloc);
    for word in words {
        copies.push(Txt::new(alloc, word)?)?;
    }
    Ok(copies)
}

// The settings of a run: the files, the events between two lines, the joins, whether there are such lines, and the workers.
fn run_text(alloc: Global, run: &RunSettings) -> Result<String, AllocError> {
    format!(in alloc;
        "run {} {} {} {:?} {} {}",
        run.schema.as_str(),
        run.query.as_str(),
        run.every,
        run.join,
        run.progress,
        run.workers
    )
}

fn settings_text(alloc: Global, settings: &Settings) -> Result<String, AllocError> {
    match settings {
        Settings::Run(run) => run_text(alloc, run),
        Settings::Explain(explain) => {
            let (schema, query) = (explain.schema.as_str(), explain.query.as_str());
            format!(in alloc; "explain {schema} {query}")
        }
        Settings::Demo(demo) => format!(in alloc; "demo {} {}", demo.size, demo.workers),
    }
}

// What words call for, or why they call for nothing.
fn answer(alloc: Global, words: &[&str]) -> Result<String, AllocError> {
    let copies = copied(alloc, words)?;
    let answer = read_words(alloc, copies.as_slice());
    let text = match &answer {
        Ok(settings) => settings_text(alloc, settings),
        Err(bad) => format!(in alloc; "{bad:?}"),
    };
    drop(answer);
    text
}

#[test]
fn settings_are_read(rt: HostRuntime) -> Result<(), Fail> {
    let run = [
        "run",
        "--workers",
        "8",
        "s",
        "--every=+07",
        "q",
        "--join",
        "merge",
        "--progress=off",
    ];
    let cases: [(&[&str], &str); 4] = [
        (&run, "run s q 7 Merge false 8"),
        (&["explain", "s", "q"], "explain s q"),
        (&["demo", "1000"], "demo 1000 1"),
        (&["run", "s"], "Usage"),
    ];
    for (words, want) in cases {
        assert_eq!(rt; answer(rt.alloc(), words)?.as_str(), want);
    }
    Ok(())
}
