//! Runs of `ras sample`, which reads no file.
use crate::runs::{Failing, NOTHING, Texts, told_by};
use std::alloc::Global;
use std::test::Fail;

// Files of which none is valid.
const INVALID: Texts<'static> = Texts {
    inventory: "",
    requests: "",
    bindings: "",
    plan: "",
};

// The first read fails.
const NO_READ: Failing = Failing {
    read: 1,
    put: 0,
    taken: 0,
};

// The first put fails, and takes some bytes before.
const NO_PUT: Failing = Failing {
    read: 0,
    put: 1,
    taken: 7,
};

// What is told of a run with these words, twice the same, whatever is on the shelf.
fn told(alloc: Global, line: &[&str]) -> Result<String, Fail> {
    let first = told_by(alloc, line, INVALID, NOTHING)?;
    let second = told_by(alloc, line, INVALID, NO_READ)?;
    if first != second {
        return Err(Fail::from("two runs differ"));
    }
    Ok(first)
}

#[test]
fn twelve_servers(rt: HostRuntime) -> Result<(), Fail> {
    let found = told(rt.alloc(), ["ras", "sample", "7", "3"].as_slice())?;
    let want =
        "0|servers 12\nswitchboards 3\nanswer plan\nregion value 3 lower 3 gap 0\nrack none\n|";
    assert!(rt; found.as_str() == want, "{found}");
    Ok(())
}

#[test]
fn eight_servers(rt: HostRuntime) -> Result<(), Fail> {
    let found = told(rt.alloc(), ["ras", "sample", "1", "2"].as_slice())?;
    let want =
        "0|servers 8\nswitchboards 2\nanswer plan\nregion value 3 lower 3 gap 0\nrack value 5 lower 5 gap 0\n|";
    assert!(rt; found.as_str() == want, "{found}");
    Ok(())
}

// db asks for servers of type t1 on two switchboards: of the sample 0 only m1 has any, and of the sample 28 neither has.
#[test]
fn infeasible(rt: HostRuntime) -> Result<(), Fail> {
    let want = "4|servers 8\nswitchboards 2\nanswer infeasible\nregion none\nrack none\n|";
    for number in ["0", "28"] {
        let found = told(rt.alloc(), ["ras", "sample", number, "2"].as_slice())?;
        assert!(rt; found.as_str() == want, "{number}: {found}");
    }
    Ok(())
}

#[test]
fn refused_words(rt: HostRuntime) -> Result<(), Fail> {
    let cases = [
        (
            ["ras", "sample", "7", "1"].as_slice(),
            "2||error: invalid value '1' for '<SIZE>': 1 is not in 2..=40\n",
        ),
        (
            ["ras", "sample", "7", "41"].as_slice(),
            "2||error: invalid value '41' for '<SIZE>': 41 is not in 2..=40\n",
        ),
        (
            ["ras", "sample", "65537", "3"].as_slice(),
            "2||error: invalid value '65537' for '<NUMBER>': 65537 is not in 0..=65536\n",
        ),
        (
            ["ras", "sample", "7"].as_slice(),
            "2||error: the following required arguments were not provided:\n  <SIZE>\n",
        ),
    ];
    for (line, want) in cases {
        let found = told(rt.alloc(), line)?;
        assert!(rt; found.as_str().starts_with(want), "{want}: {found}");
    }
    Ok(())
}

#[test]
fn failing_output(rt: HostRuntime) -> Result<(), Fail> {
    let line = ["ras", "sample", "7", "3"];
    let found = told_by(rt.alloc(), line.as_slice(), INVALID, NO_PUT)?;
    assert!(rt;
        found.as_str() == "7|servers|ras: write failed\n",
        "{found}"
    );
    Ok(())
}
