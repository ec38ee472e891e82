// The text of each kind of line, and of a page.
use report::page::{Footer, Name, PageLine, StopLine, page_text, stop_text};
use std::test::Fail;

#[test]
fn names(rt: HostRuntime) -> Result<(), Fail> {
    let cases = [
        (Name::Root, "."),
        (Name::Function(0), "#0"),
        (Name::Function(65_535), "#65535"),
    ];
    for (name, text) in cases {
        let shown = format!(in rt.alloc(); "{name}")?;
        assert_eq!(rt; shown.as_str(), text);
    }
    Ok(())
}

#[test]
fn names_of_functions(rt: HostRuntime) {
    let cases = [
        (0, Name::Root),
        (1, Name::Function(1)),
        (65_535, Name::Function(65_535)),
    ];
    for (function, name) in cases {
        assert_eq!(rt; Name::from(function), name);
    }
}

#[test]
fn stops(rt: HostRuntime) -> Result<(), Fail> {
    let cases = [
        (
            StopLine {
                cause: 5,
                place: 0,
                passed: 0,
            },
            "stopped 5 0 0\n",
        ),
        (
            StopLine {
                cause: 12,
                place: 1_000_000,
                passed: 255,
            },
            "stopped 12 1000000 255\n",
        ),
    ];
    for (stop, text) in cases {
        let shown = stop_text(rt.alloc(), &stop)?;
        assert_eq!(rt; shown.as_str(), text);
    }
    Ok(())
}

#[test]
fn pages(rt: HostRuntime) -> Result<(), Fail> {
    let root = PageLine {
        depth: 0,
        name: Name::Root,
        own_calls: 0,
        own_work: 1,
        calls: 2,
        work: 3,
    };
    let row = PageLine {
        depth: 1,
        name: Name::Function(7),
        own_calls: 4,
        own_work: 5,
        calls: 6,
        work: u64::MAX,
    };
    let footer = Footer { strays: 8, open: 9 };
    let cases: [(&[PageLine], &str); 2] = [
        (&[], "strays 8 open 9\n"),
        (
            &[root, row],
            "0 . 0 1 2 3\n1 #7 4 5 6 18446744073709551615\nstrays 8 open 9\n",
        ),
    ];
    for (lines, text) in cases {
        let shown = page_text(rt.alloc(), lines, &footer)?;
        assert_eq!(rt; shown.as_str(), text);
    }
    Ok(())
}
