// Pages and stop lines of whole traces, compared with what they should be.

#![tactic(auto)]

#[cfg(test)]
mod tests {
    use printing::{PrintError, print_trace};
    use std::alloc::{AllocError, Global};
    use std::test::Fail;

    // What is printed of a trace.
    fn printed(heap: Global, trace: &[u8]) -> Result<String, AllocError> {
        match print_trace(heap, trace) {
            Ok(text) | Err(PrintError::Stopped(text)) => Ok(text),
            Err(PrintError::NoMemory(error)) => Err(error),
        }
    }

    // A call of each function from 1 to the last, each left before the next.
    fn children(heap: Global, last: u16) -> Result<String, AllocError> {
        let mut text = String::new(heap);
        for function in 1..=last {
            write!(text, "call {function}\nback\n")?;
        }
        Ok(text)
    }

    const PAGES: &[(&str, &str)] = &[
        ("", "0 . 0 0 0 0\nstrays 0 open 0\n"),
        ("\n\nback\nback", "0 . 0 0 0 0\nstrays 2 open 0\n"),
        (
            "call 7\ncall 3\n",
            "0 . 0 0 2 0\n1 #7 1 0 2 0\n2 #3 1 0 1 0\nstrays 0 open 2\n",
        ),
        (
            "call 9\nback\ncall 2\nsample 0 4294967295 0 63\n",
            "0 . 0 0 2 4294967295\n1 #2 1 4294967295 1 4294967295\n1 #9 1 0 1 0\nstrays 0 open 1\n",
        ),
        (
            "call 1\nunwind 3\ncall 1\nsample 1 2 3 4\n",
            "0 . 0 0 2 2\n1 #1 2 2 2 2\nstrays 2 open 1\n",
        ),
        ("unwind 4095\n", "stopped 9 0 0\n"),
    ];

    const STOPS: &[(&str, &str)] = &[
        ("call 1\n\ncall", "stopped 1 8 0\n"),
        ("sample 1 2 3\n", "stopped 1 0 0\n"),
        ("call 4294967296\n", "stopped 2 0 0\n"),
        ("back\nreturn\n", "stopped 3 5 0\n"),
        ("back\n back\n", "stopped 3 5 0\n"),
        ("call 65536\n", "stopped 4 0 0\n"),
        ("call 1\nsample 0 0 0 0\n", "stopped 4 7 0\n"),
        ("call  1\n", "stopped 5 0 0\n"),
        ("call 1 \n", "stopped 5 0 0\n"),
        ("call x2345678901\n", "stopped 5 0 0\n"),
    ];

    #[test]
    fn an_error_shows_its_line(rt: HostRuntime) -> Result<(), Fail> {
        let shown = match print_trace(rt.alloc(), b"call") {
            Ok(page) => page,
            Err(error) => format!(in rt.alloc(); "{error}")?,
        };
        assert_eq!(rt; shown.as_str(), "stopped 1 0 0\n");
        let page = print_trace(rt.alloc(), b"back")?;
        assert_eq!(rt; page.as_str(), "0 . 0 0 0 0\nstrays 1 open 0\n");
        Ok(())
    }

    #[test]
    fn pages_and_stops(rt: HostRuntime) -> Result<(), Fail> {
        for (trace, page) in PAGES.iter().chain(STOPS.iter()) {
            let text = printed(rt.alloc(), trace.as_bytes())?;
            assert_eq!(rt; text.as_str(), *page);
        }
        Ok(())
    }

    #[test]
    fn a_path_has_512_functions(rt: HostRuntime) -> Result<(), Fail> {
        let heap = rt.alloc();
        let deep = "call 1\n".repeat(heap, 512)?;
        assert!(rt;
            printed(heap, deep.as_bytes())?
                .as_str()
                .ends_with("strays 0 open 512\n")
        );
        let deeper = "call 1\n".repeat(heap, 513)?;
        assert_eq!(rt;
            printed(heap, deeper.as_bytes())?.as_str(),
            "stopped 10 512 0\n"
        );
        Ok(())
    }

    #[test]
    fn a_page_has_1024_rows(rt: HostRuntime) -> Result<(), Fail> {
        let heap = rt.alloc();
        let wide = children(heap, 1_023)?;
        assert!(rt;
            printed(heap, wide.as_bytes())?
                .as_str()
                .starts_with("0 . 0 0 1023 0\n1 #1 1 0 1 0\n")
        );
        let wider = children(heap, 1_024)?;
        assert_eq!(rt;
            printed(heap, wider.as_bytes())?.as_str(),
            "stopped 9 2046 0\n"
        );
        Ok(())
    }

    #[test]
    fn a_trace_has_65536_bytes(rt: HostRuntime) -> Result<(), Fail> {
        let heap = rt.alloc();
        let long = "\n".repeat(heap, 65_536)?;
        assert_eq!(rt;
            printed(heap, long.as_bytes())?.as_str(),
            "0 . 0 0 0 0\nstrays 0 open 0\n"
        );
        let longer = "x".repeat(heap, 65_537)?;
        assert_eq!(rt;
            printed(heap, longer.as_bytes())?.as_str(),
            "stopped 15 65536 0\n"
        );
        Ok(())
    }
}
