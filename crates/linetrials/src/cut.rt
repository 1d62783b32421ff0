// Trials of how trials are read that are not of the form, which is how they were always read: what is missing is 0 or empty, and nothing
// of the input is left out. The expected values are worked out by hand from the order in which a trial is read.
use crate::trials::{Reading, Trials};
use std::alloc::AllocError;
use tables::Places;

#[test]
fn cut_trials(rt: HostRuntime) -> Result<(), AllocError> {
    for (input, reading, expected) in [
        // no line feed at the end; fewer bytes than the head should have
        (
            "order 4 5 0 0 0\n[3,7]",
            Reading::Order { places: 4 },
            "[3,7]",
        ),
        (
            "order 4 50 0 0 0\n[3,7]\n",
            Reading::Order { places: 4 },
            "[3,7]\n",
        ),
        // a line feed too early: the mark and the digits after it are taken for the numbers that are missing
        ("order 4 5\n[3,7]\n", Reading::Order { places: 4 }, "\n"),
        // another word, and a number that is missing
        (
            "orders  5 0 0 0\n[3,7]\n",
            Reading::Order { places: 0 },
            "[3,7]",
        ),
        // what does not begin as an order is a hierarchy
        (
            "x",
            Reading::Hierarchy {
                places: Places {
                    coordinates: 0,
                    corners: 0,
                    replacements: 0,
                    taken: 0,
                },
            },
            "",
        ),
    ] {
        let mut line = Vec::new(rt.alloc());
        let mut trials = Trials(input.as_bytes());
        let Some(trial) = trials.next() else {
            panic!(rt; "no trial in {input}");
        };
        trial.write_line(&mut line)?;
        assert_eq!(rt; trial.reading, reading, "of {input}");
        assert_eq!(rt; line.as_slice(), expected.as_bytes(), "of {input}");
        assert!(rt; trials.next().is_none(), "of {input}");
    }
    Ok(())
}
