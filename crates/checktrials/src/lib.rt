// Trials of the check of whole hierarchies: that memory for it is got and that it accepts and refuses, which no clause can say, and that
// the words of its contract mean what docs/RULES.md says, at worked hierarchies of both kinds. The expected values are worked out by hand
// from the rules.
#![tactic(auto)]

#[cfg(test)]
mod tests {
    use boxes::{Extent, Facts, Interval};
    use faults::Refusal;
    use hierarchy::{Workspace, accept};
    use kinds::{CellId, ReplacementId, Segment, Triangle};
    use owners::Part;
    use rules::RawTables;
    use std::alloc::AllocError;

    // A square of ground, refined four times: replacement 1 puts the middle into its two triangles, 2 and 3 refine the south and the
    // east of the four that 1 makes, and 4 refines two triangles, one of 2 and one of 3.
    const COORDINATES: [i32; 24] = [
        0, 0, 0, 400, 0, 0, 400, 400, 0, 0, 400, 0, 200, 200, 60, 200, 60, 20, 340, 200, 30, 290,
        120, 50,
    ];

    const CORNERS: [i32; 48] = [
        0, 1, 2, 0, 2, 3, 0, 1, 4, 1, 2, 4, 2, 3, 4, 3, 0, 4, 0, 1, 5, 1, 4, 5, 4, 0, 5, 1, 2, 6,
        2, 4, 6, 4, 1, 6, 4, 5, 7, 5, 1, 7, 1, 6, 7, 6, 4, 7,
    ];

    const REPLACEMENTS: [i32; 12] = [60, 2, 4, 20, 1, 3, 30, 1, 3, 10, 2, 4];

    const TAKEN: [i32; 6] = [0, 1, 2, 3, 7, 11];

    fn square<'a>(taken: &'a [i32]) -> RawTables<'a> {
        RawTables {
            coordinates: &COORDINATES,
            corners: &CORNERS,
            base: 2,
            replacements: &REPLACEMENTS,
            taken,
        }
    }

    #[test]
    fn square_is_accepted(rt: HostRuntime) -> Result<(), AllocError> {
        let work = Workspace::new(rt.alloc(), 48)?;
        assert_eq!(rt; work.corners(), 48);
        match accept::<Triangle>(square(&TAKEN), work) {
            Ok(h) => {
                assert_eq!(rt; (h.vertices(), h.cells(), h.replacements()), (8, 16, 4));
                for (cell, maker, taker) in [
                    (0, None, Some(1)),
                    (1, None, Some(1)),
                    (2, Some(1), Some(2)),
                    (4, Some(1), None),
                    (7, Some(2), Some(4)),
                    (11, Some(3), Some(4)),
                    (15, Some(4), None),
                    (16, None, None),
                ] {
                    assert_eq!(rt;
                        h.maker(CellId(cell)),
                        maker.map(ReplacementId),
                        "maker of {cell}"
                    );
                    assert_eq!(rt;
                        h.taker(CellId(cell)),
                        taker.map(ReplacementId),
                        "taker of {cell}"
                    );
                }
                assert_eq!(rt;
                    h.ranges(ReplacementId(1)),
                    Some(Part {
                        error: 60,
                        list: 0,
                        takes: 2,
                        first: 2,
                        makes: 4,
                    })
                );
                assert_eq!(rt;
                    h.ranges(ReplacementId(4)),
                    Some(Part {
                        error: 10,
                        list: 4,
                        takes: 2,
                        first: 12,
                        makes: 4,
                    })
                );
                assert_eq!(rt; h.ranges(ReplacementId(5)), None);
                assert_eq!(rt;
                    h.facts(ReplacementId(2)),
                    Some(Facts {
                        number: ReplacementId(2),
                        error: 20,
                        around: Extent {
                            x: Interval { low: 0, high: 400 },
                            y: Interval { low: 0, high: 200 },
                            z: Interval { low: 0, high: 60 },
                        },
                    })
                );
                assert_eq!(rt;
                    h.facts(ReplacementId(4)),
                    Some(Facts {
                        number: ReplacementId(4),
                        error: 10,
                        around: Extent {
                            x: Interval {
                                low: 200,
                                high: 400
                            },
                            y: Interval { low: 0, high: 200 },
                            z: Interval { low: 0, high: 60 },
                        },
                    })
                );
                assert_eq!(rt; h.facts(ReplacementId(0)), None);
            }
            Err(fault) => panic!(rt; "refused as {fault:?}"),
        }
        Ok(())
    }

    #[test]
    fn square_is_refused(rt: HostRuntime) -> Result<(), AllocError> {
        // no room for the last corner; cell 2 taken by 2 and by 3; 2 takes a cell whose rim is another; 4 takes a cell that it makes
        let tight = Workspace::new(rt.alloc(), 47)?;
        assert_eq!(rt;
            accept::<Triangle>(square(&TAKEN), tight).err(),
            Some(Refusal::CountOffLimits.at(1))
        );
        for (taken, fault) in [
            ([0, 1, 2, 2, 7, 11], Refusal::TakesTwice.at(3)),
            ([0, 1, 4, 3, 7, 11], Refusal::RimBroken.at(2)),
            ([0, 1, 2, 3, 7, 12], Refusal::TakesNoEarlierCell.at(4)),
        ] {
            let work = Workspace::new(rt.alloc(), 48)?;
            assert_eq!(rt; accept::<Triangle>(square(&taken), work).err(), Some(fault));
        }
        Ok(())
    }

    #[test]
    fn profile_is_accepted(rt: HostRuntime) -> Result<(), AllocError> {
        // a stretch of two ends, and one replacement that puts a vertex between them
        let tables = RawTables {
            coordinates: &[0, 0, 0, 10, 0, 0, 5, 0, 3],
            corners: &[0, 1, 0, 2, 2, 1],
            base: 1,
            replacements: &[3, 1, 2],
            taken: &[0],
        };
        let work = Workspace::new(rt.alloc(), 6)?;
        match accept::<Segment>(tables, work) {
            Ok(h) => {
                assert_eq!(rt; (h.vertices(), h.cells(), h.replacements()), (3, 3, 1));
                assert_eq!(rt;
                    h.facts(ReplacementId(1)),
                    Some(Facts {
                        number: ReplacementId(1),
                        error: 3,
                        around: Extent {
                            x: Interval { low: 0, high: 10 },
                            y: Interval { low: 0, high: 0 },
                            z: Interval { low: 0, high: 3 },
                        },
                    })
                );
            }
            Err(fault) => panic!(rt; "refused as {fault:?}"),
        }
        Ok(())
    }
}
