// Trials of the answers: whole inputs and what is answered to them, worked out by hand from docs/RULES.md. The hierarchies are a stretch of
// ground from 0 to 800 with a replacement that puts a vertex at 400, and a square of ground, refined four times.
use crate::ground::Ground;
use std::alloc::AllocError;

const SQUARE: &str =
    "[3,[[0,0,0],[400,0,0],[400,400,0],[0,400,0],[200,200,60],[200,60,20],[340,200,30],[290,120,50]],[[0,1,2],[0,2,3]],[[60,[0,1],[[0,1,4],[1,2,4],[2,3,4],[3,0,4]]],[20,[2],[[0,1,5],[1,4,5],[4,0,5]]],[30,[3],[[1,2,6],[2,4,6],[4,1,6]]],[10,[7,11],[[4,5,7],[5,1,7],[1,6,7],[6,4,7]]]]]";

#[test]
fn square(rt: HostRuntime) -> Result<(), AllocError> {
    let answer = Ground::new(rt.alloc())?.answer(SQUARE.as_bytes());
    assert_eq!(rt; answer.to_string(rt.alloc())?.as_str(), "[0,8,16,4]");
    Ok(())
}

#[test]
fn inputs(rt: HostRuntime) -> Result<(), AllocError> {
    for (input, expected) in [
        // accepted: coordinates and errors at their limits; what follows the first line is not looked at
        (
            "[2,[[0,0,0],[800,0,0],[400,0,90]],[[0,1]],[[90,[0],[[0,2],[2,1]]]]]",
            "[0,3,3,1]",
        ),
        (
            "[2,[[-500000,0,0],[500000,0,0],[400,0,500000]],[[0,1]],[[100000,[0],[[0,2],[2,1]]]]]\n[9]\n",
            "[0,3,3,1]",
        ),
        ("[2,[[0,0,0],[1,0,0]],[[0,1]],[]]", "[0,2,1,0]"),
        // not of the form, and beyond the range of numbers
        ("", "[1,0]"),
        ("[2,50,0,0,4O0,400,5]", "[1,3]"),
        ("[4,[],[],[]]", "[1,1]"),
        ("[2,[[1000000000,0,0],[1,0,0]],[[0,1]],[]]", "[2,5]"),
        // no vertex; no base cell
        ("[2,[],[[0,1]],[]]", "[3,0]"),
        ("[2,[[0,0,0],[1,0,0]],[],[]]", "[3,1]"),
        // a coordinate and an error beyond their limits, and the coordinate is told
        ("[2,[[0,0,0],[500001,0,0]],[[0,1]],[]]", "[4,1]"),
        (
            "[2,[[0,0,0],[800,0,0],[400,0,90]],[[0,1]],[[100001,[0],[[0,2],[2,1]]]]]",
            "[5,1]",
        ),
        (
            "[2,[[0,0,0],[800,0,0],[400,0,-500001]],[[0,1]],[[-1,[0],[[0,2],[2,1]]]]]",
            "[4,2]",
        ),
        // a corner that is no vertex; a cell that runs back
        ("[2,[[0,0,0],[1,0,0]],[[0,2]],[]]", "[6,0]"),
        ("[2,[[0,0,0],[1,0,0]],[[1,0]],[]]", "[7,0]"),
        // nothing taken; no more made than taken; an own cell taken; a cell taken twice
        (
            "[2,[[0,0,0],[800,0,0],[400,0,90]],[[0,1]],[[90,[],[[0,2],[2,1]]]]]",
            "[8,1]",
        ),
        (
            "[2,[[0,0,0],[800,0,0],[400,0,90]],[[0,1]],[[90,[0],[[0,1]]]]]",
            "[8,1]",
        ),
        (
            "[2,[[0,0,0],[800,0,0],[400,0,90]],[[0,1]],[[90,[1],[[0,2],[2,1]]]]]",
            "[9,1]",
        ),
        (
            "[2,[[0,0,0],[800,0,0],[400,0,90]],[[0,1]],[[90,[0],[[0,2],[2,1]]],[80,[0],[[0,2],[2,1]]]]]",
            "[10,2]",
        ),
        // another rim
        (
            "[2,[[0,0,0],[800,0,0],[400,0,90]],[[0,1]],[[90,[0],[[0,2],[0,1]]]]]",
            "[11,1]",
        ),
    ] {
        let answer = Ground::new(rt.alloc())?.answer(input.as_bytes());
        assert_eq!(rt;
            answer.to_string(rt.alloc())?.as_str(),
            expected,
            "of {input}"
        );
    }
    Ok(())
}

#[test]
fn lengths(rt: HostRuntime) -> Result<(), AllocError> {
    // white space alone: of the greatest length it is a line that could still go on, one byte more is too long, whatever the lines are
    for (length, expected) in [(65_536, "[1,65536]"), (65_537, "[18,65536]")] {
        let input = vec![in rt.alloc(); b' '; length]?;
        let answer = Ground::new(rt.alloc())?.answer(input.as_slice());
        assert_eq!(rt; answer.to_string(rt.alloc())?.as_str(), expected);
    }
    Ok(())
}
